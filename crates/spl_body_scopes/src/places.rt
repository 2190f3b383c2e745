//! The places of parameters and of items, by name.
ghost use Rattle.std.specs.Prelude.{◌≡◌, ◌+◌, OnOk, IfOk, map};
ghost use Rattle.spl_tree.specs.Views.{letters};
ghost use Rattle.spl_sorts.specs.spl_meaning.Names.{find};
ghost use Rattle.spl_sorts.specs.spl_meaning.Places as p;
ghost use Rattle.spl_sorts.specs.spl_meaning.Bodies.{parameter_places};
ghost use Rattle.spl_sorts.specs.Profiles.{formal_of};
ghost use Rattle.spl_sorts.specs.Sorts.{sort_of};
ghost use Rattle.spl_places.specs.ListedData.{datum_of};
ghost use Rattle.spl_places.specs.NameMaps.{entries_of, shown, behind_table};
ghost use Rattle.spl_places.specs.Held.{named};
ghost use Rattle.spl_places.specs.Spots.{spot_of, place_in, and_place};
ghost use Rattle.spl_body_scopes.specs.Bases.{below_in, gap_of};

use spl_formals::{formal_words, formals_words};
use spl_places::spl_spots::plus;
use spl_places::{Area, Datum, NameMap, Place, is_own, item_words};
use spl_sorts::{Formal, Sort};
use spl_tree::Name;
use std::alloc::{AllocError, Global};

/// Below what parameters stand: a procedure's below its marker, a subroutine's below its return word.
#[derive(Clone, Copy, Debug, PartialEq, Eq)]
pub enum Base {
    Marker,
    Return,
}

impl Base {
    /// So many words above the last parameter.
    pub fn gap(self) -> u64
        ensures { result ≡ gap_of self }
    {
        match self {
            Base::Marker => 3,
            Base::Return => 0,
        }
    }

    /// The place so many words below it.
    pub fn below(self, words: u64) -> Place
        ensures { spot_of result ≡ below_in self words }
    {
        match self {
            Base::Marker => Place::BelowBase(words),
            Base::Return => Place::BelowReturn(words),
        }
    }
}

/// The places of parameters. An error is want of memory, or as in `plus`.
#[tactic(auto, using(crate::proofs::PlaceSteps::parameter_steps))]
pub fn parameter_places(
    alloc: Global,
    base: Base,
    formals: &[Formal],
) -> Result<NameMap<Place>, AllocError>
    ensures { IfOk result (λ places. shown spot_of (find (entries_of places)) ≡ find (parameter_places (below_in base) (gap_of base) (map formal_of formals.now))) }
{
    let mut places = NameMap::new(alloc);
    let mut left = formals_words(formals)?;
    for formal in formals {
        let words = formal_words(formal);
        left -= words;
        let from_gap = plus(base.gap(), words)?;
        let below = plus(from_gap, left)?;
        places.add(&formal.name, base.below(below))?;
    }
    Ok(places)
}

/// A place in an area.
fn place_in(area: Area, at: u64) -> Place
    ensures { spot_of result ≡ place_in area at }
{
    match area {
        Area::Globals => Place::DataWord(at),
        Area::Frame => Place::AboveBase(at),
    }
}

/// The place of an item, OWN or not.
fn place_of(area: Area, own: bool, owned: u64, here: u64) -> Place
    ensures { spot_of result ≡ p.place_of (place_in area) own owned here }
{
    if own {
        Place::DataWord(owned)
    } else {
        place_in(area, here)
    }
}

/// Takes in where an item stands, if it has words.
fn note_place(
    places: &mut NameMap<Place>,
    area: Area,
    owned: u64,
    here: u64,
    name: &Name,
    sort: &Sort,
) -> Result<(), AllocError>
    ensures { OnOk result (shown spot_of (find (entries_of places.new)) ≡ and_place (place_in area) owned here (shown spot_of (find (entries_of places.old))) (letters name.now) (sort_of sort.now)) }
{
    if 0 < item_words(sort) {
        places.add(name, place_of(area, is_own(sort), owned, here))?;
    }
    Ok(())
}

/// Where the next item of a list stands that is OWN, or that is not. An error is as in `plus`.
fn behind(at: u64, own: bool, sort: &Sort) -> Result<u64, AllocError>
    ensures { IfOk result (λ next. next ≡ at + p.where_own own p.item_words (sort_of sort.now)) }
{
    if is_own(sort) == own {
        let next = plus(at, item_words(sort))?;
        Ok(next)
    } else {
        Ok(at)
    }
}

/// Takes in where the items of a list stand: those that are OWN from an address on, the others in an area.
#[tactic(auto, using(crate::proofs::PlaceSteps::item_steps))]
pub fn item_places(
    places: &mut NameMap<Place>,
    area: Area,
    own: u64,
    first: u64,
    items: &[Datum],
) -> Result<(), AllocError>
    ensures { OnOk result (shown spot_of (find (entries_of places.new)) ≡ behind_table (shown spot_of (find (entries_of places.old))) (p.places_from (place_in area) own first (map named (map datum_of items.now)))) }
{
    let mut owned = own;
    let mut here = first;
    for datum in items {
        note_place(places, area, owned, here, &datum.name, &datum.sort)?;
        owned = behind(owned, true, &datum.sort)?;
        here = behind(here, false, &datum.sort)?;
    }
    Ok(())
}
