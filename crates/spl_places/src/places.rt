//! Where the items of a list stand, and the data of its arrays.
ghost use Rattle.std.specs.Prelude.{◌≡◌, OnOk, IfOk, map};
ghost use Rattle.spl_tree.specs.Views.{letters};
ghost use Rattle.spl_sorts.specs.spl_meaning.Names.{find};
ghost use Rattle.spl_sorts.specs.spl_meaning.Places as places;
ghost use Rattle.spl_sorts.specs.Sorts.{sort_of};
ghost use Rattle.spl_places.specs.ListedData.{datum_of};
ghost use Rattle.spl_spots.specs.NameMaps.{entries_of, shown};
ghost use Rattle.spl_places.specs.Held.{named};
ghost use Rattle.spl_places.specs.Spots.{spot_of, array_of, place_in, and_place, and_array, behind_item, behind_data, frame_starts};

use crate::counters::{Part, counted_words, total};
use crate::data::Datum;
use crate::words::{is_own, item_words};
use spl_sorts::Sort;
use spl_spots::{NameMap, Place, plus};
use spl_tree::{Kind, Name};
use std::alloc::{AllocError, Global};

/// The first local item stands so many words above the last word of a marker.
const FIRST_LOCAL: u64 = 1;

/// Where the items of a list that are not OWN stand: among the data words, or above the base of a frame.
#[derive(Clone, Copy, Debug, PartialEq, Eq)]
pub enum Area {
    Globals,
    Frame,
}

/// The data of an array: where they begin, their kind, and the lower bound.
#[derive(Clone, Copy, Debug, PartialEq, Eq)]
pub struct Array {
    pub from: Place,
    pub kind: Kind,
    pub low: i64,
}

/// Where the next item of a list and the next array's data stand, those that are OWN as addresses.
#[derive(Clone, Copy, Debug, PartialEq, Eq)]
pub struct Starts {
    pub own: u64,
    pub own_arrays: u64,
    pub here: u64,
    pub here_arrays: u64,
}

/// Where a procedure's list starts: its items that are OWN at these addresses; the others above its marker, and
/// their arrays' data behind them. An error is as in `plus`.
pub fn frame_starts(own: u64, own_arrays: u64, list: &[Datum]) -> Result<Starts, AllocError>
    ensures { IfOk result (λ s. s ≡ frame_starts own own_arrays (map datum_of list.now)) }
{
    let words = total(Part::Items, false, list)?;
    Ok(Starts {
        own,
        own_arrays,
        here: FIRST_LOCAL,
        here_arrays: plus(FIRST_LOCAL, words)?,
    })
}

/// A place in an area.
fn place_in(area: Area, at: u64) -> Place
    ensures { spot_of result ≡ place_in area at }
{
    match area {
        Area::Globals => Place::DataWord(at),
        Area::Frame => Place::AboveBase(at),
    }
}

/// The place of an item or of an array's data, OWN or not.
fn place_of(area: Area, own: bool, owned: u64, here: u64) -> Place
    ensures { spot_of result ≡ places.place_of (place_in area) own owned here }
{
    if own {
        Place::DataWord(owned)
    } else {
        place_in(area, here)
    }
}

/// Where the next item stands. An error is as in `plus`.
fn behind_item(at: Starts, sort: &Sort) -> Result<Starts, AllocError>
    ensures { IfOk result (λ next. next ≡ behind_item at (sort_of sort.now)) }
{
    Ok(Starts {
        own: plus(at.own, counted_words(Part::Items, true, sort)?)?,
        own_arrays: plus(at.own_arrays, counted_words(Part::Arrays, true, sort)?)?,
        here: plus(at.here, counted_words(Part::Items, false, sort)?)?,
        here_arrays: plus(at.here_arrays, counted_words(Part::Arrays, false, sort)?)?,
    })
}

/// Takes in where an item stands, if it has words.
fn note_place(
    places: &mut NameMap<Place>,
    area: Area,
    at: Starts,
    name: &Name,
    sort: &Sort,
) -> Result<(), AllocError>
    ensures { OnOk result (shown spot_of (find (entries_of places.new)) ≡ and_place (place_in area) at.own at.here (shown spot_of (find (entries_of places.old))) (letters name.now) (sort_of sort.now)) }
{
    if 0 < item_words(sort) {
        places.add(name, place_of(area, is_own(sort), at.own, at.here))?;
    }
    Ok(())
}

/// Takes in where an array's data stand, if an item is an array.
fn note_array(
    arrays: &mut NameMap<Array>,
    from: Place,
    name: &Name,
    sort: &Sort,
) -> Result<(), AllocError>
    ensures { OnOk result (shown array_of (find (entries_of arrays.new)) ≡ and_array (spot_of from) (shown array_of (find (entries_of arrays.old))) (letters name.now) (sort_of sort.now)) }
{
    match sort {
        Sort::Array { kind, low, .. } => {
            let array = Array {
                from,
                kind: *kind,
                low: *low,
            };
            arrays.add(name, array)?;
        }
        Sort::Simple(..)
        | Sort::View(..)
        | Sort::Pointer(..)
        | Sort::Value(_)
        | Sort::ByReference(_)
        | Sort::ArrayParameter(_)
        | Sort::Equate(_)
        | Sort::Label
        | Sort::Intrinsic(_)
        | Sort::Procedure(_)
        | Sort::Subroutine(_)
        | Sort::Unknown => {}
    }
    Ok(())
}

/// The places of a list's items and of its arrays' data, by names, and where the next stand.
#[derive(Debug, Drop)]
pub struct ListPlaces {
    pub places: NameMap<Place>,
    pub arrays: NameMap<Array>,
    pub next: Starts,
}

/// Where the items of a list stand, and the data of its arrays: those that are OWN as addresses, the others in
/// an area. An error is want of memory, or as in `plus`.
#[tactic(auto, using(crate::proofs::PlaceWalks::place_steps))]
pub fn list_places(
    alloc: Global,
    area: Area,
    at: Starts,
    list: &[Datum],
) -> Result<ListPlaces, AllocError>
    ensures places { IfOk result (λ l. shown spot_of (find (entries_of l.places)) ≡ find (places.places_from (place_in area) at.own at.here (map named (map datum_of list.now)))) }
    ensures arrays { IfOk result (λ l. shown array_of (find (entries_of l.arrays)) ≡ find (places.arrays_from (place_in area) at.own_arrays at.here_arrays (map named (map datum_of list.now)))) }
    ensures next { IfOk result (λ l. l.next ≡ behind_data at (map datum_of list.now)) }
{
    let mut places = NameMap::new(alloc);
    let mut arrays = NameMap::new(alloc);
    let mut next = at;
    for datum in list {
        let from = place_of(area, is_own(&datum.sort), next.own_arrays, next.here_arrays);
        note_place(&mut places, area, next, &datum.name, &datum.sort)?;
        note_array(&mut arrays, from, &datum.name, &datum.sort)?;
        next = behind_item(next, &datum.sort)?;
    }
    Ok(ListPlaces {
        places,
        arrays,
        next,
    })
}
