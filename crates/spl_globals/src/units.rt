//! What is stored of units.
ghost use Rattle.std.specs.Prelude.{◌≡◌, false, OnOk, IfOk, map};
ghost use Rattle.spl_initials.specs.spl_places.declared.places.Area.TheVariants as area;
ghost use Rattle.spl_tree.specs.DeclarationTrees as decl;
ghost use Rattle.spl_tree.specs.Spells as view;
ghost use Rattle.spl_sorts.specs.spl_meaning.Names.{find, nothing_declared};
ghost use Rattle.spl_sorts.specs.Tables.{table_of};
ghost use Rattle.spl_areas.specs.spl_sound.Spelled.{source_of};
ghost use Rattle.spl_initials.specs.spl_places.ListedData.{datum_of, list_data};
ghost use Rattle.spl_initials.specs.spl_places.Programs.{unit_items};
ghost use Rattle.spl_initials.specs.Memory.{memory_of};
ghost use Rattle.spl_globals.specs.Stored as stored;
ghost use Rattle.spl_globals.specs.Stored.{globals_stored, unit_stored, units_stored, behind_unit};

use crate::areas::{Areas, behind_globals};
use crate::owns::{nothing, owns_stored};
use crate::stored::{Listing, Pass, list_stored};
use spl_initials::spl_places::{Area, Datum, Starts, declarations};
use spl_tree::{Decl, SplUnit};
use std::alloc::{AllocError, Global};

/// Where a unit's list starts.
fn global_starts(at: Areas) -> Starts
    ensures { result ≡ stored.global_starts at }
{
    Starts {
        own: 0,
        own_arrays: 0,
        here: at.primary,
        here_arrays: at.secondary,
    }
}

/// The items of a unit's list.
fn unit_data(alloc: Global, list: &[Decl]) -> Result<Vec<Datum>, AllocError>
    ensures { IfOk result (λ all. map datum_of all.items ≡ list_data nothing_declared nothing_declared (decl.declarations (map view.declaration list.now))) }
{
    let outer = nothing(alloc);
    let mut here = nothing(alloc);
    let mut all = Vec::new(alloc);
    declarations(alloc, &outer, &mut here, list, &mut all)?;
    Ok(all)
}

/// The globals of a unit with these items.
fn items_stored(
    alloc: Global,
    pass: Pass,
    words: &mut [u16],
    at: Areas,
    items: &[Datum],
    list: &[Decl],
) -> Result<(), AllocError>
    ensures { OnOk result (memory_of words.new ≡ stored.list_stored pass false area.Globals (stored.global_starts at) nothing_declared nothing_declared (map datum_of items.now) (decl.declarations (map view.declaration list.now)) (memory_of words.old)) }
{
    let outer = nothing(alloc);
    let mut here = nothing(alloc);
    let listing = Listing {
        own: false,
        area: Area::Globals,
        at: global_starts(at),
        outer: &outer,
        items,
        list,
    };
    list_stored(alloc, pass, words, &listing, &mut here)
}

/// The globals of a unit that is no subprogram. Answers where the next unit's data start, but for OWN items.
fn globals_stored(
    alloc: Global,
    pass: Pass,
    words: &mut [u16],
    at: Areas,
    unit: &SplUnit,
) -> Result<Areas, AllocError>
    ensures words { OnOk result (memory_of words.new ≡ globals_stored pass at (source_of unit.now) (memory_of words.old)) }
    ensures next { IfOk result (λ next. next ≡ stored.behind_globals at (unit_items (source_of unit.now))) }
{
    if unit.subprogram {
        return Ok(at);
    }
    let items = unit_data(alloc, &unit.items)?;
    items_stored(alloc, pass, words, at, &items, &unit.items)?;
    behind_globals(at, &items)
}

/// A unit. Answers where the next unit's data start.
fn unit_stored(
    alloc: Global,
    pass: Pass,
    words: &mut [u16],
    at: Areas,
    unit: &SplUnit,
) -> Result<Areas, AllocError>
    ensures words { OnOk result (memory_of words.new ≡ unit_stored pass at (source_of unit.now) (memory_of words.old)) }
    ensures next { IfOk result (λ next. next ≡ behind_unit at (source_of unit.now)) }
{
    let next = globals_stored(alloc, pass, words, at, unit)?;
    owns_stored(alloc, pass, words, next, &unit.items)
}

/// Units in order, where the data of the first start there.
#[tactic(auto, using(crate::proofs::StoredWalks::unit_steps))]
pub fn units_stored(
    alloc: Global,
    pass: Pass,
    words: &mut [u16],
    at: Areas,
    units: &[SplUnit],
) -> Result<(), AllocError>
    ensures { OnOk result (memory_of words.new ≡ units_stored pass at (map source_of units.now) (memory_of words.old)) }
{
    let mut next = at;
    for unit in units {
        next = unit_stored(alloc, pass, words, next, unit)?;
    }
    Ok(())
}
