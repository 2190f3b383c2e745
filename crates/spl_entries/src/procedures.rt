//! The places of the parameters and items of procedures.
ghost use Rattle.std.specs.Prelude.{◌≡◌, ◌++◌, OnOk, IfOk, map};
ghost use Rattle.spl_tree.specs.DeclarationTrees as decl;
ghost use Rattle.spl_tree.specs.Spells as view;
ghost use Rattle.spl_tree.specs.Spells.{heading_tree};
ghost use Rattle.spl_sorts.specs.spl_meaning.Names.{find};
ghost use Rattle.spl_sorts.specs.Tables.{table_of};
ghost use Rattle.spl_globals.specs.spl_places.ListedData.{datum_of};
ghost use Rattle.spl_globals.specs.spl_areas.Gathered.{items_under};
ghost use Rattle.spl_globals.specs.Stored.{behind_owns};
ghost use Rattle.spl_entries.specs.Entries as entries;

use crate::items::item_places;
use crate::parameters::parameter_places;
use crate::place_type::Place;
use spl_globals::spl_areas::list_items;
use spl_globals::spl_places::{Datum, frame_starts};
use spl_globals::{Areas, behind_owns};
use spl_sorts::Table;
use spl_tree::{Decl, Heading};
use std::alloc::{AllocError, Global};

/// The gap between the last word of a marker and the parameters below it.
const MARKER_GAP: u64 = 3;

/// The parameters of a declaration, where it is a subroutine.
pub fn inner(alloc: Global, item: &Decl, all: &mut Vec<Place>) -> Result<(), AllocError>
    ensures { OnOk result (all.new.items ≡ all.old.items ++ entries.inner_entries (view.declaration item.now)) }
{
    match item {
        Decl::Subroutine(heading, _) => parameter_places(alloc, 0, heading, all),
        Decl::Data { .. }
        | Decl::Equate(_)
        | Decl::Intrinsic(_)
        | Decl::Label(_)
        | Decl::Forward(_)
        | Decl::External(_)
        | Decl::Procedure(..) => Ok(()),
    }
}

/// The parameters of the subroutines of a list.
#[tactic(auto, using(crate::proofs::EntryWalks::inner_steps))]
fn subroutines(alloc: Global, list: &[Decl], all: &mut Vec<Place>) -> Result<(), AllocError>
    ensures { OnOk result (all.new.items ≡ all.old.items ++ entries.subroutines_entries (decl.declarations (map view.declaration list.now))) }
{
    for d in list {
        inner(alloc, d, all)?;
    }
    Ok(())
}

/// The items of a procedure, of which those that are OWN stand at these addresses.
fn frame_places(
    own: u64,
    own_arrays: u64,
    items: &[Datum],
    all: &mut Vec<Place>,
) -> Result<(), AllocError>
    ensures { OnOk result (all.new.items ≡ all.old.items ++ entries.frame_entries own own_arrays (map datum_of items.now)) }
{
    let starts = frame_starts(own, own_arrays, items)?;
    item_places(starts, items, all)
}

/// The items of a procedure, in order.
fn gathered(
    alloc: Global,
    outer: &Table,
    heading: &Heading,
    list: &[Decl],
) -> Result<Vec<Datum>, AllocError>
    ensures { IfOk result (λ items. map datum_of items.items ≡ items_under (find (table_of outer.now)) (heading_tree heading.now) (decl.declarations (map view.declaration list.now))) }
{
    let mut items = Vec::new(alloc);
    list_items(alloc, outer, heading, list, &mut items)?;
    Ok(items)
}

/// A procedure with the names outside it: its parameters, its items, and the parameters of its subroutines. Answers
/// where the OWN items of the next stand.
pub fn procedure(
    alloc: Global,
    outer: &Table,
    at: Areas,
    heading: &Heading,
    list: &[Decl],
    all: &mut Vec<Place>,
) -> Result<Areas, AllocError>
    ensures places { OnOk result (all.new.items ≡ all.old.items ++ entries.procedure_entries (find (table_of outer.now)) at (heading_tree heading.now) (decl.declarations (map view.declaration list.now))) }
    ensures next { IfOk result (λ next. next ≡ behind_owns at (items_under (find (table_of outer.now)) (heading_tree heading.now) (decl.declarations (map view.declaration list.now)))) }
{
    let items = gathered(alloc, outer, heading, list)?;
    parameter_places(alloc, MARKER_GAP, heading, all)?;
    frame_places(at.own, at.own_arrays, &items, all)?;
    subroutines(alloc, list, all)?;
    behind_owns(at, &items)
}
