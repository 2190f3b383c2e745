//! The items of all units and of all procedures, in order.
ghost use Rattle.std.specs.Prelude.{◌≡◌, ◌++◌, OnOk, IfOk, [], map};
ghost use Rattle.spl_tree.specs.DeclarationTrees as decl;
ghost use Rattle.spl_tree.specs.Spells as view;
ghost use Rattle.spl_tree.specs.Spells.{heading_tree};
ghost use Rattle.spl_sound.specs.spl_meaning.Names.{find, nothing_declared};
ghost use Rattle.spl_places.specs.spl_found.OwnNames.{behind_declaration};
ghost use Rattle.spl_sound.specs.spl_meaning.Limits.{joined};
ghost use Rattle.spl_sorts.specs.Tables.{table_of};
ghost use Rattle.spl_sound.specs.Spelled.{source_of};
ghost use Rattle.spl_places.specs.ListedData.{datum_of};
ghost use Rattle.spl_places.specs.Programs as programs;
ghost use Rattle.spl_places.specs.Gathered.{items_under, items_in, items_among};

use spl_places::spl_lists::{formals, parameters};
use spl_places::{Datum, declarations, declare_all};
use spl_sorts::Table;
use spl_tree::{Decl, Heading, SplUnit};
use std::alloc::{AllocError, Global};

/// No name is declared.
pub fn nothing(alloc: Global) -> Table
    ensures { find (table_of result) ≡ nothing_declared }
{
    Table::new(alloc)
}

/// The items of a procedure's list, with the names outside it.
pub fn list_items(
    alloc: Global,
    outer: &Table,
    heading: &Heading,
    list: &[Decl],
    all: &mut Vec<Datum>,
) -> Result<(), AllocError>
    ensures { OnOk result (map datum_of all.new.items ≡ map datum_of all.old.items ++ items_under (find (table_of outer.now)) (heading_tree heading.now) (decl.declarations (map view.declaration list.now))) }
{
    let formals = formals(alloc, heading)?;
    let mut here = parameters(alloc, &formals)?;
    declarations(alloc, outer, &mut here, list, all)
}

/// The items of the procedure that a declaration is, with the names behind it.
fn items_in(
    alloc: Global,
    outer: &Table,
    item: &Decl,
    all: &mut Vec<Datum>,
) -> Result<(), AllocError>
    ensures { OnOk result (map datum_of all.new.items ≡ map datum_of all.old.items ++ items_in (find (table_of outer.now)) (view.declaration item.now)) }
{
    match item {
        Decl::Procedure(heading, body) => list_items(alloc, outer, heading, &body.items, all),
        Decl::Data { .. }
        | Decl::Equate(_)
        | Decl::Intrinsic(_)
        | Decl::Label(_)
        | Decl::Forward(_)
        | Decl::External(_)
        | Decl::Subroutine(..) => Ok(()),
    }
}

/// The items of the procedures of a unit.
#[tactic(auto, using(crate::proofs::GatherWalks::item_steps))]
fn unit_locals(alloc: Global, list: &[Decl], all: &mut Vec<Datum>) -> Result<(), AllocError>
    ensures { OnOk result (map datum_of all.new.items ≡ map datum_of all.old.items ++ items_among nothing_declared (decl.declarations (map view.declaration list.now))) }
{
    let outer = nothing(alloc);
    let mut here = nothing(alloc);
    for d in list {
        declare_all(alloc, &outer, &mut here, d)?;
        items_in(alloc, &here, d, all)?;
    }
    Ok(())
}

/// The globals of a unit that is no subprogram.
fn unit_globals(alloc: Global, unit: &SplUnit, all: &mut Vec<Datum>) -> Result<(), AllocError>
    ensures { OnOk result (map datum_of all.new.items ≡ map datum_of all.old.items ++ programs.unit_items (source_of unit.now)) }
{
    if unit.subprogram {
        return Ok(());
    }
    let outer = nothing(alloc);
    let mut here = nothing(alloc);
    declarations(alloc, &outer, &mut here, &unit.items, all)
}

/// The globals of all units.
#[tactic(auto, using(crate::proofs::GatherWalks::global_steps))]
pub fn all_globals(alloc: Global, units: &[SplUnit]) -> Result<Vec<Datum>, AllocError>
    ensures { IfOk result (λ all. map datum_of all.items ≡ programs.all_globals (map source_of units.now)) }
{
    let mut all = Vec::new(alloc);
    for unit in units {
        unit_globals(alloc, unit, &mut all)?;
    }
    Ok(all)
}

/// The items of the procedures of all units.
#[tactic(auto, using(crate::proofs::GatherWalks::local_steps))]
pub fn all_locals(alloc: Global, units: &[SplUnit]) -> Result<Vec<Datum>, AllocError>
    ensures { IfOk result (λ all. map datum_of all.items ≡ programs.all_locals (map source_of units.now)) }
{
    let mut all = Vec::new(alloc);
    for unit in units {
        unit_locals(alloc, &unit.items, &mut all)?;
    }
    Ok(all)
}
