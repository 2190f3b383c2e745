//! The first limit behind the bodies of units.
ghost use Rattle.std.specs.Prelude.{◌≡◌, OnOk, map};
ghost use Rattle.spl_tree.specs.DeclarationTrees as decl;
ghost use Rattle.spl_tree.specs.Spells as view;
ghost use Rattle.spl_sound.specs.spl_meaning.Names.{find, nothing_declared};
ghost use Rattle.spl_sorts.specs.Tables.{table_of};
ghost use Rattle.spl_sound.specs.Spelled.{source_of};
ghost use Rattle.spl_areas.specs.spl_found.OwnNames.{behind_declarations};
ghost use Rattle.spl_limits.specs.FirstPassed as passed;

use crate::bodies::{procedure, subroutines};
use spl_areas::spl_places::declare_all;
use spl_areas::spl_spots::FirstFull;
use spl_sorts::Table;
use spl_tree::{Decl, SplUnit};
use std::alloc::{AllocError, Global};

/// No name is declared.
fn nothing(alloc: Global) -> Table
    ensures { find (table_of result) ≡ nothing_declared }
{
    Table::new(alloc)
}

/// Behind a declaration, where it is a procedure, with the names of its unit behind it.
fn global(alloc: Global, here: &Table, item: &Decl, first: &mut FirstFull) -> Result<(), AllocError>
    ensures { OnOk result (first.new ≡ passed.behind_global (find (table_of here.now)) (view.declaration item.now) first.old) }
{
    match item {
        Decl::Procedure(heading, body) => procedure(alloc, here, heading, &body.items, first),
        Decl::Data { .. }
        | Decl::Equate(_)
        | Decl::Intrinsic(_)
        | Decl::Label(_)
        | Decl::Forward(_)
        | Decl::External(_)
        | Decl::Subroutine(..) => Ok(()),
    }
}

/// Behind the procedures of a unit's list; and its names.
#[tactic(auto, using(crate::proofs::LimitWalks::global_steps))]
fn globals(
    alloc: Global,
    list: &[Decl],
    here: &mut Table,
    first: &mut FirstFull,
) -> Result<(), AllocError>
    ensures first { OnOk result (first.new ≡ passed.behind_globals (find (table_of here.old)) (decl.declarations (map view.declaration list.now)) first.old) }
    ensures names { OnOk result (find (table_of here.new) ≡ behind_declarations nothing_declared (find (table_of here.old)) (decl.declarations (map view.declaration list.now))) }
{
    let outer = nothing(alloc);
    for d in list {
        declare_all(alloc, &outer, here, d)?;
        global(alloc, here, d, first)?;
    }
    Ok(())
}

/// Behind the bodies of a unit: its procedures, and then the subroutines of its main body.
fn unit_passed(alloc: Global, list: &[Decl], first: &mut FirstFull) -> Result<(), AllocError>
    ensures { OnOk result (first.new ≡ passed.behind_unit (decl.declarations (map view.declaration list.now)) first.old) }
{
    let outer = nothing(alloc);
    let mut here = nothing(alloc);
    globals(alloc, list, &mut here, first)?;
    subroutines(alloc, &here, &outer, list, first)
}

/// Behind the bodies of units, in order.
#[tactic(auto, using(crate::proofs::LimitWalks::unit_steps))]
pub fn bodies_passed(
    alloc: Global,
    units: &[SplUnit],
    first: &mut FirstFull,
) -> Result<(), AllocError>
    ensures { OnOk result (first.new ≡ passed.behind_units (map source_of units.now) first.old) }
{
    for unit in units {
        unit_passed(alloc, &unit.items, first)?;
    }
    Ok(())
}
