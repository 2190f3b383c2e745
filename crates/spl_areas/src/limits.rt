//! The first limit that items pass, in all units.
ghost use Rattle.std.specs.Prelude.{◌≡◌, OnOk, map};
ghost use Rattle.spl_tree.specs.DeclarationTrees as decl;
ghost use Rattle.spl_tree.specs.Spells as view;
ghost use Rattle.spl_tree.specs.Spells.{heading_tree};
ghost use Rattle.spl_sound.specs.spl_meaning.Names.{find, nothing_declared};
ghost use Rattle.spl_sound.specs.spl_meaning.Limits as limits;
ghost use Rattle.spl_sound.specs.spl_meaning.Limits.{first_among, joined};
ghost use Rattle.spl_sound.specs.spl_meaning.Bodies.{all_routines};
ghost use Rattle.spl_sorts.specs.Tables.{table_of};
ghost use Rattle.spl_sound.specs.Spelled.{source_of};
ghost use Rattle.spl_places.specs.Programs.{NewInAll};
ghost use Rattle.spl_places.specs.Passed.{local_passed};
ghost use Rattle.spl_places.specs.Gathered.{items_under, passed_in, passed_among, passed_in_units};

use crate::gather::{all_globals, all_locals, list_items, nothing};
use spl_places::spl_spots::FirstFull;
use spl_places::{declare_all, global_limits, local_limits};
use spl_sorts::Table;
use spl_tree::{Decl, Heading, SplUnit};
use std::alloc::{AllocError, Global};

/// The first limit, with those that globals and OWN items pass: 1, the primary area, and 4, data words.
pub fn program_globals(
    alloc: Global,
    units: &[SplUnit],
    first: &mut FirstFull,
) -> Result<(), AllocError>
    requires { NewInAll (map source_of units.now) }
    ensures { OnOk result (first.new ≡ first_among first.old (limits.global_limits (map source_of units.now))) }
{
    let globals = all_globals(alloc, units)?;
    let locals = all_locals(alloc, units)?;
    global_limits(&globals, &locals, first)
}

/// The first limit, with those that a procedure's items pass.
fn passed_under(
    alloc: Global,
    outer: &Table,
    heading: &Heading,
    list: &[Decl],
    first: &mut FirstFull,
) -> Result<(), AllocError>
    ensures { OnOk result (first.new ≡ first_among first.old (local_passed (items_under (find (table_of outer.now)) (heading_tree heading.now) (decl.declarations (map view.declaration list.now))))) }
{
    let mut items = Vec::new(alloc);
    list_items(alloc, outer, heading, list, &mut items)?;
    local_limits(&items, first)
}

/// The same of a declaration, where it is a procedure, with the names behind it.
fn passed_in(
    alloc: Global,
    outer: &Table,
    item: &Decl,
    first: &mut FirstFull,
) -> Result<(), AllocError>
    ensures { OnOk result (first.new ≡ passed_in (find (table_of outer.now)) (view.declaration item.now) first.old) }
{
    match item {
        Decl::Procedure(heading, body) => passed_under(alloc, outer, heading, &body.items, first),
        Decl::Data { .. }
        | Decl::Equate(_)
        | Decl::Intrinsic(_)
        | Decl::Label(_)
        | Decl::Forward(_)
        | Decl::External(_)
        | Decl::Subroutine(..) => Ok(()),
    }
}

/// The same of the procedures of a unit.
#[tactic(auto, using(crate::proofs::GatherWalks::passed_steps))]
fn unit_passed(alloc: Global, list: &[Decl], first: &mut FirstFull) -> Result<(), AllocError>
    ensures { OnOk result (first.new ≡ passed_among nothing_declared (decl.declarations (map view.declaration list.now)) first.old) }
{
    let outer = nothing(alloc);
    let mut here = nothing(alloc);
    for d in list {
        declare_all(alloc, &outer, &mut here, d)?;
        passed_in(alloc, &here, d, first)?;
    }
    Ok(())
}

/// The same of the procedures of units.
#[tactic(auto, using(crate::proofs::GatherWalks::unit_steps))]
fn units_passed(alloc: Global, units: &[SplUnit], first: &mut FirstFull) -> Result<(), AllocError>
    ensures { OnOk result (first.new ≡ passed_in_units (map source_of units.now) first.old) }
{
    for unit in units {
        unit_passed(alloc, &unit.items, first)?;
    }
    Ok(())
}

/// The first limit, with those that the items of procedures pass in their frames: 2, local items, and 4, local words.

pub fn program_locals(
    alloc: Global,
    units: &[SplUnit],
    first: &mut FirstFull,
) -> Result<(), AllocError>
    requires { NewInAll (map source_of units.now) }
    ensures { OnOk result (first.new ≡ first_among first.old (joined limits.local_limits (all_routines (map source_of units.now)))) }
{
    units_passed(alloc, units, first)
}
