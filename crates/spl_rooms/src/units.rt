//! The rooms of units.
ghost use Rattle.std.specs.Prelude.{◌≡◌, ◌++◌, OnOk, IfOk, map};
ghost use Rattle.spl_tree.specs.DeclarationTrees as decl;
ghost use Rattle.spl_tree.specs.Spells as view;
ghost use Rattle.spl_sound.specs.spl_meaning.Names.{find, nothing_declared};
ghost use Rattle.spl_sorts.specs.Tables.{table_of};
ghost use Rattle.spl_sound.specs.spl_meaning.Limits.{joined};
ghost use Rattle.spl_sound.specs.Spelled.{source_of};
ghost use Rattle.spl_places.specs.spl_found.OwnNames.{behind_declarations};
ghost use Rattle.spl_places.specs.Programs.{NewInAll};
ghost use Rattle.spl_rooms.specs.Walked as walked;
ghost use Rattle.spl_rooms.specs.Rooms as defined;

use crate::bodies::{body_depth, procedure, subroutines};
use crate::room_type::Room;
use spl_places::declare_all;
use spl_sorts::Table;
use spl_tree::{Decl, SplUnit};
use std::alloc::{AllocError, Global};

/// No name is declared.
fn nothing(alloc: Global) -> Table
    ensures { find (table_of result) ≡ nothing_declared }
{
    Table::new(alloc)
}

/// All names of a unit's list.
#[tactic(auto, using(crate::proofs::RoomWalks::name_steps))]
fn unit_names(alloc: Global, list: &[Decl]) -> Result<Table, AllocError>
    ensures { IfOk result (λ here. find (table_of here) ≡ behind_declarations nothing_declared nothing_declared (decl.declarations (map view.declaration list.now))) }
{
    let outer = nothing(alloc);
    let mut here = nothing(alloc);
    for d in list {
        declare_all(alloc, &outer, &mut here, d)?;
    }
    Ok(here)
}

/// The rooms of a declaration, where it is a procedure, with the names of its unit behind it.
fn global(alloc: Global, here: &Table, item: &Decl, all: &mut Vec<Room>) -> Result<(), AllocError>
    ensures { OnOk result (all.new.items ≡ all.old.items ++ walked.global_rooms (find (table_of here.now)) (view.declaration item.now)) }
{
    match item {
        Decl::Procedure(heading, body) => {
            procedure(alloc, here, heading, &body.items, &body.statements, all)
        }
        Decl::Data { .. }
        | Decl::Equate(_)
        | Decl::Intrinsic(_)
        | Decl::Label(_)
        | Decl::Forward(_)
        | Decl::External(_)
        | Decl::Subroutine(..) => Ok(()),
    }
}

/// The rooms of the procedures of a unit's list.
#[tactic(auto, using(crate::proofs::RoomWalks::global_steps))]
fn globals(alloc: Global, list: &[Decl], all: &mut Vec<Room>) -> Result<(), AllocError>
    ensures { OnOk result (all.new.items ≡ all.old.items ++ walked.globals_rooms nothing_declared (decl.declarations (map view.declaration list.now))) }
{
    let outer = nothing(alloc);
    let mut here = nothing(alloc);
    for d in list {
        declare_all(alloc, &outer, &mut here, d)?;
        global(alloc, &here, d, all)?;
    }
    Ok(())
}

/// The room of the main body of a unit that is no subprogram.
fn main_room(
    own: &Table,
    outer: &Table,
    unit: &SplUnit,
    all: &mut Vec<Room>,
) -> Result<(), AllocError>
    requires { find (table_of outer.now) ≡ nothing_declared }
    ensures { OnOk result (all.new.items ≡ all.old.items ++ walked.main_rooms (find (table_of own.now)) (source_of unit.now)) }
{
    if unit.subprogram {
        return Ok(());
    }
    let depth = body_depth(own, outer, &unit.statements)?;
    all.push(Room {
        at: unit.at,
        locals: 0,
        depth,
        result: None,
    })?;
    Ok(())
}

/// The rooms of a unit.
fn unit_rooms(alloc: Global, unit: &SplUnit, all: &mut Vec<Room>) -> Result<(), AllocError>
    ensures { OnOk result (all.new.items ≡ all.old.items ++ walked.unit_rooms (source_of unit.now)) }
{
    let outer = nothing(alloc);
    let own = unit_names(alloc, &unit.items)?;
    main_room(&own, &outer, unit, all)?;
    globals(alloc, &unit.items, all)?;
    subroutines(alloc, &own, &outer, &unit.items, all)
}

/// The rooms of units in order.
#[tactic(auto, using(crate::proofs::RoomWalks::unit_steps))]
fn all_rooms(alloc: Global, units: &[SplUnit]) -> Result<Vec<Room>, AllocError>
    ensures { IfOk result (λ all. all.items ≡ joined walked.unit_rooms (map source_of units.now)) }
{
    let mut all = Vec::new(alloc);
    for unit in units {
        unit_rooms(alloc, unit, &mut all)?;
    }
    Ok(all)
}

/// The rooms of units in order, and in each by place: that of its main body, where it is no subprogram, those of its
/// procedures, each before those of its subroutines, and those of the subroutines of its main body.
///
/// An error is want of memory, or a sum beyond `u64`.
pub fn rooms(alloc: Global, units: &[SplUnit]) -> Result<Vec<Room>, AllocError>
    requires { NewInAll (map source_of units.now) }
    ensures { IfOk result (λ all. all.items ≡ defined.rooms_of (map source_of units.now)) }
{
    let all = all_rooms(alloc, units)?;
    Ok(all)
}
