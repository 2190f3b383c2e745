//! The modules of a unit.
ghost use Rattle.std.specs.Prelude.{◌≡◌, [], true, map, OnOk, IfOk};
ghost use Rattle.spl_tree.specs.Views.{letters};
ghost use Rattle.spl_tree.specs.DeclarationTrees as decl;
ghost use Rattle.spl_tree.specs.Spells.{declaration};
ghost use Rattle.spl_tree.specs.StatementTrees.{statements};
ghost use Rattle.spl_sound.specs.spl_meaning.StatementRules.{label_faults};
ghost use Rattle.spl_sound.specs.Spelled.{source_of};
ghost use Rattle.spl_branch.specs.Pieces.{is_settable};
ghost use Rattle.spl_branch.specs.declared.pieces.Piece.TheVariants as p;
ghost use Rattle.spl_unit_laws.specs.spl_body_scopes.Levels.{level_of};
ghost use Rattle.spl_unit_walks.specs.Views.{fixed_of};
ghost use Rattle.spl_unit_walks.specs.Bodies.{known_at, BodiesStand, UnitMade};
ghost use Rattle.spl_unit_laws.specs.spl_modules.Walks.{walk_of};
ghost use Rattle.spl_unit_laws.specs.spl_modules.UnitModules.{IsUnitModules};
ghost use Rattle.spl_unit_laws.specs.spl_routine_code.Routines.{room_at};
ghost use Rattle.spl_unit_laws.specs.Steps.{AreFree};
ghost use Rattle.spl_unit_laws.specs.Begins.{UnitBegins};
ghost use Rattle.spl_unit_laws.specs.Units as u;
ghost use Rattle.spl_unit_laws.specs.Units.{MainGrows, MainStep, OnceInBodies, UnitAppended};

use crate::walk::{inners, walk};
use spl_body_scopes::{Level, unit_level};
use spl_branch::Module;
use spl_code_scopes::Entries;
use spl_gen_routines::{main_body, room_at};
use spl_layout::Room;
use spl_modules::unit_entries;
use spl_spots::{NameMap, plus};
use spl_tree::{Decl, Name, SplUnit};
use spl_unit_codes::{Growing, begin};
use spl_unit_laws::{Cursor, Start};
use spl_unit_walks::{Fixed, picked_parts, segment_procedures, whole_level};
use std::alloc::{AllocError, Global};

/// How many rooms a declaration has, where it is a procedure, with those of its subroutines.
fn routine_rooms(item: &Decl) -> Result<u64, AllocError>
    ensures { IfOk result (λ n. n ≡ u.routine_rooms (declaration item.now)) }
{
    match item {
        Decl::Procedure(_, body) => plus(1, inners(&body.items)?),
        Decl::Data { .. }
        | Decl::Equate(_)
        | Decl::Intrinsic(_)
        | Decl::Label(_)
        | Decl::Forward(_)
        | Decl::External(_)
        | Decl::Subroutine(..) => Ok(0),
    }
}

/// How many rooms the procedures of a list have, with those of their subroutines.
fn rooms_among(list: &[Decl]) -> Result<u64, AllocError>
    ensures { IfOk result (λ n. n ≡ u.rooms_among (decl.declarations (map declaration list.now))) }
{
    let mut count = 0;
    for item in list {
        count = plus(count, routine_rooms(item)?)?;
    }
    Ok(count)
}

/// Where the walk along a unit begins.
fn first_cursor(unit: &SplUnit, at: Start) -> Result<Cursor, AllocError>
    ensures { IfOk result (λ cursor. cursor ≡ u.first_cursor (source_of unit.now) at) }
{
    let main = if unit.subprogram { 0 } else { 1 };
    let room = plus(at.room, main)?;
    let inner_room = plus(room, rooms_among(&unit.items)?)?;
    Ok(Cursor {
        routines: 0,
        own: at.own,
        own_arrays: at.own_arrays,
        room,
        inner_room,
    })
}

/// Appends the main body to the code of its segment.
fn grow_main(
    alloc: Global,
    fixed: &Fixed<'_>,
    room: Room,
    part: &mut Growing,
) -> Result<(), AllocError>
    requires free { is_settable part.old.code.marks.items (p.Mark part.old.done) ≡ true }
    requires once { label_faults (statements (source_of fixed.now.unit.now).tree.statements) ≡ [] }
    ensures { OnOk result (MainGrows (fixed_of fixed.now) (source_of fixed.now.unit.now).tree.statements room.depth part.old part.new) }
{
    let entries = Entries {
        procedures: segment_procedures(fixed, fixed.unit.segment),
        subroutines: &fixed.entries.main,
    };
    main_body(
        alloc,
        fixed.whole,
        entries,
        &fixed.unit.statements,
        room,
        part.done as usize,
        &mut part.code,
    )?;
    Ok(())
}

/// Appends the main body of a unit, where it has one, which needs this room.
fn main_part(
    alloc: Global,
    fixed: &Fixed<'_>,
    room: Room,
    parts: &mut Vec<Growing>,
) -> Result<(), AllocError>
    requires free { AreFree (source_of fixed.now.unit.now).subprogram fixed.now.unit.now.segment decl.none parts.old.items }
    requires once { label_faults (statements (source_of fixed.now.unit.now).tree.statements) ≡ [] }
    ensures { OnOk result (MainStep (source_of fixed.now.unit.now).subprogram (fixed_of fixed.now) (source_of fixed.now.unit.now).tree.statements room.depth parts.old.items parts.new.items) }
{
    if fixed.unit.subprogram {
        return Ok(());
    }
    let segment = usize::from(fixed.unit.segment);
    if segment < parts.len() {
        grow_main(alloc, fixed, room, &mut parts[segment])?;
    }
    Ok(())
}

/// Appends all bodies of a unit, the data and rooms of which begin there, and answers where the walk has come to.
fn unit_bodies(
    alloc: Global,
    fixed: &Fixed<'_>,
    level: &mut Level,
    at: Start,
    parts: &mut Vec<Growing>,
) -> Result<Cursor, AllocError>
    requires free { AreFree (source_of fixed.now.unit.now).subprogram fixed.now.unit.now.segment (decl.declarations (source_of fixed.now.unit.now).tree.items) parts.old.items }
    requires once { OnceInBodies (source_of fixed.now.unit.now) }
    ensures { IfOk result (λ last. BodiesStand (fixed_of fixed.now) (source_of fixed.now.unit.now) (room_at fixed.now.rooms.now at.room).depth (known_at (level_of level.old) (u.first_cursor (source_of fixed.now.unit.now) at) parts.old.items) last parts.new.items) }
{
    let first = first_cursor(fixed.unit, at)?;
    let last = walk(alloc, fixed, level, first, parts)?;
    main_part(alloc, fixed, room_at(fixed.rooms, at.room), parts)?;
    Ok(last)
}

/// Appends the modules of a unit of which this is known, and answers where the data and rooms of the next begin.
fn unit_made(
    alloc: Global,
    fixed: &Fixed<'_>,
    at: Start,
    names: &[Name],
    modules: &mut Vec<Module>,
) -> Result<Start, AllocError>
    requires entries { IsUnitModules (source_of fixed.now.unit.now) (walk_of fixed.now.entries.now) }
    requires whole { level_of fixed.now.whole.now ≡ u.whole_level (source_of fixed.now.unit.now) at.primary }
    requires begins { UnitBegins fixed.now.rooms.now (source_of fixed.now.unit.now) at }
    requires once { OnceInBodies (source_of fixed.now.unit.now) }
    ensures { IfOk result (λ next. UnitMade (fixed_of fixed.now) (walk_of fixed.now.entries.now).entered.made (source_of fixed.now.unit.now) (map letters names.now) at next modules.old.items modules.new.items) }
{
    let (mut level, primary) = unit_level(alloc, at.primary, fixed.unit)?;
    let mut parts = begin(alloc, fixed.unit, fixed.entries)?;
    let last = unit_bodies(alloc, fixed, &mut level, at, &mut parts)?;
    picked_parts(alloc, fixed.unit, parts, names, modules)?;
    Ok(Start {
        primary,
        own: last.own,
        own_arrays: last.own_arrays,
        room: last.inner_room,
    })
}

/// Appends the modules of a unit, the data and rooms of which begin there, along the names of segments as the program uses
/// these, and answers where those of the next begin. No label stands twice in any of its bodies.
pub fn unit_modules(
    alloc: Global,
    unit: &SplUnit,
    at: Start,
    rooms: &[Room],
    names: &[Name],
    modules: &mut Vec<Module>,
) -> Result<Start, AllocError>
    requires once { OnceInBodies (source_of unit.now) }
    requires begins { UnitBegins rooms.now (source_of unit.now) at }
    ensures { IfOk result (λ next. UnitAppended rooms.now (map letters names.now) (source_of unit.now) at next modules.old.items modules.new.items) }
{
    let entries = unit_entries(alloc, unit)?;
    let whole = whole_level(alloc, at.primary, unit)?;
    let nothing = NameMap::new(alloc);
    let fixed = Fixed {
        unit,
        entries: &entries,
        whole: &whole,
        nothing: &nothing,
        rooms,
    };
    let next = unit_made(alloc, &fixed, at, names, modules)?;
    Ok(next)
}
