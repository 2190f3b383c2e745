//! A walk along the declarations of a unit, on which the code of its bodies grows.
ghost use Rattle.std.specs.Prelude.{◌≡◌, ◌+◌, [], ◌∷◌, map, OnOk, IfOk, Some};
ghost use Rattle.std.specs.List.{slice_get};
ghost use Rattle.spl_tree.specs.DeclarationTrees as decl;
ghost use Rattle.spl_tree.specs.Spells.{heading_tree, declaration};
ghost use Rattle.spl_tree.specs.StatementTrees.{statements};
ghost use Rattle.spl_tree.specs.Views as view;
ghost use Rattle.spl_sound.specs.spl_meaning.Names.{find};
ghost use Rattle.spl_sound.specs.spl_meaning.StatementRules.{label_faults};
ghost use Rattle.spl_unit_laws.specs.spl_sorts.Tables.{table_of};
ghost use Rattle.spl_sound.specs.Spelled.{source_of};
ghost use Rattle.spl_unit_laws.specs.spl_body_scopes.Levels.{level_of};
ghost use Rattle.spl_unit_laws.specs.spl_routine_code.Generates.{AreOpen};
ghost use Rattle.spl_unit_laws.specs.spl_routine_code.Routines as r;
ghost use Rattle.spl_unit_laws.specs.spl_routine_code.Routines.{OnceAmong, InnerStands, RoutineStands};
ghost use Rattle.spl_gen_routines.specs.Views.{around_of, routine_around};
ghost use Rattle.spl_unit_walks.specs.Views.{fixed_of};
ghost use Rattle.spl_unit_laws.specs.Steps.{Grows, RoutineGrows, InnerGrows, cursor_behind, cursor_inner, IsFree, AreFree, OnceInUnit, OnceInAll, PartsStep, Steps};

use spl_body_scopes::{Level, declare, routine_level};
use spl_code_scopes::Entries;
use spl_gen_routines::{Around, Declared, inner_count, listed_items, room_at, routine, subroutine};
use spl_layout::Room;
use spl_places::{Part, total};
use spl_spots::plus;
use spl_tree::{Body, Decl, Heading, Stmt};
use spl_unit_codes::Growing;
use spl_unit_laws::Cursor;
use spl_unit_walks::{Fixed, own_subroutines, segment_procedures};
use std::alloc::{AllocError, Global};

/// How many subroutines a list has.
pub fn inners(list: &[Decl]) -> Result<u64, AllocError>
    ensures { IfOk result (λ n. n ≡ r.inners_among (decl.declarations (map declaration list.now))) }
{
    let mut count = 0;
    for item in list {
        count = plus(count, inner_count(item))?;
    }
    Ok(count)
}

/// Appends a procedure and its subroutines to the code of its segment.
fn grow_routine(
    alloc: Global,
    of: &Declared<'_>,
    rooms: &[Room],
    room: u64,
    part: &mut Growing,
) -> Result<(), AllocError>
    requires free { AreOpen part.old.done (1 + r.inners_among (decl.declarations (map declaration of.now.body.now.items.items))) part.old.code.marks.items }
    requires once { label_faults (statements (map view.statement of.now.body.now.statements.items)) ≡ [] }
    requires inner_once { OnceAmong (decl.declarations (map declaration of.now.body.now.items.items)) }
    ensures code { OnOk result (RoutineStands (routine_around of.now) rooms.now room (find (table_of of.now.outer.now.names)) of.now.first_own of.now.first_array (heading_tree of.now.heading.now) (decl.declarations (map declaration of.now.body.now.items.items)) (map view.statement of.now.body.now.statements.items) part.old.done part.old.code part.new.code) }
    ensures done { OnOk result (part.new.done ≡ part.old.done + (1 + r.inners_among (decl.declarations (map declaration of.now.body.now.items.items)))) }
{
    let count = routine(alloc, of, rooms, room, part.done, &mut part.code)?;
    part.done = plus(part.done, count)?;
    Ok(())
}

/// Takes in a procedure, where its unit's level behind its heading is `outer`, and answers where the walk has come to.
fn procedure(
    alloc: Global,
    fixed: &Fixed<'_>,
    outer: &Level,
    at: Cursor,
    heading: &Heading,
    body: &Body,
    parts: &mut Vec<Growing>,
) -> Result<Cursor, AllocError>
    requires free { (x : Growing) → slice_get parts.old.items heading.now.segment ≡ Some x → AreOpen x.done (1 + r.inners_among (decl.declarations (map declaration body.now.items.items))) x.code.marks.items }
    requires once { label_faults (statements (map view.statement body.now.statements.items)) ≡ [] }
    requires inner_once { OnceAmong (decl.declarations (map declaration body.now.items.items)) }
    ensures cursor { IfOk result (λ next. next ≡ cursor_behind (level_of outer.now).names at (heading_tree heading.now) (decl.declarations (map declaration body.now.items.items))) }
    ensures parts { OnOk result (Grows heading.now.segment (RoutineGrows (fixed_of fixed.now) (level_of outer.now) at (heading_tree heading.now) (decl.declarations (map declaration body.now.items.items)) (map view.statement body.now.statements.items)) parts.old.items parts.new.items) }
{
    let (own, next_own) = routine_level(alloc, &outer.names, at.own, heading, &body.items)?;
    let of = Declared {
        heading,
        body,
        own: &own,
        outer,
        entries: Entries {
            procedures: segment_procedures(fixed, heading.segment),
            subroutines: own_subroutines(fixed, at.routines),
        },
        first_own: at.own,
        first_array: at.own_arrays,
    };
    let segment = usize::from(heading.segment);
    if segment < parts.len() {
        grow_routine(alloc, &of, fixed.rooms, at.room, &mut parts[segment])?;
    }
    let items = listed_items(alloc, &outer.names, heading, &body.items)?;
    let arrays = total(Part::Arrays, true, &items)?;
    Ok(Cursor {
        routines: plus(at.routines, 1)?,
        own: next_own,
        own_arrays: plus(at.own_arrays, arrays)?,
        room: plus(at.room, plus(1, inners(&body.items)?)?)?,
        inner_room: at.inner_room,
    })
}

/// Appends a subroutine of the main body to the code of its segment.
fn grow_inner(
    alloc: Global,
    around: &Around<'_>,
    heading: &Heading,
    statement: &Stmt,
    room: Room,
    part: &mut Growing,
) -> Result<(), AllocError>
    requires free { AreOpen part.old.done 1 part.old.code.marks.items }
    requires once { label_faults (statements (view.statement statement.now ∷ [])) ≡ [] }
    ensures code { OnOk result (InnerStands (around_of around.now) (heading_tree heading.now) (view.statement statement.now) room.depth part.old.done part.old.code part.new.code) }
    ensures done { OnOk result (part.new.done ≡ part.old.done + 1) }
{
    subroutine(
        alloc,
        around,
        heading,
        statement,
        room,
        part.done as usize,
        &mut part.code,
    )?;
    part.done = plus(part.done, 1)?;
    Ok(())
}

/// Takes in a subroutine of the main body.
fn main_inner(
    alloc: Global,
    fixed: &Fixed<'_>,
    at: Cursor,
    heading: &Heading,
    statement: &Stmt,
    parts: &mut Vec<Growing>,
) -> Result<Cursor, AllocError>
    requires free { (x : Growing) → slice_get parts.old.items (fixed_of fixed.now).segment ≡ Some x → AreOpen x.done 1 x.code.marks.items }
    requires once { label_faults (statements (view.statement statement.now ∷ [])) ≡ [] }
    ensures cursor { IfOk result (λ next. next ≡ cursor_inner at) }
    ensures parts { OnOk result (Grows (fixed_of fixed.now).segment (InnerGrows (fixed_of fixed.now) at (heading_tree heading.now) (view.statement statement.now)) parts.old.items parts.new.items) }
{
    let around = Around {
        own: fixed.whole,
        outer: fixed.whole,
        result: &None,
        entries: Entries {
            procedures: segment_procedures(fixed, fixed.unit.segment),
            subroutines: &fixed.entries.main,
        },
    };
    let segment = usize::from(fixed.unit.segment);
    if segment < parts.len() {
        let room = room_at(fixed.rooms, at.inner_room);
        grow_inner(
            alloc,
            &around,
            heading,
            statement,
            room,
            &mut parts[segment],
        )?;
    }
    Ok(Cursor {
        inner_room: plus(at.inner_room, 1)?,
        ..at
    })
}

/// Takes in what a declaration adds to the code of its unit, the level of which behind it is `outer`.
fn grow(
    alloc: Global,
    fixed: &Fixed<'_>,
    outer: &Level,
    at: Cursor,
    item: &Decl,
    parts: &mut Vec<Growing>,
) -> Result<Cursor, AllocError>
    requires free { IsFree (fixed_of fixed.now).segment (declaration item.now) parts.old.items }
    requires once { OnceInUnit (declaration item.now) }
    ensures { IfOk result (λ next. PartsStep (fixed_of fixed.now) (level_of outer.now) (declaration item.now) at parts.old.items next parts.new.items) }
{
    match item {
        Decl::Procedure(heading, body) => procedure(alloc, fixed, outer, at, heading, body, parts),
        Decl::Subroutine(heading, statement) => main_inner(
            alloc, fixed, at, heading, statement, parts,
        ),
        Decl::Data { .. }
        | Decl::Equate(_)
        | Decl::Intrinsic(_)
        | Decl::Label(_)
        | Decl::Forward(_)
        | Decl::External(_) => Ok(at),
    }
}

/// Takes in all declarations of a unit, from this level and cursor on, and answers where the walk has come to.
pub fn walk(
    alloc: Global,
    fixed: &Fixed<'_>,
    level: &mut Level,
    start: Cursor,
    parts: &mut Vec<Growing>,
) -> Result<Cursor, AllocError>
    requires free { AreFree (source_of fixed.now.unit.now).subprogram fixed.now.unit.now.segment (decl.declarations (source_of fixed.now.unit.now).tree.items) parts.old.items }
    requires once { OnceInAll (decl.declarations (source_of fixed.now.unit.now).tree.items) }
    ensures steps { IfOk result (λ at. Steps (fixed_of fixed.now) (decl.declarations (source_of fixed.now.unit.now).tree.items) (record { level = level_of level.old; at = start; parts = parts.old.items }) (record { level = level_of level.new; at = at; parts = parts.new.items })) }
    ensures free { OnOk result (AreFree (source_of fixed.now.unit.now).subprogram fixed.now.unit.now.segment decl.none parts.new.items) }
{
    let mut at = start;
    for item in &fixed.unit.items {
        declare(alloc, level, item)?;
        at = grow(alloc, fixed, level, at, item, parts)?;
    }
    Ok(at)
}
