//! Procedures with their subroutines, and main bodies.
ghost use Rattle.std.specs.Prelude.{◌≡◌, ◌+◌, [], None, true, map, IfOk, OnOk};
ghost use Rattle.spl_tree.specs.DeclarationTrees as decl;
ghost use Rattle.spl_tree.specs.Spells.{heading_tree, declaration};
ghost use Rattle.spl_tree.specs.StatementTrees.{statements};
ghost use Rattle.spl_tree.specs.Views as view;
ghost use Rattle.spl_sorts.specs.spl_meaning.Names.{find};
ghost use Rattle.spl_sorts.specs.spl_meaning.StatementRules.{label_faults};
ghost use Rattle.spl_sorts.specs.Tables.{table_of};
ghost use Rattle.spl_statement_scopes.specs.spl_places.ListedData.{datum_of};
ghost use Rattle.spl_statement_scopes.specs.spl_places.Gathered.{items_under};
ghost use Rattle.spl_branch.specs.Pieces.{is_settable};
ghost use Rattle.spl_branch.specs.declared.pieces.Piece.TheVariants as p;
ghost use Rattle.spl_statement_scopes.specs.spl_body_scopes.Levels.{level_of};
ghost use Rattle.spl_statement_scopes.specs.spl_body_scopes.Results.{routine_result};
ghost use Rattle.spl_statement_scopes.specs.spl_body_scopes.Found.{calls_in};
ghost use Rattle.spl_routine_code.specs.Generates.{AreOpen};
ghost use Rattle.spl_routine_code.specs.Routines.{OnceAmong, inners_among, ProcedureStands, RoutineStands, MainBodyStands};
ghost use Rattle.spl_gen_routines.specs.Views.{around_of, routine_around};

use crate::bodies::{main_code, procedure_code};
use crate::inners::{Around, subroutines};
use crate::rooms::room_at;
use spl_body_scopes::{Level, Results, routine_result};
use spl_branch::Code;
use spl_code_scopes::Entries;
use spl_gen_body::Procedure;
use spl_lists::{formals, parameters};
use spl_places::{Area, Datum, declarations, frame_starts, list_places};
use spl_rooms::Room;
use spl_sorts::Table;
use spl_spots::plus;
use spl_statement_scopes::{no_names, statement_scope, with_results};
use spl_tree::{Body, Decl, Heading, Stmt};
use std::alloc::{AllocError, Global};

/// A procedure of a unit, with what is known before its code.
#[derive(Clone, Copy, Debug)]
pub struct Declared<'t> {
    pub heading: &'t Heading,
    pub body: &'t Body,
    /// The level of its list.
    pub own: &'t Level,
    /// The level of its unit, with the names up to its heading.
    pub outer: &'t Level,
    /// The entries that it calls.
    pub entries: Entries<'t>,
    /// The address of its first OWN item.
    pub first_own: u64,
    /// The address of the data of its first OWN array.
    pub first_array: u64,
}

/// The items of a procedure's list, in order, where its unit's names up to its heading are `outer`.
pub fn listed_items(
    alloc: Global,
    outer: &Table,
    heading: &Heading,
    list: &[Decl],
) -> Result<Vec<Datum>, AllocError>
    ensures { IfOk result (λ items. map datum_of items.items ≡ items_under (find (table_of outer.now)) (heading_tree heading.now) (decl.declarations (map declaration list.now))) }
{
    let formals = formals(alloc, heading)?;
    let mut names = parameters(alloc, &formals)?;
    let mut items = Vec::new(alloc);
    declarations(alloc, outer, &mut names, list, &mut items)?;
    Ok(items)
}

/// Appends a procedure without its subroutines, which needs this room. `entry` is the mark of its entry, which was made and
/// is not set; no label stands twice. Want of memory alone is an error.
fn procedure(
    alloc: Global,
    around: &Around<'_>,
    of: &Declared<'_>,
    room: Room,
    entry: usize,
    code: &mut Code,
) -> Result<(), AllocError>
    requires free { is_settable code.old.marks.items (p.Mark entry) ≡ true }
    requires once { label_faults (statements (map view.statement of.now.body.now.statements.items)) ≡ [] }
    ensures { OnOk result (ProcedureStands (around_of around.now) (find (table_of of.now.outer.now.names)) of.now.first_own of.now.first_array (heading_tree of.now.heading.now) (decl.declarations (map declaration of.now.body.now.items.items)) room (map view.statement of.now.body.now.statements.items) entry code.old code.new) }
{
    let items = listed_items(alloc, &of.outer.names, of.heading, &of.body.items)?;
    let starts = frame_starts(of.first_own, of.first_array, &items)?;
    let places = list_places(alloc, Area::Frame, starts, &items)?;
    let results = Results {
        inner: &None,
        own: around.result,
    };
    let first = with_results(no_names(alloc), around.own, around.outer, results)?;
    let scope = statement_scope(&first, around.own, around.outer, around.entries);
    let procedure = Procedure {
        outer: &of.outer.names,
        heading: of.heading,
        declarations: &of.body.items,
        items: &items,
        places: &places,
        room,
    };
    procedure_code(alloc, &procedure, &of.body.statements, &scope, entry, code)
}

/// Appends a procedure behind its subroutines. Its room has that number, those of its subroutines stand behind it; its entry
/// has a number, and those behind it are its subroutines'. Their marks were made and are not set; no label stands twice in any
/// of these bodies. Answers how many entries these are. Want of memory alone is an error.
pub fn routine(
    alloc: Global,
    of: &Declared<'_>,
    rooms: &[Room],
    room: u64,
    entry: u64,
    code: &mut Code,
) -> Result<u64, AllocError>
    requires free { AreOpen entry (1 + inners_among (decl.declarations (map declaration of.now.body.now.items.items))) code.old.marks.items }
    requires once { label_faults (statements (map view.statement of.now.body.now.statements.items)) ≡ [] }
    requires inner_once { OnceAmong (decl.declarations (map declaration of.now.body.now.items.items)) }
    ensures code { OnOk result (RoutineStands (routine_around of.now) rooms.now room (find (table_of of.now.outer.now.names)) of.now.first_own of.now.first_array (heading_tree of.now.heading.now) (decl.declarations (map declaration of.now.body.now.items.items)) (map view.statement of.now.body.now.statements.items) entry code.old code.new) }
    ensures count { IfOk result (λ n. n ≡ 1 + inners_among (decl.declarations (map declaration of.now.body.now.items.items))) }
{
    let result = routine_result(alloc, &of.own.names, of.heading)?;
    let around = Around {
        own: of.own,
        outer: of.outer,
        result: &result,
        entries: of.entries,
    };
    let inners = subroutines(
        alloc,
        &around,
        &of.body.items,
        rooms,
        plus(room, 1)?,
        plus(entry, 1)?,
        code,
    )?;
    procedure(
        alloc,
        &around,
        of,
        room_at(rooms, room),
        entry as usize,
        code,
    )?;
    let count = plus(1, inners)?;
    Ok(count)
}

/// Appends a main body, which sees its unit's level and needs this room. `entry` is the mark of its first instruction, which
/// was made and is not set; no label stands twice. Want of memory alone is an error.
pub fn main_body(
    alloc: Global,
    outer: &Level,
    entries: Entries<'_>,
    list: &[Stmt],
    room: Room,
    entry: usize,
    code: &mut Code,
) -> Result<(), AllocError>
    requires free { is_settable code.old.marks.items (p.Mark entry) ≡ true }
    requires once { label_faults (statements (map view.statement list.now)) ≡ [] }
    ensures { OnOk result (MainBodyStands (level_of outer.now) (calls_in entries.entry) (map view.statement list.now) room.depth entry code.old code.new) }
{
    let results = Results {
        inner: &None,
        own: &None,
    };
    let first = with_results(no_names(alloc), outer, outer, results)?;
    let scope = statement_scope(&first, outer, outer, entries);
    main_code(alloc, list, &scope, room, entry, code)
}
