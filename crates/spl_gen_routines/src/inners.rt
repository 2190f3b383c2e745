//! Subroutines, through the levels of the body around them.
ghost use Rattle.std.specs.Prelude.{◌≡◌, [], ◌∷◌, true, map, IfOk, OnOk};
ghost use Rattle.spl_tree.specs.DeclarationTrees as decl;
ghost use Rattle.spl_tree.specs.Spells.{heading_tree, declaration};
ghost use Rattle.spl_tree.specs.StatementTrees.{statements};
ghost use Rattle.spl_tree.specs.Views as view;
ghost use Rattle.spl_sorts.specs.spl_meaning.StatementRules.{label_faults};
ghost use Rattle.spl_branch.specs.Pieces.{is_settable};
ghost use Rattle.spl_branch.specs.declared.pieces.Piece.TheVariants as p;
ghost use Rattle.spl_routine_code.specs.Generates.{AreOpen};
ghost use Rattle.spl_routine_code.specs.Routines as r;
ghost use Rattle.spl_routine_code.specs.Routines.{OnceIn, OnceAmong, inners_among, InnerStands, InnerStep, InnersStand};
ghost use Rattle.spl_gen_routines.specs.Views.{around_of};

use crate::bodies::subroutine_code;
use crate::rooms::room_at;
use spl_body_scopes::{BodyResult, Level, Results, inner_level, inner_result};
use spl_branch::Code;
use spl_code_scopes::Entries;
use spl_rooms::Room;
use spl_spots::plus;
use spl_statement_scopes::{statement_scope, with_results};
use spl_tree::{Decl, Heading, Stmt};
use std::alloc::{AllocError, Global};
use std::array::from_ref;

/// What stands around the subroutines of a body.
#[derive(Clone, Copy, Debug)]
pub struct Around<'t> {
    /// The names of the body's own list, with their places.
    pub own: &'t Level,
    /// Those of its unit.
    pub outer: &'t Level,
    /// The body's own result.
    pub result: &'t Option<BodyResult>,
    /// The entries that it calls.
    pub entries: Entries<'t>,
}

/// How many subroutines a declaration is.
pub fn inner_count(item: &Decl) -> u64
    ensures { result ≡ r.inner_count (declaration item.now) }
{
    match item {
        Decl::Subroutine(..) => 1,
        _ => 0,
    }
}

/// Appends a subroutine. `entry` is the mark of its entry, which was made and is not set; no label stands twice in its
/// statement. Want of memory alone is an error.
pub fn subroutine(
    alloc: Global,
    around: &Around<'_>,
    heading: &Heading,
    statement: &Stmt,
    room: Room,
    entry: usize,
    code: &mut Code,
) -> Result<(), AllocError>
    requires free { is_settable code.old.marks.items (p.Mark entry) ≡ true }
    requires once { label_faults (statements (view.statement statement.now ∷ [])) ≡ [] }
    ensures { OnOk result (InnerStands (around_of around.now) (heading_tree heading.now) (view.statement statement.now) room.depth entry code.old code.new) }
{
    let level = inner_level(alloc, heading)?;
    let result = inner_result(alloc, heading)?;
    let results = Results {
        inner: &result,
        own: around.result,
    };
    let first = with_results(level, around.own, around.outer, results)?;
    let scope = statement_scope(&first, around.own, around.outer, around.entries);
    let statements = from_ref(statement);
    subroutine_code(alloc, heading, statements, &scope, room, entry, code)
}

/// Appends a declaration of a body, where it is a subroutine, whose room has a number.
fn inner(
    alloc: Global,
    around: &Around<'_>,
    item: &Decl,
    rooms: &[Room],
    room: u64,
    entry: u64,
    code: &mut Code,
) -> Result<(), AllocError>
    requires free { AreOpen entry (r.inner_count (declaration item.now)) code.old.marks.items }
    requires once { OnceIn (declaration item.now) }
    ensures { OnOk result (InnerStep (around_of around.now) rooms.now (declaration item.now) room entry code.old code.new) }
{
    match item {
        Decl::Subroutine(heading, statement) => {
            let room = room_at(rooms, room);
            subroutine(
                alloc,
                around,
                heading,
                statement,
                room,
                entry as usize,
                code,
            )
        }
        Decl::Data { .. }
        | Decl::Equate(_)
        | Decl::Intrinsic(_)
        | Decl::Label(_)
        | Decl::Forward(_)
        | Decl::External(_)
        | Decl::Procedure(..) => Ok(()),
    }
}

/// Appends the subroutines of a list, the first of which has the room and the entry of these numbers. The marks of their
/// entries were made and are not set, and no label stands twice in any. Answers how many they are. Want of memory alone is
/// an error.
pub fn subroutines(
    alloc: Global,
    around: &Around<'_>,
    list: &[Decl],
    rooms: &[Room],
    room: u64,
    entry: u64,
    code: &mut Code,
) -> Result<u64, AllocError>
    requires free { AreOpen entry (inners_among (decl.declarations (map declaration list.now))) code.old.marks.items }
    requires once { OnceAmong (decl.declarations (map declaration list.now)) }
    ensures code { OnOk result (InnersStand (around_of around.now) rooms.now (decl.declarations (map declaration list.now)) room entry code.old code.new) }
    ensures count { IfOk result (λ n. n ≡ inners_among (decl.declarations (map declaration list.now))) }
{
    let mut count = 0;
    for item in list {
        inner(
            alloc,
            around,
            item,
            rooms,
            plus(room, count)?,
            plus(entry, count)?,
            code,
        )?;
        count = plus(count, inner_count(item))?;
    }
    Ok(count)
}
