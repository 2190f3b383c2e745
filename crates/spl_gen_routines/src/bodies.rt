//! A body whose statements see a scope, from the mark of its entry to its way out.
ghost use Rattle.std.specs.Prelude.{◌≡◌, [], true, map, OnOk};
ghost use Rattle.spl_tree.specs.Views as view;
ghost use Rattle.spl_tree.specs.Spells.{heading_tree};
ghost use Rattle.spl_tree.specs.StatementTrees as trees;
ghost use Rattle.spl_sorts.specs.spl_meaning.Names.{formals_of};
ghost use Rattle.spl_sorts.specs.spl_meaning.Pending.{formals_words};
ghost use Rattle.spl_sorts.specs.spl_meaning.StatementRules.{label_faults};
ghost use Rattle.spl_branch.specs.Pieces.{is_settable};
ghost use Rattle.spl_branch.specs.declared.pieces.Piece.TheVariants as p;
ghost use Rattle.spl_statement_scopes.specs.spl_body_scopes.spl_code_scopes.Scopes.{scope_of};
ghost use Rattle.spl_gen_body.specs.Procedures.{frame_for};
ghost use Rattle.spl_routine_code.specs.Bodies.{statements_part};
ghost use Rattle.spl_routine_code.specs.Generates.{Generates};
ghost use Rattle.spl_routine_code.specs.Scoped.{procedure_with, subroutine_with, main_with};

use crate::statements::body_statements;
use spl_branch::Code;
use spl_code_scopes::Scope;
use spl_gen_body::{
    Procedure, enter_main, enter_procedure, enter_subroutine, leave_main, leave_procedure,
    leave_subroutine,
};
use spl_rooms::Room;
use spl_tree::{Heading, Stmt};
use std::alloc::{AllocError, Global};

/// Appends a procedure. `entry` is the mark of its entry, which was made and is not set; no label stands twice. Want of
/// memory alone is an error.
pub fn procedure_code(
    alloc: Global,
    of: &Procedure<'_>,
    statements: &[Stmt],
    scope: &Scope<'_>,
    entry: usize,
    code: &mut Code,
) -> Result<(), AllocError>
    requires free { is_settable code.old.marks.items (p.Mark entry) ≡ true }
    requires once { label_faults (trees.statements (map view.statement statements.now)) ≡ [] }
    ensures { OnOk result (Generates entry (procedure_with (frame_for of.now) (formals_words (formals_of (heading_tree of.now.heading.now))) entry (statements_part (scope_of scope.now) (trees.statements (map view.statement statements.now)))) code.old code.new) }
{
    let leave = code.fresh()?;
    enter_procedure(alloc, code, entry, of)?;
    body_statements(alloc, statements, scope, leave, code)?;
    leave_procedure(alloc, code, leave, of.heading)
}

/// Appends a subroutine. `entry` is the mark of its entry, which was made and is not set; no label stands twice. Want of
/// memory alone is an error.
pub fn subroutine_code(
    alloc: Global,
    heading: &Heading,
    statements: &[Stmt],
    scope: &Scope<'_>,
    room: Room,
    entry: usize,
    code: &mut Code,
) -> Result<(), AllocError>
    requires free { is_settable code.old.marks.items (p.Mark entry) ≡ true }
    requires once { label_faults (trees.statements (map view.statement statements.now)) ≡ [] }
    ensures { OnOk result (Generates entry (subroutine_with room.depth (formals_words (formals_of (heading_tree heading.now))) entry (statements_part (scope_of scope.now) (trees.statements (map view.statement statements.now)))) code.old code.new) }
{
    let leave = code.fresh()?;
    enter_subroutine(code, entry, room)?;
    body_statements(alloc, statements, scope, leave, code)?;
    leave_subroutine(alloc, code, leave, heading)
}

/// Appends a main body, with its end. `entry` is the mark of its first instruction, which was made and is not set; no label
/// stands twice. Want of memory alone is an error.
pub fn main_code(
    alloc: Global,
    statements: &[Stmt],
    scope: &Scope<'_>,
    room: Room,
    entry: usize,
    code: &mut Code,
) -> Result<(), AllocError>
    requires free { is_settable code.old.marks.items (p.Mark entry) ≡ true }
    requires once { label_faults (trees.statements (map view.statement statements.now)) ≡ [] }
    ensures { OnOk result (Generates entry (main_with room.depth entry (statements_part (scope_of scope.now) (trees.statements (map view.statement statements.now)) entry)) code.old code.new) }
{
    enter_main(code, entry, room)?;
    body_statements(alloc, statements, scope, entry, code)?;
    leave_main(code)
}
