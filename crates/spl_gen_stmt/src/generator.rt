//! Statements by themselves, and lists of statements.
ghost use Rattle.std.specs.Prelude.{◌≡◌, ◌≤◌, ◌+◌, ◌*◌, length, map, IfOk, OnOk};
ghost use Rattle.spl_tree.specs.Views as view;
ghost use Rattle.spl_tree.specs.StatementTrees.{statements};
ghost use Rattle.spl_sorts.specs.spl_meaning.Bound.{statement_weight, statements_weight};
ghost use Rattle.spl_branch.specs.Pieces.{count_of};
ghost use Rattle.spl_statement_code.specs.Landings.{IsMade};
ghost use Rattle.spl_statement_code.specs.Statements as shapes;
ghost use Rattle.spl_statement_code.specs.Labels.{AppendsSetting, CanBeSet, marks_inside, marks_within};
ghost use Rattle.spl_statement_code.specs.FewWords.{nested_loops, nested_among};
ghost use Rattle.spl_gen_stmt.specs.Contexts.{context_by};

use crate::contexts::Context;
use crate::statements::{listed, statement};
use spl_branch::Code;
use spl_gen_expr::Scope;
use spl_landing_maps::Landing;
use spl_operations::spl_spots::NameMap;
use spl_tree::Stmt;
use std::alloc::AllocError;

/// Appends a statement, while so many words wait above the frame, of a subroutine above its return word.
///
/// `landings` has the labels of the body, and `leave` is the mark of the body's way out. All these marks were made, and
/// those of the labels inside are set here.
#[tactic(auto, using(crate::proofs::WordCounts::words_added))]
pub fn gen_statement(
    of: &Stmt,
    scope: &Scope<'_>,
    pending: u16,
    landings: &NameMap<Landing>,
    leave: usize,
    code: Code,
) -> Result<Code, AllocError>
    requires made { IsMade (context_by scope.now landings.now leave) (length code.marks.items) }
    requires free { CanBeSet code.marks.items (marks_inside (context_by scope.now landings.now leave) (view.statement of.now)) }
    ensures code { IfOk result (λ new. AppendsSetting (marks_inside (context_by scope.now landings.now leave) (view.statement of.now)) (shapes.statement (context_by scope.now landings.now leave) (view.statement of.now) pending) code new) }
    ensures words { IfOk result (λ new. pending + 3 * nested_loops (view.statement of.now) ≤ 255 → count_of new.pieces.items + 12 ≤ count_of code.pieces.items + statement_weight (view.statement of.now)) }
{
    let mut code = code;
    let context = Context {
        scope,
        landings,
        leave,
    };
    statement(&context, of, u64::from(pending), &mut code)?;
    Ok(code)
}

/// Appends the statements of a list, one behind the other, while so many words wait above the frame, of a subroutine above
/// its return word.
///
/// `landings` has the labels of the body, and `leave` is the mark of the body's way out. All these marks were made, and
/// those of the labels inside are set here.
pub fn gen_statements(
    list: &[Stmt],
    scope: &Scope<'_>,
    pending: u16,
    landings: &NameMap<Landing>,
    leave: usize,
    code: &mut Code,
) -> Result<(), AllocError>
    requires made { IsMade (context_by scope.now landings.now leave) (length code.old.marks.items) }
    requires free { CanBeSet code.old.marks.items (marks_within (context_by scope.now landings.now leave) (statements (map view.statement list.now))) }
    ensures code { OnOk result (AppendsSetting (marks_within (context_by scope.now landings.now leave) (statements (map view.statement list.now))) (shapes.listed (context_by scope.now landings.now leave) (statements (map view.statement list.now)) pending) code.old code.new) }
    ensures words { OnOk result (pending + 3 * nested_among (statements (map view.statement list.now)) ≤ 255 → count_of code.new.pieces.items ≤ count_of code.old.pieces.items + statements_weight (statements (map view.statement list.now))) }
{
    let context = Context {
        scope,
        landings,
        leave,
    };
    listed(&context, list, u64::from(pending), code)
}
