//! The statements of a body.
ghost use Rattle.std.specs.Prelude.{◌≡◌, ◌<◌, ◌≤◌, ◌+◌, ◌*◌, [], length, map, OnOk};
ghost use Rattle.spl_tree.specs.Views as view;
ghost use Rattle.spl_tree.specs.StatementTrees as trees;
ghost use Rattle.spl_sorts.specs.spl_meaning.Bound.{statements_weight};
ghost use Rattle.spl_sorts.specs.spl_meaning.StatementRules.{label_faults};
ghost use Rattle.spl_branch.specs.Pieces.{count_of};
ghost use Rattle.spl_routine_code.specs.spl_code.Appends.{Appends};
ghost use Rattle.spl_statement_scopes.specs.spl_body_scopes.spl_code_scopes.Scopes.{scope_of};
ghost use Rattle.spl_gen_stmt.specs.spl_statement_code.FewWords.{nested_among};
ghost use Rattle.spl_routine_code.specs.Bodies.{statements_part};

use spl_branch::Code;
use spl_code_scopes::Scope;
use spl_gen_stmt::gen_statements;
use spl_landings::landings;
use spl_tree::Stmt;
use std::alloc::{AllocError, Global};

/// Appends the statements of a body, behind new marks for their labels, while nothing waits. RETURN leads to `leave`, a mark
/// that was made; no label stands twice. Want of memory alone is an error.
pub fn body_statements(
    alloc: Global,
    statements: &[Stmt],
    scope: &Scope<'_>,
    leave: usize,
    code: &mut Code,
) -> Result<(), AllocError>
    requires made { leave < length code.old.marks.items }
    requires once { label_faults (trees.statements (map view.statement statements.now)) ≡ [] }
    ensures code { OnOk result (Appends (statements_part (scope_of scope.now) (trees.statements (map view.statement statements.now)) leave) code.old code.new) }
    ensures words { OnOk result (3 * nested_among (trees.statements (map view.statement statements.now)) ≤ 255 → count_of code.new.pieces.items ≤ count_of code.old.pieces.items + statements_weight (trees.statements (map view.statement statements.now))) }
{
    let landings = landings(alloc, statements, code)?;
    gen_statements(statements, scope, 0, &landings, leave, code)
}
