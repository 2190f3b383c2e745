//! Expressions and conditions by themselves.
ghost use Rattle.std.specs.Prelude.{◌≡◌, ◌<◌, ◌≤◌, ◌+◌, length, IfOk};
ghost use Rattle.spl_tree.specs.Views as view;
ghost use Rattle.spl_sorts.specs.spl_meaning.Bound.{weight};
ghost use Rattle.spl_branch.specs.Pieces.{count_of};
ghost use Rattle.spl_operations.specs.spl_code.Code as written;
ghost use Rattle.spl_operations.specs.spl_code.FewWords.{spare};
ghost use Rattle.spl_operations.specs.spl_code.Appends.{Appends};
ghost use Rattle.spl_code_scopes.specs.Scopes.{scope_of};

use crate::expressions::write;
use crate::marks::Aim;
use spl_branch::Code;
use spl_code_scopes::Scope;
use spl_tree::Expr;
use std::alloc::AllocError;

/// Appends what pushes the value of an expression, while so many words wait above the frame, of a subroutine above its
/// return word.
#[tactic(auto, using(crate::proofs::WordCounts::words_added))]
pub fn gen_expr(of: &Expr, scope: &Scope<'_>, pending: u16, code: Code) -> Result<Code, AllocError>
    ensures code { IfOk result (λ new. Appends (written.code (scope_of scope.now) (view.expression of.now) written.as_value pending) code new) }
    ensures words { IfOk result (λ new. count_of new.pieces.items + spare written.as_value ≤ count_of code.pieces.items + weight (view.expression of.now)) }
{
    let mut code = code;
    let _ = write(scope, of, Aim::Value, u64::from(pending), &mut code)?;
    Ok(code)
}

/// Appends a condition that goes on where it is true and leads to the mark `fail`, which was made, where it is not.
#[tactic(auto, using(crate::proofs::WordCounts::words_added))]
pub fn gen_condition(
    of: &Expr,
    scope: &Scope<'_>,
    pending: u16,
    fail: usize,
    code: Code,
) -> Result<Code, AllocError>
    requires { fail < length code.marks.items }
    ensures code { IfOk result (λ new. Appends (written.code (scope_of scope.now) (view.expression of.now) (written.as_test fail) pending) code new) }
    ensures words { IfOk result (λ new. count_of new.pieces.items + spare (written.as_test fail) ≤ count_of code.pieces.items + weight (view.expression of.now)) }
{
    let mut code = code;
    let _ = write(scope, of, Aim::Test(fail), u64::from(pending), &mut code)?;
    Ok(code)
}
