//! The trees of statements.
ghost use Rattle.std.specs.Prelude.{◌≡◌, [], ◌∷◌, map, IfOk, ◌++◌};
ghost use Rattle.spl_tree.specs.Trees as tree;
ghost use Rattle.spl_tree.specs.StatementTrees as stat;
ghost use Rattle.spl_tree.specs.Views as view;
ghost use Rattle.spl_effects.specs.References.{statements};
ghost use Rattle.spl_statement_parts.specs.Parts.{boxed};

use spl_tree::{At, Effect, Expr, Name, Stmt, Test};
use std::alloc::{AllocError, Global};

/// The values of a FOR.
#[derive(Debug, Drop)]
pub struct Values {
    pub first: Expr,
    pub step: Option<Expr>,
    pub last: Expr,
}

/// An empty statement.
pub fn empty() -> Stmt
    ensures { view.statement result ≡ stat.Statement.empty }
{
    Stmt::Empty
}

/// A statement behind its label.
pub fn labelled(name: Name, at: At, body: Box<Stmt>) -> Stmt
    ensures { view.statement result ≡ stat.Statement.labelled (view.letters name) at (view.statement body.value) }
{
    Stmt::Labelled { name, at, body }
}

/// Statements between BEGIN and END.
pub fn block(inside: Vec<Stmt>) -> Stmt
    ensures { view.statement result ≡ stat.Statement.block (stat.statements (statements inside)) }
{
    Stmt::Block(inside)
}

/// An IF, with ELSE or without.
pub fn if_test(test: Test, yes: Box<Stmt>, no: Option<Box<Stmt>>, at: At) -> Stmt
    ensures { view.statement result ≡ stat.Statement.if_test (view.test_tree test) (view.statement yes.value) (stat.statements (boxed no)) at }
{
    Stmt::If { test, yes, no, at }
}

/// A WHILE.
pub fn while_true(test: Expr, body: Box<Stmt>, at: At) -> Stmt
    ensures { view.statement result ≡ stat.Statement.while_true (view.expression test) (view.statement body.value) at }
{
    Stmt::While { test, body, at }
}

/// A DO with UNTIL.
pub fn until_true(body: Box<Stmt>, test: Expr, at: At) -> Stmt
    ensures { view.statement result ≡ stat.Statement.until_true (view.statement body.value) (view.expression test) at }
{
    Stmt::Until { body, test, at }
}

/// A FOR.
pub fn for_values(name: Name, values: Values, body: Box<Stmt>, at: At) -> Stmt
    ensures { view.statement result ≡ stat.Statement.for_values (view.letters name) (view.expression values.first) (tree.trees (view.optional values.step)) (view.expression values.last) (view.statement body.value) at }
{
    let Values { first, step, last } = values;
    Stmt::For {
        name,
        first,
        step,
        last,
        body,
        at,
    }
}

/// A CASE.
pub fn case_of(of: Expr, arms: Vec<Stmt>, at: At) -> Stmt
    ensures { view.statement result ≡ stat.Statement.case_of (view.expression of) (stat.statements (statements arms)) at }
{
    Stmt::Case { of, arms, at }
}

/// A jump to a label.
pub fn go_to(name: Name, at: At) -> Stmt
    ensures { view.statement result ≡ stat.Statement.go_to (view.letters name) at }
{
    Stmt::Goto(name, at)
}

/// A RETURN.
pub fn returned(at: At) -> Stmt
    ensures { view.statement result ≡ stat.Statement.return at }
{
    Stmt::Return(at)
}

/// A MOVE or a SCAN whose value is dropped.
pub fn done(effect: Effect, at: At) -> Stmt
    ensures { view.statement result ≡ stat.Statement.do_effect (view.effect_tree effect) at }
{
    Stmt::Do(effect, at)
}

/// A call.
pub fn call(name: Name, args: Vec<Expr>, at: At) -> Stmt
    ensures { view.statement result ≡ stat.Statement.call (view.letters name) (tree.trees (map view.expression args.items)) at }
{
    Stmt::Call { name, args, at }
}

/// A list of one statement. Want of memory alone is an error.
pub fn single(alloc: Global, only: Stmt) -> Result<Vec<Stmt>, AllocError>
    ensures { IfOk result (λ xs. statements xs ≡ view.statement only ∷ []) }
{
    pushed(Vec::new(alloc), only)
}

/// A list with one statement more. Want of memory alone is an error.
#[tactic(auto, using(spl_tokens::proofs::Steps::pushed))]
pub fn pushed(read: Vec<Stmt>, next: Stmt) -> Result<Vec<Stmt>, AllocError>
    ensures { IfOk result (λ xs. statements xs ≡ statements read ++ view.statement next ∷ []) }
{
    let mut read = read;
    match read.push(next) {
        Ok(()) => Ok(read),
        Err(error) => {
            drop(read);
            Err(error.into())
        }
    }
}
