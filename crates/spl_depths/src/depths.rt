//! The words that wait in statements, and the depths of bodies.
ghost use Rattle.std.specs.Prelude.{◌≡◌, ◌∷◌, [], IfOk, map};
ghost use Rattle.spl_tree.specs.Views as view;
ghost use Rattle.spl_tree.specs.Trees as tree;
ghost use Rattle.spl_tree.specs.StatementTrees.{statements};
ghost use Rattle.spl_sorts.specs.spl_meaning.Pending as pending;
ghost use Rattle.spl_sorts.specs.Tables.{names_of};
ghost use Rattle.spl_depths.specs.Parts as parts;

use crate::effects::{effect, step, target, tested, waiting_for};
use crate::expressions::{call, measure};
use crate::words::larger;
use spl_sorts::Names;
use spl_spots::plus;
use spl_tree::{Expr, Stmt};
use std::alloc::AllocError;

/// The words that a body needs beyond those that wait.
const SPARE_WORDS: u64 = 8;

/// What stands before the body of a FOR: its first value, its step behind one word, and its last value behind two.
fn for_head(
    names: &Names<'_>,
    first: &Expr,
    by: &Option<Expr>,
    last: &Expr,
) -> Result<u64, AllocError>
    ensures { IfOk result (λ most. most ≡ parts.head_most (names_of names.now) (view.expression first.now) (tree.trees (view.optional by.now)) (view.expression last.now)) }
{
    let first = measure(names, first)?.most;
    let by = plus(1, step(names, by)?)?;
    let last = plus(2, measure(names, last)?.most)?;
    Ok(larger(first, larger(by, last)))
}

/// A statement in which no other stands.
fn simple(names: &Names<'_>, statement: &Stmt) -> Result<u64, AllocError>
    ensures { IfOk result (λ most. most ≡ parts.simple_most (names_of names.now) (view.statement statement.now)) }
{
    match statement {
        Stmt::Assign { to, value, .. } => {
            let value = waiting_for(to, measure(names, value)?.most)?;
            Ok(larger(target(names, to)?, value))
        }
        Stmt::AssignEffect {
            to,
            effect: from,
            ..
        } => {
            let value = waiting_for(to, effect(names, true, from)?)?;
            Ok(larger(target(names, to)?, value))
        }
        Stmt::Do(what, _) => effect(names, false, what),
        Stmt::Call { name, args, .. } => call(names, names.find(name), args),
        Stmt::Empty
        | Stmt::Labelled { .. }
        | Stmt::Block(_)
        | Stmt::If { .. }
        | Stmt::While { .. }
        | Stmt::Until { .. }
        | Stmt::For { .. }
        | Stmt::Case { .. }
        | Stmt::Goto(..)
        | Stmt::Return(_) => Ok(0),
    }
}

/// The greatest number of words that wait at any point of a statement. Want of memory alone is an error.
#[cycle(statements)]
#[tactic(auto, using(crate::proofs::StatementWalks::heads))]
pub fn statement(names: &Names<'_>, s: &Stmt) -> Result<u64, AllocError>
    ensures { IfOk result (λ most. most ≡ pending.statement_most (names_of names.now) (view.statement s.now)) }
{
    match s {
        Stmt::Labelled { body, .. } => statement(names, body),
        Stmt::Block(list) => in_order(names, list),
        Stmt::If { test, yes, no, .. } => {
            let most = larger(tested(names, test)?, statement(names, yes)?);
            match no {
                Some(no) => Ok(larger(most, statement(names, no)?)),
                None => Ok(most),
            }
        }
        Stmt::While { test, body, .. } | Stmt::Until { body, test, .. } => {
            let test = measure(names, test)?.most;
            Ok(larger(test, statement(names, body)?))
        }
        Stmt::For {
            first,
            step,
            last,
            body,
            ..
        } => {
            let head = for_head(names, first, step, last)?;
            Ok(larger(head, plus(3, statement(names, body)?)?))
        }
        Stmt::Case { of, arms, .. } => {
            let value = measure(names, of)?.most;
            Ok(larger(value, in_order(names, arms)?))
        }
        Stmt::Empty
        | Stmt::Goto(..)
        | Stmt::Return(_)
        | Stmt::Assign { .. }
        | Stmt::AssignEffect { .. }
        | Stmt::Do(..)
        | Stmt::Call { .. } => simple(names, s),
    }
}

/// The statements of a list.
#[cycle(statements)]
#[tactic(auto, using(crate::proofs::StatementWalks::walks))]
fn in_order(names: &Names<'_>, list: &[Stmt]) -> Result<u64, AllocError>
    ensures { IfOk result (λ most. most ≡ pending.statements_most (names_of names.now) (statements (map view.statement list.now))) }
{
    let mut most = 0;
    for one in list {
        most = larger(most, statement(names, one)?);
    }
    Ok(most)
}

/// The depth of a body: the greatest number of words that wait in it, and 8 more. Want of memory alone is an error.
pub fn depth(names: &Names<'_>, list: &[Stmt]) -> Result<u64, AllocError>
    ensures { IfOk result (λ words. words ≡ pending.depth (names_of names.now) (statements (map view.statement list.now))) }
{
    plus(in_order(names, list)?, SPARE_WORDS)
}

/// The depth of a subroutine's body, above its return word. Want of memory alone is an error.
#[tactic(auto, using(crate::proofs::StatementWalks::walks))]
pub fn subroutine_depth(names: &Names<'_>, s: &Stmt) -> Result<u64, AllocError>
    ensures { IfOk result (λ words. words ≡ pending.depth (names_of names.now) (statements (view.statement s.now ∷ []))) }
{
    plus(statement(names, s)?, SPARE_WORDS)
}
