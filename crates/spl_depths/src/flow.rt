//! Uses of a subroutine's parameters and result in statements.
ghost use Rattle.std.specs.Prelude.{◌≡◌, OnOk, map};
ghost use Rattle.spl_tree.specs.Views as view;
ghost use Rattle.spl_tree.specs.Views.{letters};
ghost use Rattle.spl_tree.specs.Trees.{trees};
ghost use Rattle.spl_tree.specs.StatementTrees.{statements};
ghost use Rattle.spl_sorts.specs.Tables.{names_of};
ghost use Rattle.spl_depths.specs.Places.{shown};
ghost use Rattle.spl_depths.specs.Reached as reached;

use crate::effects::waiting_for;
use crate::parts::{effect, step, target, tested};
use crate::uses::{Inside, call, expression, used};
use spl_spots::{FirstFull, plus};
use spl_tree::{At, Expr, Name, Stmt};
use std::alloc::AllocError;

/// What stands before the body of a FOR: its counter, its first value, its step behind one word, and its last value behind two.
fn for_head(
    inside: &Inside<'_>,
    counter: (&Name, At),
    values: (&Expr, &Option<Expr>, &Expr),
    waiting: u64,
    first: &mut FirstFull,
) -> Result<(), AllocError>
    ensures { OnOk result (first.new ≡ reached.reached_head (names_of inside.now.names) (shown inside.now.reach.now) (letters counter.entry.0.now) counter.entry.1 (view.expression values.entry.0.now) (trees (view.optional values.entry.1.now)) (view.expression values.entry.2.now) waiting first.old) }
{
    let (name, at) = counter;
    let (from, by, last) = values;
    used(inside.reach, name, at, waiting, true, first)?;
    let _ = expression(inside, from, waiting, first)?;
    step(inside, by, plus(waiting, 1)?, first)?;
    let _ = expression(inside, last, plus(waiting, 2)?, first)?;
    Ok(())
}

/// The uses in a statement in which no other stands.
fn simple(
    inside: &Inside<'_>,
    statement: &Stmt,
    waiting: u64,
    first: &mut FirstFull,
) -> Result<(), AllocError>
    ensures { OnOk result (first.new ≡ reached.reached_simple (names_of inside.now.names) (shown inside.now.reach.now) (view.statement statement.now) waiting first.old) }
{
    match statement {
        Stmt::Assign { to, value, .. } => {
            target(inside, to, waiting, first)?;
            let _ = expression(inside, value, waiting_for(to, waiting)?, first)?;
            Ok(())
        }
        Stmt::AssignEffect {
            to,
            effect: from,
            ..
        } => {
            target(inside, to, waiting, first)?;
            effect(inside, true, from, waiting_for(to, waiting)?, first)
        }
        Stmt::Do(what, _) => effect(inside, false, what, waiting, first),
        Stmt::Call { name, args, at } => call(inside, name, *at, args, waiting, first),
        Stmt::Empty
        | Stmt::Labelled { .. }
        | Stmt::Block(_)
        | Stmt::If { .. }
        | Stmt::While { .. }
        | Stmt::Until { .. }
        | Stmt::For { .. }
        | Stmt::Case { .. }
        | Stmt::Goto(..)
        | Stmt::Return(_) => Ok(()),
    }
}

/// The uses in a statement, where so many words wait. Want of memory alone is an error.
#[cycle(flow)]
#[tactic(auto, using(crate::proofs::StatementWalks::heads), unfolding(crate::specs::Reached::reached_statement))]
pub fn statement(
    inside: &Inside<'_>,
    s: &Stmt,
    waiting: u64,
    first: &mut FirstFull,
) -> Result<(), AllocError>
    ensures { OnOk result (first.new ≡ reached.reached_statement (names_of inside.now.names) (shown inside.now.reach.now) (view.statement s.now) waiting first.old) }
{
    match s {
        Stmt::Labelled { body, .. } => statement(inside, body, waiting, first),
        Stmt::Block(list) => in_order(inside, list, waiting, first),
        Stmt::If { test, yes, no, .. } => {
            tested(inside, test, waiting, first)?;
            statement(inside, yes, waiting, first)?;
            match no {
                Some(no) => statement(inside, no, waiting, first),
                None => Ok(()),
            }
        }
        Stmt::While { test, body, .. } => {
            let _ = expression(inside, test, waiting, first)?;
            statement(inside, body, waiting, first)
        }
        Stmt::Until { body, test, .. } => {
            statement(inside, body, waiting, first)?;
            let _ = expression(inside, test, waiting, first)?;
            Ok(())
        }
        Stmt::For {
            name,
            first: from,
            step,
            last,
            body,
            at,
        } => {
            for_head(inside, (name, *at), (from, step, last), waiting, first)?;
            statement(inside, body, plus(waiting, 3)?, first)
        }
        Stmt::Case { of, arms, .. } => {
            let _ = expression(inside, of, waiting, first)?;
            in_order(inside, arms, waiting, first)
        }
        Stmt::Empty
        | Stmt::Goto(..)
        | Stmt::Return(_)
        | Stmt::Assign { .. }
        | Stmt::AssignEffect { .. }
        | Stmt::Do(..)
        | Stmt::Call { .. } => simple(inside, s, waiting, first),
    }
}

/// The uses in the statements of a list.
#[cycle(flow)]
#[tactic(auto, using(crate::proofs::FlowWalks::walks))]
fn in_order(
    inside: &Inside<'_>,
    list: &[Stmt],
    waiting: u64,
    first: &mut FirstFull,
) -> Result<(), AllocError>
    ensures { OnOk result (first.new ≡ reached.reached_statements (names_of inside.now.names) (shown inside.now.reach.now) (statements (map view.statement list.now)) waiting first.old) }
{
    for one in list {
        statement(inside, one, waiting, first)?;
    }
    Ok(())
}
