//! Uses of a subroutine's parameters and result in expressions.
//!
//! An expression answers its kind as well, so that no kind is worked out twice.
ghost use Rattle.std.specs.Prelude.{◌≡◌, OnOk, IfOk, map, [], option_map, true, false};
ghost use Rattle.spl_tree.specs.Views as view;
ghost use Rattle.spl_tree.specs.Views.{letters};
ghost use Rattle.spl_tree.specs.Trees.{trees};
ghost use Rattle.spl_sorts.specs.spl_meaning.Kinds.{kind_of};
ghost use Rattle.spl_sorts.specs.spl_meaning.Limits.{use_of};
ghost use Rattle.spl_sorts.specs.Profiles.{formal_of};
ghost use Rattle.spl_sorts.specs.Sorts.{operand_of};
ghost use Rattle.spl_sorts.specs.Tables.{names_of};
ghost use Rattle.spl_depths.specs.Places.{shown};
ghost use Rattle.spl_depths.specs.Reach.{reached_by};
ghost use Rattle.spl_depths.specs.Reached as reached;

use crate::expressions::{formals_of, left_words, next_formal, other_formals, result_of};
use crate::reach::Reach;
use crate::words::argument_words;
use spl_sorts::{Formal, Names, Operand};
use spl_spots::{FirstFull, Full, plus};
use spl_tree::{At, Expr, Kind, Name, Ref};
use std::alloc::AllocError;

/// How far beneath the top a word may be used.
const MOST_REACH: u64 = 63;

/// The number of the limit on that.
const OUT_OF_REACH: u8 = 5;

/// What stands around the uses in a subroutine's body.
#[derive(Clone, Copy, Debug)]
pub struct Inside<'t> {
    pub names: Names<'t>,
    pub reach: &'t Reach<'t>,
}

/// A use of a name, where so many words wait. 5: it is a parameter or the result, and too far beneath the top.
pub fn used(
    reach: &Reach<'_>,
    name: &Name,
    at: At,
    waiting: u64,
    is_target: bool,
    first: &mut FirstFull,
) -> Result<(), AllocError>
    ensures { OnOk result (first.new ≡ reached_by (shown reach.now) (use_of (letters name.now) at waiting is_target) first.old) }
{
    if let Some(below) = reach.below(name, is_target) {
        let count = plus(waiting, below)?;
        if MOST_REACH < count {
            first.note(Full {
                limit: OUT_OF_REACH,
                at,
                count,
            });
        }
    }
    Ok(())
}

/// The uses in an expression, where so many words wait; and what it is.
#[cycle(uses)]
#[tactic(auto, unfolding(crate::specs::Reached::reached))]
pub fn expression(
    inside: &Inside<'_>,
    e: &Expr,
    waiting: u64,
    first: &mut FirstFull,
) -> Result<Operand, AllocError>
    ensures kind { IfOk result (λ operand. operand_of operand ≡ kind_of (names_of inside.now.names) (view.expression e.now)) }
    ensures first { OnOk result (first.new ≡ reached.reached (names_of inside.now.names) (shown inside.now.reach.now) (view.expression e.now) waiting first.old) }
{
    match e {
        Expr::Number(_) | Expr::Text(_) | Expr::Truth(_) => Ok(Operand::Constant),
        Expr::Wide(_) => Ok(Operand::Of(Kind::Double)),
        Expr::Named { name, args, at } => {
            call(inside, name, *at, args, waiting, first)?;
            Ok(Operand::named(inside.names.find(name)))
        }
        Expr::Address { name, index, at } => {
            used(inside.reach, name, *at, waiting, false, first)?;
            if let Some(index) = index {
                let _ = expression(inside, index, waiting, first)?;
            }
            Ok(Operand::Of(Kind::Logical))
        }
        Expr::Unary { op, of, .. } => {
            let value = expression(inside, of, waiting, first)?;
            Ok(value.unary(*op))
        }
        Expr::Binary {
            op,
            left,
            right,
            ..
        } => {
            let a = expression(inside, left, waiting, first)?;
            let left_waits = left_words(&inside.names, *op, left, right, a);
            let b = expression(inside, right, plus(waiting, left_waits)?, first)?;
            Ok(a.binary(*op, b))
        }
        Expr::Shift { of, .. } | Expr::Field { of, .. } => {
            let _ = expression(inside, of, waiting, first)?;
            Ok(Operand::Of(Kind::Logical))
        }
        Expr::Transfer { to, of, .. } => {
            let _ = expression(inside, of, waiting, first)?;
            Ok(Operand::Of(*to))
        }
        Expr::Bytes {
            left,
            right,
            count,
            ..
        } => {
            reference(inside, left, waiting, first)?;
            reference(inside, right, plus(waiting, 1)?, first)?;
            let _ = expression(inside, count, plus(waiting, 2)?, first)?;
            Ok(Operand::Of(Kind::Logical))
        }
    }
}

/// The uses in a name with what stands behind it.
#[cycle(uses)]
#[tactic(auto)]
pub fn call(
    inside: &Inside<'_>,
    name: &Name,
    at: At,
    args: &[Expr],
    waiting: u64,
    first: &mut FirstFull,
) -> Result<(), AllocError>
    ensures { OnOk result (first.new ≡ reached.reached_call (names_of inside.now.names) (shown inside.now.reach.now) (letters name.now) at (trees (map view.expression args.now)) waiting first.old) }
{
    used(inside.reach, name, at, waiting, false, first)?;
    let sort = inside.names.find(name);
    let waiting = plus(waiting, result_of(sort))?;
    arguments(inside, formals_of(sort), args, waiting, first)
}

/// The uses in a reference.
#[cycle(uses)]
#[tactic(auto, unfolding(crate::specs::Reached::reached))]
pub fn reference(
    inside: &Inside<'_>,
    r: &Ref,
    waiting: u64,
    first: &mut FirstFull,
) -> Result<(), AllocError>
    ensures { OnOk result (first.new ≡ reached.reached (names_of inside.now.names) (shown inside.now.reach.now) (view.reference r.now) waiting first.old) }
{
    used(inside.reach, &r.name, r.at, waiting, false, first)?;
    if let Some(index) = &r.index {
        let waiting = plus(waiting, result_of(inside.names.find(&r.name)))?;
        let _ = expression(inside, index, waiting, first)?;
    }
    Ok(())
}

/// The uses in arguments in order, or in an index: each waits for those behind it.
#[cycle(uses)]
#[tactic(auto, using(crate::proofs::UseWalks::walks))]
fn arguments(
    inside: &Inside<'_>,
    formals: &[Formal],
    args: &[Expr],
    waiting: u64,
    first: &mut FirstFull,
) -> Result<(), AllocError>
    ensures { OnOk result (first.new ≡ reached.reached_among (names_of inside.now.names) (shown inside.now.reach.now) (map formal_of formals.now) (trees (map view.expression args.now)) waiting first.old) }
{
    let mut formals = formals;
    let mut waiting = waiting;
    for e in args {
        let _ = expression(inside, e, waiting, first)?;
        waiting = plus(waiting, argument_words(next_formal(formals)))?;
        formals = other_formals(formals);
    }
    Ok(())
}
