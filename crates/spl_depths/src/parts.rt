//! Uses of a subroutine's parameters and result in targets, in MOVE and SCAN, and in what statements test.
ghost use Rattle.std.specs.Prelude.{◌≡◌, OnOk};
ghost use Rattle.spl_tree.specs.Views as view;
ghost use Rattle.spl_tree.specs.Trees.{trees};
ghost use Rattle.spl_sorts.specs.Tables.{names_of};
ghost use Rattle.spl_depths.specs.Places.{shown};
ghost use Rattle.spl_depths.specs.Reached as reached;

use crate::effects::{behind_first, behind_second};
use crate::uses::{Inside, expression, reference, used};
use spl_spots::FirstFull;
use spl_tree::{Effect, Expr, Ref, Source, Target, Test};
use std::alloc::AllocError;

/// The uses in a reference that is assigned: its name, and its index.
#[tactic(auto, unfolding(crate::specs::Reached::reached))]
fn index(
    inside: &Inside<'_>,
    r: &Ref,
    waiting: u64,
    first: &mut FirstFull,
) -> Result<(), AllocError>
    ensures { OnOk result (first.new ≡ reached.reached_index (names_of inside.now.names) (shown inside.now.reach.now) (view.reference r.now) waiting first.old) }
{
    used(inside.reach, &r.name, r.at, waiting, true, first)?;
    if let Some(index) = &r.index {
        let _ = expression(inside, index, waiting, first)?;
    }
    Ok(())
}

/// The uses in a target.
pub fn target(
    inside: &Inside<'_>,
    to: &Target,
    waiting: u64,
    first: &mut FirstFull,
) -> Result<(), AllocError>
    ensures { OnOk result (first.new ≡ reached.reached_target (names_of inside.now.names) (shown inside.now.reach.now) (view.target_tree to.now) waiting first.old) }
{
    match to {
        Target::Plain(r) | Target::Field { of: r, .. } => index(inside, r, waiting, first),
        Target::Address(name, at) => used(inside.reach, name, *at, waiting, true, first),
    }
}

/// The uses in what a MOVE moves.
fn source(
    inside: &Inside<'_>,
    answer: bool,
    from: &Source,
    waiting: u64,
    first: &mut FirstFull,
) -> Result<(), AllocError>
    ensures { OnOk result (first.new ≡ reached.reached_source (names_of inside.now.names) (shown inside.now.reach.now) answer (view.source_tree from.now) waiting first.old) }
{
    match from {
        Source::Counted(r, count) => {
            reference(inside, r, behind_first(answer, waiting)?, first)?;
            let _ = expression(inside, count, behind_second(answer, waiting)?, first)?;
            Ok(())
        }
        Source::Text(_) => Ok(()),
        Source::While(r, _) => reference(inside, r, behind_first(answer, waiting)?, first),
    }
}

/// The uses in a MOVE or a SCAN, whose answer is used or not.
pub fn effect(
    inside: &Inside<'_>,
    answer: bool,
    effect: &Effect,
    waiting: u64,
    first: &mut FirstFull,
) -> Result<(), AllocError>
    ensures { OnOk result (first.new ≡ reached.reached_effect (names_of inside.now.names) (shown inside.now.reach.now) answer (view.effect_tree effect.now) waiting first.old) }
{
    match effect {
        Effect::Move { to, from } => {
            reference(inside, to, waiting, first)?;
            source(inside, answer, from, waiting, first)
        }
        Effect::Scan { from, test, .. } => {
            reference(inside, from, waiting, first)?;
            let _ = expression(inside, test, behind_first(answer, waiting)?, first)?;
            Ok(())
        }
    }
}

/// The uses in what an IF tests.
pub fn tested(
    inside: &Inside<'_>,
    test: &Test,
    waiting: u64,
    first: &mut FirstFull,
) -> Result<(), AllocError>
    ensures { OnOk result (first.new ≡ reached.reached_test (names_of inside.now.names) (shown inside.now.reach.now) (view.test_tree test.now) waiting first.old) }
{
    if let Test::Of(e) = test {
        let _ = expression(inside, e, waiting, first)?;
    }
    Ok(())
}

/// The uses in the step of a loop, where there is one.
pub fn step(
    inside: &Inside<'_>,
    e: &Option<Expr>,
    waiting: u64,
    first: &mut FirstFull,
) -> Result<(), AllocError>
    ensures { OnOk result (first.new ≡ reached.reached_step (names_of inside.now.names) (shown inside.now.reach.now) (trees (view.optional e.now)) waiting first.old) }
{
    if let Some(e) = e {
        let _ = expression(inside, e, waiting, first)?;
    }
    Ok(())
}
