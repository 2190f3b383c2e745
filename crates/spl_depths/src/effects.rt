//! The words that wait in targets, in MOVE and SCAN, and in what statements test.
ghost use Rattle.std.specs.Prelude.{◌≡◌, IfOk};
ghost use Rattle.spl_tree.specs.Views as view;
ghost use Rattle.spl_tree.specs.Trees.{trees};
ghost use Rattle.spl_sorts.specs.spl_meaning.Pending as pending;
ghost use Rattle.spl_sorts.specs.Tables.{names_of};

use crate::expressions::{measure, reference};
use crate::words::larger;
use spl_sorts::Names;
use spl_spots::plus;
use spl_tree::{Effect, Expr, Ref, Source, Target, Test};
use std::alloc::AllocError;

/// What waits behind so many words once the index of a reference is worked out, where it has one.
fn behind_index(r: &Ref, words: u64) -> Result<u64, AllocError>
    ensures { IfOk result (λ most. most ≡ pending.behind_index (view.reference r.now) words) }
{
    match r.index {
        None => Ok(words),
        Some(_) => plus(words, 1),
    }
}

/// What waits behind so many words while the value for a target is worked out.
pub fn waiting_for(to: &Target, words: u64) -> Result<u64, AllocError>
    ensures { IfOk result (λ most. most ≡ pending.waiting (view.target_tree to.now) words) }
{
    match to {
        Target::Plain(r) | Target::Field { of: r, .. } => behind_index(r, words),
        Target::Address(..) => Ok(words),
    }
}

/// A reference that is assigned: its index alone, since assigning a result is no call.
#[tactic(auto, using(crate::proofs::Walks::ones))]
fn index(names: &Names<'_>, r: &Ref) -> Result<u64, AllocError>
    ensures { IfOk result (λ most. most ≡ pending.index_most (names_of names.now) (view.reference r.now)) }
{
    match &r.index {
        None => Ok(0),
        Some(index) => Ok(measure(names, index)?.most),
    }
}

/// A target.
pub fn target(names: &Names<'_>, to: &Target) -> Result<u64, AllocError>
    ensures { IfOk result (λ most. most ≡ pending.target_most (names_of names.now) (view.target_tree to.now)) }
{
    match to {
        Target::Plain(r) | Target::Field { of: r, .. } => index(names, r),
        Target::Address(..) => Ok(0),
    }
}

/// What waits behind so many words while the second reference of a MOVE or the test word of a SCAN is worked out: the first address,
/// and a word more where the answer is used.
pub fn behind_first(used: bool, words: u64) -> Result<u64, AllocError>
    ensures { IfOk result (λ most. most ≡ pending.behind_first used words) }
{
    plus(words, if used { 2 } else { 1 })
}

/// What waits behind so many words while the count of a MOVE is worked out: both addresses, and a word more where the answer is used.
pub fn behind_second(used: bool, words: u64) -> Result<u64, AllocError>
    ensures { IfOk result (λ most. most ≡ pending.behind_second used words) }
{
    plus(words, if used { 3 } else { 2 })
}

/// What a MOVE moves.
fn source(names: &Names<'_>, used: bool, from: &Source) -> Result<u64, AllocError>
    ensures { IfOk result (λ most. most ≡ pending.source_most (names_of names.now) used (view.source_tree from.now)) }
{
    match from {
        Source::Counted(r, count) => {
            let first = behind_first(used, reference(names, r)?)?;
            let count = behind_second(used, measure(names, count)?.most)?;
            Ok(larger(first, count))
        }
        Source::Text(_) => Ok(0),
        Source::While(r, _) => behind_first(used, reference(names, r)?),
    }
}

/// A MOVE or a SCAN, whose answer is used or not.
pub fn effect(names: &Names<'_>, used: bool, effect: &Effect) -> Result<u64, AllocError>
    ensures { IfOk result (λ most. most ≡ pending.effect_most (names_of names.now) used (view.effect_tree effect.now)) }
{
    match effect {
        Effect::Move { to, from } => {
            Ok(larger(reference(names, to)?, source(names, used, from)?))
        }
        Effect::Scan { from, test, .. } => {
            let test = behind_first(used, measure(names, test)?.most)?;
            Ok(larger(reference(names, from)?, test))
        }
    }
}

/// What an IF tests.
pub fn tested(names: &Names<'_>, test: &Test) -> Result<u64, AllocError>
    ensures { IfOk result (λ most. most ≡ pending.test_most (names_of names.now) (view.test_tree test.now)) }
{
    match test {
        Test::Of(e) => Ok(measure(names, e)?.most),
        Test::Code(_) => Ok(0),
    }
}

/// The step of a loop, where there is one.
pub fn step(names: &Names<'_>, e: &Option<Expr>) -> Result<u64, AllocError>
    ensures { IfOk result (λ most. most ≡ pending.trees_most (names_of names.now) (trees (view.optional e.now))) }
{
    match e {
        None => Ok(0),
        Some(e) => Ok(measure(names, e)?.most),
    }
}
