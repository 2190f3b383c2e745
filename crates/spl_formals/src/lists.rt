//! The words of parameters and results.
ghost use Rattle.std.specs.Prelude.{◌≡◌, ◌≤◌, IfOk, map};
ghost use Rattle.spl_sorts.specs.spl_meaning.Kinds as kinds;
ghost use Rattle.spl_sorts.specs.spl_meaning.Pending as pending;
ghost use Rattle.spl_sorts.specs.Profiles.{formal_of, profile_of};
ghost use Rattle.spl_formals.specs.ResultWords.{result_at};

use crate::two_complement::below;
use spl_sorts::{Formal, Profile};
use spl_spots::plus;
use spl_tree::Kind;
use std::alloc::AllocError;

/// The words of a value of a kind.
fn width(kind: Kind) -> u64
    ensures { result ≡ kinds.width kind }
{
    match kind {
        Kind::Double => 2,
        Kind::Integer | Kind::Logical | Kind::Byte => 1,
    }
}

/// The words of a parameter: those of its kind by value, and one by reference.
pub fn formal_words(formal: &Formal) -> u64
    ensures { result ≡ pending.formal_words (formal_of formal.now) }
{
    match formal.kind {
        None => 1,
        Some(kind) => { if formal.by_value() { width(kind) } else { 1 } }
    }
}

/// The words of parameters. A sum beyond `u64` is an error, as want of memory is.
#[tactic(auto, using(crate::proofs::FormalWalks::words_steps))]
pub fn formals_words(formals: &[Formal]) -> Result<u64, AllocError>
    ensures { IfOk result (λ words. words ≡ pending.formals_words (map formal_of formals.now)) }
{
    let mut words = 0;
    for formal in formals {
        words = plus(words, formal_words(formal))?;
    }
    Ok(words)
}

/// The place of a result, where there is one: below a base that is `gap` words above the last parameter, as a two's
/// complement word. An error is as in `formals_words`.
pub fn result_word(gap: u64, profile: &Profile) -> Result<Option<u16>, AllocError>
    ensures { IfOk result (λ word. word ≡ result_at gap (profile_of profile.now)) }
{
    match profile.result {
        None => Ok(None),
        Some(kind) => {
            let words = plus(gap, formals_words(&profile.formals)?)?;
            Ok(Some(below(plus(words, width(kind))?)))
        }
    }
}
