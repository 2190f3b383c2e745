//! The words of values, parameters, results and links.
ghost use Rattle.std.specs.Prelude.{◌≡◌, ◌≤◌, max, IfOk, map, option_map};
ghost use Rattle.spl_sorts.specs.spl_meaning.Kinds as kinds;
ghost use Rattle.spl_sorts.specs.spl_meaning.Pending as pending;
ghost use Rattle.spl_sorts.specs.Profiles.{formal_of, profile_of};
ghost use Rattle.spl_sorts.specs.Sorts.{sort_of, operand_of};

use spl_sorts::{Formal, Operand, Profile, Sort};
use spl_spots::plus;
use spl_tree::Kind;
use std::alloc::AllocError;

/// The words of a marker.
const MARKER_WORDS: u64 = 4;

/// The words of a return word.
const RETURN_WORDS: u64 = 1;

/// The greater of two numbers of words.
pub fn larger(a: u64, b: u64) -> u64
    ensures { result ≡ max a b }
{
    a.max(b)
}

/// The words of a value of a kind.
fn width(kind: Kind) -> u64
    ensures value { result ≡ kinds.width kind }
    ensures few { result ≤ 2 }
{
    match kind {
        Kind::Double => 2,
        Kind::Integer | Kind::Logical | Kind::Byte => 1,
    }
}

/// The words of an operand.
pub fn operand_width(value: Operand) -> u64
    ensures { result ≡ kinds.operand_width (operand_of value) }
{
    match value {
        Operand::Of(kind) => width(kind),
        Operand::Constant | Operand::Unknown => 1,
    }
}

/// The words of a parameter: those of its kind by value, and one by reference.
pub fn formal_words(formal: &Formal) -> u64
    ensures value { result ≡ pending.formal_words (formal_of formal.now) }
    ensures few { result ≤ 2 }
{
    match formal.kind {
        None => 1,
        Some(kind) => { if formal.by_value() { width(kind) } else { 1 } }
    }
}

/// The words of an argument: those of its parameter, where it has one.
pub fn argument_words(formal: Option<&Formal>) -> u64
    ensures { result ≡ pending.argument_words (option_map (λ f. formal_of f.now) formal.entry) }
{
    match formal {
        None => 0,
        Some(formal) => formal_words(formal),
    }
}

/// The words of parameters.
#[tactic(auto, using(crate::proofs::WordWalks::words_steps))]
pub fn formals_words(formals: &[Formal]) -> Result<u64, AllocError>
    ensures { IfOk result (λ words. words ≡ pending.formals_words (map formal_of formals.now)) }
{
    let mut words = 0;
    for formal in formals {
        words = plus(words, formal_words(formal))?;
    }
    Ok(words)
}

/// The words of a result, where there is one.
pub fn result_words(profile: &Profile) -> u64
    ensures value { result ≡ pending.result_words (profile_of profile.now) }
    ensures few { result ≤ 2 }
{
    match profile.result {
        None => 0,
        Some(kind) => width(kind),
    }
}

/// The words that a call puts behind its parameters: a marker, a return word, or none.
pub fn link_words(sort: Option<&Sort>) -> u64
    ensures { result ≡ pending.link_words (option_map (λ s. sort_of s.now) sort.entry) }
{
    match sort {
        Some(Sort::Procedure(_)) => MARKER_WORDS,
        Some(Sort::Subroutine(_)) => RETURN_WORDS,
        None
        | Some(
            Sort::Simple(..)
            | Sort::Array { .. }
            | Sort::View(..)
            | Sort::Pointer(..)
            | Sort::Value(_)
            | Sort::ByReference(_)
            | Sort::ArrayParameter(_)
            | Sort::Equate(_)
            | Sort::Label
            | Sort::Intrinsic(_)
            | Sort::Unknown,
        ) => 0,
    }
}
