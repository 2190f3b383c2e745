//! Integer operations on words: two's complement, with an overflow where the exact result has no place in a word.
//!
//! B is the lower operand, A the one on top.

ghost use Rattle.std.specs.Prelude.{◌≡◌, ◌↔◌, IsNone};
ghost use Rattle.hp_word.specs.Words.{added, subtracted, multiplied, negated, divided, words_compared, word_code};

use crate::arithmetic::{Arith, Code, Quotient};
use crate::exact::{code_against, integer, is_out, modulo_word, signed_of};

/// B plus A.
#[inline]
#[tactic(auto, unfolding(crate::specs::Words::added))]
pub fn add(b: u16, a: u16) -> Arith
    ensures { result ≡ added b a }
{
    let carry = b as u32 + a as u32 >= 65536;
    integer(signed_of(b) + signed_of(a), carry)
}

/// B minus A. The carry is on where nothing is borrowed.
#[inline]
#[tactic(auto, unfolding(crate::specs::Words::subtracted))]
pub fn sub(b: u16, a: u16) -> Arith
    ensures { result ≡ subtracted b a }
{
    integer(signed_of(b) - signed_of(a), b >= a)
}

/// B times A.
#[inline]
#[tactic(auto, unfolding(crate::specs::Words::multiplied))]
pub fn mpy(b: u16, a: u16) -> Arith
    ensures { result ≡ multiplied b a }
{
    integer(signed_of(b) * signed_of(a), false)
}

/// Minus A. Of all words only 32,768 overflows.
#[inline]
#[tactic(auto, unfolding(crate::specs::Words::negated))]
pub fn neg(a: u16) -> Arith
    ensures { result ≡ negated a }
{
    integer(-signed_of(a), false)
}

/// B by A, rounded toward zero, and the remainder, which has the sign of B; `None` exactly where A is zero.
///
/// Only 32,768 by 65,535, which is -32,768 by -1, overflows.
#[inline]
#[tactic(auto, unfolding(crate::specs::Words::divided))]
pub fn div(b: u16, a: u16) -> Option<Quotient>
    ensures value { result ≡ divided b a }
    ensures zero_divisor { IsNone result ↔ (a ≡ 0) }
{
    if a == 0 {
        return None;
    }
    let quotient = signed_of(b) / signed_of(a);
    let remainder = signed_of(b) % signed_of(a);
    Some(Quotient {
        quotient: modulo_word(quotient),
        remainder: modulo_word(remainder),
        overflow: is_out(quotient),
    })
}

/// The condition code of B against A, both signed; against zero that of the word B.
#[inline]
#[tactic(auto, unfolding(crate::specs::Words::signed))]
pub fn cmp(b: u16, a: u16) -> Code
    ensures value { result ≡ words_compared b a }
    ensures zero { a ≡ 0 → result ≡ word_code b }
{
    code_against(signed_of(b) as i64, signed_of(a) as i64)
}
