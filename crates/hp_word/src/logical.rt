//! Logical operations: words are unsigned, and nothing overflows.
//!
//! B is the lower operand, A the one on top.

ghost use Rattle.std.specs.Prelude.{◌≡◌, ◌↔◌, IsNone};
ghost use Rattle.hp_word.specs.Words.{logically_added, logically_subtracted, logically_multiplied, logically_divided, logically_compared};

use crate::arithmetic::{Arith, Code, Quotient, Wide};
use crate::exact::{code_against, logical, signed_double_of};

/// B plus A, modulo 65,536.
#[inline]
#[tactic(auto, unfolding(crate::specs::Words::logically_added))]
pub fn ladd(b: u16, a: u16) -> Arith
    ensures { result ≡ logically_added b a }
{
    let sum = b as i32 + a as i32;
    logical(sum, sum >= 65536)
}

/// B minus A, modulo 65,536. The carry is on where nothing is borrowed.
#[inline]
#[tactic(auto, unfolding(crate::specs::Words::logically_subtracted))]
pub fn lsub(b: u16, a: u16) -> Arith
    ensures { result ≡ logically_subtracted b a }
{
    logical(b as i32 - a as i32, b >= a)
}

/// B times A, the whole product as a double. The carry is on where it passes 65,535.
#[inline]
#[tactic(auto, unfolding(crate::specs::Words::logically_multiplied))]
pub fn lmpy(b: u16, a: u16) -> Wide
    ensures { result ≡ logically_multiplied b a }
{
    let value = b as u32 * a as u32;
    Wide {
        value,
        carry: value > 65535,
        overflow: false,
        code: code_against(signed_double_of(value), 0),
    }
}

/// The double by A: the quotient modulo 65,536 and the remainder; `None` exactly where A is zero.
#[inline]
#[tactic(auto, unfolding(crate::specs::Words::logically_divided))]
pub fn ldiv(b: u32, a: u16) -> Option<Quotient>
    ensures value { result ≡ logically_divided b a }
    ensures zero_divisor { IsNone result ↔ (a ≡ 0) }
{
    if a == 0 {
        return None;
    }
    let quotient = (b / a as u32 % 65536) as u16;
    let remainder = (b % a as u32) as u16;
    Some(Quotient {
        quotient,
        remainder,
        overflow: false,
    })
}

/// The condition code of B against A, both unsigned.
#[inline]
pub fn lcmp(b: u16, a: u16) -> Code
    ensures { result ≡ logically_compared b a }
{
    code_against(b as i64, a as i64)
}
