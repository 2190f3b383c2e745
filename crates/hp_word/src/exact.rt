//! From the exact result of an operation to what a word or a double keeps of it.
//!
//! Arithmetic goes over `i32` for words and `i64` for doubles, where every exact result has its place.

ghost use Rattle.std.specs.Prelude.{◌≡◌, ◌≢◌, ◌≤ℤ◌, pos, negsuc};
ghost use Rattle.hp_word.specs.Words.{signed, signed_double, word_of, double_of, is_out_of_word, is_out_of_double};
ghost use Rattle.hp_word.specs.Words.{compared, code_of, word_result, integer_result, logical_result, double_result};

use crate::arithmetic::{Arith, Code, Wide};

/// The word read with its sign.
#[inline]
#[tactic(auto, unfolding(crate::specs::Words::signed))]
pub(crate) fn signed_of(w: u16) -> i32
    ensures value { result ≡ signed w }
    ensures low { negsuc 32767 ≤ℤ result }
    ensures high { result ≤ℤ pos 32767 }
    ensures nonzero { w ≢ 0 → result ≢ pos 0 }
{
    if w < 32768 {
        w as i32
    } else {
        w as i32 - 65536
    }
}

/// The double read with its sign.
#[inline]
#[tactic(auto, unfolding(crate::specs::Words::signed_double))]
pub(crate) fn signed_double_of(d: u32) -> i64
    ensures value { result ≡ signed_double d }
    ensures low { negsuc 2147483647 ≤ℤ result }
    ensures high { result ≤ℤ pos 2147483647 }
{
    if d < 2147483648 {
        d as i64
    } else {
        d as i64 - 4294967296
    }
}

/// The number modulo 65,536.
#[inline]
#[tactic(auto, unfolding(crate::specs::Words::word_of))]
pub(crate) fn modulo_word(z: i32) -> u16
    ensures { result ≡ word_of z }
{
    z.rem_euclid(65536) as u16
}

/// The number modulo 4,294,967,296.
#[inline]
#[tactic(auto, unfolding(crate::specs::Words::double_of))]
pub(crate) fn modulo_double(z: i64) -> u32
    ensures { result ≡ double_of z }
{
    z.rem_euclid(4294967296) as u32
}

/// Whether the number has no place in a signed word.
#[inline]
#[tactic(auto, unfolding(crate::specs::Words::is_out_of_word))]
pub(crate) fn is_out(z: i32) -> bool
    ensures { result ≡ is_out_of_word z }
{
    z < -32768 || z > 32767
}

/// Whether the number has no place in a signed double.
#[inline]
#[tactic(auto, unfolding(crate::specs::Words::is_out_of_double))]
fn is_out_wide(z: i64) -> bool
    ensures { result ≡ is_out_of_double z }
{
    z < -2147483648 || z > 2147483647
}

/// The condition code of the lower operand against the upper.
#[inline]
#[tactic(auto, unfolding(crate::specs::Words::compared))]
pub(crate) fn code_against(lower: i64, upper: i64) -> Code
    ensures { result ≡ compared lower upper }
{
    if lower > upper {
        Code::Greater
    } else if lower < upper {
        Code::Less
    } else {
        Code::Equal
    }
}

/// What an operation on words leaves that has this exact result.
#[inline]
#[tactic(auto, unfolding(crate::specs::Words::word_result))]
fn kept_of(exact: i32, carry: bool, overflow: bool) -> Arith
    ensures { result ≡ word_result exact carry overflow }
{
    let value = modulo_word(exact);
    Arith {
        value,
        carry,
        overflow,
        code: code_against(signed_of(value) as i64, 0),
    }
}

/// What an integer operation on words leaves that has this exact result and this carry.
#[inline]
pub(crate) fn integer(exact: i32, carry: bool) -> Arith
    ensures { result ≡ integer_result exact carry }
{
    kept_of(exact, carry, is_out(exact))
}

/// What a logical operation on words leaves that has this exact result and this carry.
#[inline]
pub(crate) fn logical(exact: i32, carry: bool) -> Arith
    ensures { result ≡ logical_result exact carry }
{
    kept_of(exact, carry, false)
}

/// What an integer operation on doubles leaves that has this exact result and this carry.
#[inline]
#[tactic(auto, unfolding(crate::specs::Words::double_result))]
pub(crate) fn double(exact: i64, carry: bool) -> Wide
    ensures { result ≡ double_result exact carry }
{
    let value = modulo_double(exact);
    Wide {
        value,
        carry,
        overflow: is_out_wide(exact),
        code: code_against(signed_double_of(value), 0),
    }
}
