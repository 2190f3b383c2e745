//! Integer operations on doubles: two words, the high one first, read as one signed number of thirty-two bits.
//!
//! B is the lower operand, A the one on top.

ghost use Rattle.std.specs.Prelude.{◌≡◌};
ghost use Rattle.hp_word.specs.Words.{double_added, double_subtracted, double_negated, doubles_compared, double_code};

use crate::arithmetic::{Code, Wide};
use crate::exact::{code_against, double, signed_double_of};

/// B plus A.
#[inline]
#[tactic(auto, unfolding(crate::specs::Words::double_added))]
pub fn dadd(b: u32, a: u32) -> Wide
    ensures { result ≡ double_added b a }
{
    let carry = b as u64 + a as u64 >= 4294967296;
    double(signed_double_of(b) + signed_double_of(a), carry)
}

/// B minus A. The carry is on where nothing is borrowed.
#[inline]
#[tactic(auto, unfolding(crate::specs::Words::double_subtracted))]
pub fn dsub(b: u32, a: u32) -> Wide
    ensures { result ≡ double_subtracted b a }
{
    double(signed_double_of(b) - signed_double_of(a), b >= a)
}

/// Minus A. Of all doubles only 2,147,483,648 overflows.
#[inline]
#[tactic(auto, unfolding(crate::specs::Words::double_negated))]
pub fn dneg(a: u32) -> Wide
    ensures { result ≡ double_negated a }
{
    double(-signed_double_of(a), false)
}

/// The condition code of B against A, both signed; against zero that of the double B.
#[inline]
#[tactic(auto, unfolding(crate::specs::Words::signed_double))]
pub fn dcmp(b: u32, a: u32) -> Code
    ensures value { result ≡ doubles_compared b a }
    ensures zero { a ≡ 0 → result ≡ double_code b }
{
    code_against(signed_double_of(b), signed_double_of(a))
}
