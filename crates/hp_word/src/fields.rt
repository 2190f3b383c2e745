//! Bit fields of a word. A field is told by its first bit and its length; bit 0 is the most significant.

ghost use Rattle.std.specs.Prelude.{◌≡◌, ◌≤◌, ◌<◌, ◌+◌, ◌-◌, ◌*◌, ◌/◌, ◌%◌, ◌^◌};
ghost use Rattle.hp_word.specs.Bits.{field, with_field};

use crate::shifts::power;

/// The field of `n` bits from bit `s` on, as a number.
#[inline]
#[tactic(auto, using(crate::proofs::FieldLemmas::fields))]
pub fn extract(w: u16, s: u8, n: u8) -> u16
    requires some { 1 ≤ n }
    requires within { s + n ≤ 16 }
    ensures { result ≡ field w s n }
{
    (w as u32 / power(16 - s - n) % power(n)) as u16
}

/// The word with the last `n` bits of `v` in place of its own from bit `s` on.
#[inline]
#[tactic(auto, using(crate::proofs::FieldLemmas::fields))]
pub fn deposit(w: u16, s: u8, n: u8, v: u16) -> u16
    requires some { 1 ≤ n }
    requires within { s + n ≤ 16 }
    ensures { result ≡ with_field w s n v }
{
    let right = power(16 - s - n);
    let left = power(16 - s);
    (w as u32 / left * left + (v as u32 % power(n) * right + w as u32 % right)) as u16
}
