//! Shifts and rotations of a word. They go by multiplying and dividing by a power of two, which LLVM makes shifts.

ghost use Rattle.std.specs.Prelude.{◌≡◌, ◌≤◌, ◌<◌, ◌+◌, ◌-◌, ◌*◌, ◌/◌, ◌%◌, ◌^◌};
ghost use Rattle.hp_word.specs.Bits.{shifted};
ghost use Rattle.hp_word.specs.declared.shifts.Shift.TheVariants.{Asl, Asr, Lsl, Lsr, Csl};

/// The kinds of shift, in the order of their codes.
#[derive(Clone, Copy, Debug, PartialEq, Eq)]
pub enum Shift {
    /// Arithmetic left: the sign stays, the other fifteen bits shift.
    Asl,
    /// Arithmetic right: copies of the sign come in.
    Asr,
    /// Logical left: zeros come in.
    Lsl,
    /// Logical right: zeros come in.
    Lsr,
    /// Circular left.
    Csl,
    /// Circular right.
    Csr,
}

/// Two to the power `n`.
#[inline]
#[tactic(auto, using(crate::proofs::ShiftLemmas::powers))]
pub(crate) fn power(n: u8) -> u32
    requires { n ≤ 16 }
    ensures value { result ≡ 2 ^ n }
    ensures positive { 0 < result }
    ensures bound { result ≤ 65536 }
{
    1 << n
}

/// The word shifted by `n` places, at most 63.
#[inline]
#[tactic(auto, using(crate::proofs::ShiftLemmas::right_as_left))]
pub fn shift_word(kind: Shift, w: u16, n: u8) -> u16
    requires { n ≤ 63 }
    ensures { result ≡ shifted kind w n }
{
    match kind {
        Shift::Asl => arithmetic_left(w, n),
        Shift::Asr => arithmetic_right(w, n),
        Shift::Lsl => logical_left(w, n),
        Shift::Lsr => logical_right(w, n),
        Shift::Csl => circular_left(w, n),
        Shift::Csr => circular_left(w, 16 - n % 16),
    }
}

/// The sign, and the other bits moved to the left.
#[inline]
#[tactic(auto, using(crate::proofs::ShiftLemmas::shifts))]
fn arithmetic_left(w: u16, n: u8) -> u16
    ensures { result ≡ shifted Asl w n }
{
    let sign = w / 32768 * 32768;
    if n < 15 {
        sign + (w as u32 * power(n) % 32768) as u16
    } else {
        sign
    }
}

/// All bits moved to the right, behind copies of the sign.
#[inline]
#[tactic(auto, using(crate::proofs::ShiftLemmas::shifts))]
fn arithmetic_right(w: u16, n: u8) -> u16
    ensures { result ≡ shifted Asr w n }
{
    if n >= 16 {
        w / 32768 * 65535
    } else if w < 32768 {
        (w as u32 / power(n)) as u16
    } else {
        (65536 - power(16 - n) + w as u32 / power(n)) as u16
    }
}

/// All bits moved to the left.
#[inline]
#[tactic(auto, using(crate::proofs::ShiftLemmas::shifts))]
fn logical_left(w: u16, n: u8) -> u16
    ensures { result ≡ shifted Lsl w n }
{
    if n < 16 {
        (w as u32 * power(n) % 65536) as u16
    } else {
        0
    }
}

/// All bits moved to the right.
#[inline]
#[tactic(auto, using(crate::proofs::ShiftLemmas::shifts))]
fn logical_right(w: u16, n: u8) -> u16
    ensures { result ≡ shifted Lsr w n }
{
    if n < 16 {
        (w as u32 / power(n)) as u16
    } else {
        0
    }
}

/// All bits moved to the left, those that go out coming in at the right.
#[inline]
#[tactic(auto, using(crate::proofs::ShiftLemmas::shifts))]
fn circular_left(w: u16, n: u8) -> u16
    ensures { result ≡ shifted Csl w n }
{
    let n = n % 16;
    (w as u32 * power(n) % 65536 + w as u32 / power(16 - n)) as u16
}
