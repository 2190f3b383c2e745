//! From an instruction to its word.
ghost use Rattle.std.specs.Prelude.{◌≡◌, ℕ, ◌^◌, ◌<◌, ◌↔◌, IsTrue, if◌then◌else◌};
ghost use Rattle.hp_instr.specs.Instructions.{instruction};
ghost use Rattle.hp_instr.specs.Encoded.{encoded, mode_bits};
ghost use Rattle.hp_instr.specs.Given.{has_word, HasWord, is_mode};

use crate::decoder::{
    decode, is_listed_branch, is_listed_shift, takes_control, takes_immediate, takes_operand,
};
use crate::groups::is_op;
use crate::instruction::{Instr, Mode};

/// The word of an instruction that some word has.
pub fn encode(i: Instr) -> u16
    requires { IsTrue (has_word i) }
    ensures value { result ≡ encoded i }
    ensures decoded { instruction result ≡ i }
    ensures only { (w : ℕ) → w < 2 ^ 16 → instruction w ≡ i → result ≡ w }
{
    word_of(i)
}

/// Whether some word has this instruction: its codes are listed, and its numbers have the bits that they need.
pub fn has_word(i: Instr) -> bool
    ensures value { result ≡ has_word i }
    ensures word { IsTrue result ↔ HasWord i }
{
    fields_fit(i)
}

/// Whether the fields of an instruction are such as words have.
#[tactic(auto, unfolding(crate::specs::Given::has_word))]
fn fields_fit(i: Instr) -> bool
    ensures { result ≡ has_word i }
{
    match i {
        Instr::Pair { left, right } => is_op(left) && is_op(right),
        Instr::Shifted { kind, count } => is_listed_shift(kind) && count < 64,
        Instr::Short { test, back: _, d } => is_listed_branch(test) && d < 32,
        Instr::Immediate { which, n } => takes_immediate(which, n),
        Instr::Control { which, n } => takes_control(which, n),
        Instr::Memory {
            major,
            second,
            x: _,
            i: _,
            mode,
        } => takes_operand(major, second) && displacement_fits(mode),
        Instr::LoadCode { .. } | Instr::Branch { .. } | Instr::Loop { .. } => true,
        Instr::OnCode { mask, back: _, d } => mask < 8 && d < 32,
        Instr::Illegal(w) => matches!(decode(w), Instr::Illegal(_)),
    }
}

/// Whether a displacement has the bits that it needs.
fn displacement_fits(mode: Mode) -> bool
    ensures { result ≡ is_mode mode }
{
    match mode {
        Mode::DbPlus(_) => true,
        Mode::QPlus(d) => d < 128,
        Mode::QMinus(d) | Mode::SMinus(d) => d < 64,
    }
}

/// The word with these fields.
#[tactic(auto, unfolding(crate::specs::Encoded::encoded))]
fn word_of(i: Instr) -> u16
    requires { encoded i < 2 ^ 16 }
    ensures { result ≡ encoded i }
{
    match i {
        Instr::Pair { left, right } => u16::from(left.code) * 64 + u16::from(right.code),
        Instr::Shifted { kind, count } => 4096 + u16::from(kind) * 64 + u16::from(count),
        Instr::Short { test, back, d } => 4096
            + u16::from(test) * 64
            + bit(back, 32)
            + u16::from(d),
        Instr::Immediate { which, n } => 2 * 4096 + u16::from(which) * 256 + u16::from(n),
        Instr::Control { which, n } => 3 * 4096 + u16::from(which) * 256 + u16::from(n),
        Instr::Memory {
            major,
            second,
            x,
            i,
            mode,
        } => u16::from(major) * 4096
            + bit(x, 2048)
            + bit(i, 1024)
            + bit(second, 512)
            + operand_bits(mode),
        Instr::LoadCode { back, d } => 4 * 4096 + bit(back, 256) + u16::from(d),
        Instr::Loop { modify, back, d } => 5 * 4096
            + bit(modify, 2048)
            + bit(back, 256)
            + u16::from(d),
        Instr::Branch { i, back, d } => 12 * 4096 + bit(i, 1024) + bit(back, 256) + u16::from(d),
        Instr::OnCode { mask, back, d } => {
            12 * 4096 + 512 + u16::from(mask) * 64 + bit(back, 32) + u16::from(d)
        }
        Instr::Illegal(w) => w,
    }
}

/// The value of a bit where it is set, and 0 where not.
#[inline]
fn bit(set: bool, value: u16) -> u16
    ensures { result ≡ (if set then value else 0) }
{
    if set { value } else { 0 }
}

/// The right nine bits of a word with this operand.
fn operand_bits(mode: Mode) -> u16
    requires { mode_bits mode < 2 ^ 16 }
    ensures { result ≡ mode_bits mode }
{
    match mode {
        Mode::DbPlus(d) => u16::from(d),
        Mode::QPlus(d) => 256 + u16::from(d),
        Mode::QMinus(d) => 384 + u16::from(d),
        Mode::SMinus(d) => 448 + u16::from(d),
    }
}
