//! From a word to its instruction. The major, bits 0 to 3, chooses one function, and each of them reads fixed fields.
ghost use Rattle.std.specs.Prelude.{◌≡◌, ◌*◌, ◌<◌, ◌≤◌, IsTrue};
ghost use Rattle.hp_instr.specs.Bits.{bit, bits};
ghost use Rattle.hp_instr.specs.Encoded.{encoded};
ghost use Rattle.hp_instr.specs.Given.{has_word};
ghost use Rattle.hp_instr.specs.Fields.{is_op, is_shift, is_short_branch, is_field, is_immediate, is_control, is_reference};
ghost use Rattle.hp_instr.specs.Instructions.{pair, shift_or_branch, immediate, control, mode, load_code, loop_branch, branch, on_code, reference, instruction};

use crate::instruction::{Instr, Mode, Op};

/// The instruction of a word. It is total: a word that is no instruction is `Illegal`.
#[inline]
pub fn decode(w: u16) -> Instr
    ensures value { result ≡ instruction w }
    ensures has_word { IsTrue (has_word result) }
    ensures again { encoded result ≡ w }
{
    by_major(w)
}

/// The instruction of a word, by its major.
#[inline]
#[tactic(auto, unfolding(crate::specs::Instructions::instruction))]
fn by_major(w: u16) -> Instr
    ensures { result ≡ instruction w }
{
    match w / 4096 {
        0 => decode_pair(w),
        1 => decode_shift_or_branch(w),
        2 => decode_immediate(w),
        3 => decode_control(w),
        _ => decode_reference(w),
    }
}

/// The codes of stack operations: bit `k`, counted from the least, is one where code `k` is listed.
const OPERATIONS: u64 = 0x71FF_407F_FEFF_E7FF;

/// Whether a code of six bits is that of a stack operation.
#[inline]
#[tactic(auto, using(crate::proofs::OperationsMask::mask_is))]
pub(crate) fn is_listed_op(code: u8) -> bool
    requires { code < 64 }
    ensures { result ≡ is_op code }
{
    (OPERATIONS >> code) % 2 == 1
}

/// A word of major 0.
#[inline]
#[tactic(auto, unfolding(crate::specs::Instructions::pair))]
fn decode_pair(w: u16) -> Instr
    ensures { result ≡ pair w }
{
    let left = (w / 64 % 64) as u8;
    let right = (w % 64) as u8;
    if is_listed_op(left) && is_listed_op(right) {
        Instr::Pair {
            left: Op { code: left },
            right: Op { code: right },
        }
    } else {
        Instr::Illegal(w)
    }
}

/// A word of major 1.
#[inline]
#[tactic(auto, unfolding(crate::specs::Instructions::shift_or_branch))]
fn decode_shift_or_branch(w: u16) -> Instr
    ensures { result ≡ shift_or_branch w }
{
    let code = (w / 64 % 32) as u8;
    if w / 2048 % 2 == 1 {
        Instr::Illegal(w)
    } else if is_listed_shift(code) {
        Instr::Shifted {
            kind: code,
            count: (w % 64) as u8,
        }
    } else if is_listed_branch(code) {
        let (back, d) = short_displacement(w);
        Instr::Short {
            test: code,
            back,
            d,
        }
    } else {
        Instr::Illegal(w)
    }
}

/// Whether a code of five bits is that of a shift.
#[inline]
#[tactic(auto, unfolding(crate::specs::Fields::is_shift))]
pub(crate) fn is_listed_shift(code: u8) -> bool
    ensures { result ≡ is_shift code }
{
    code <= 0o05
}

/// Whether a code of five bits is that of a short branch.
#[inline]
#[tactic(auto, unfolding(crate::specs::Fields::is_short_branch))]
pub(crate) fn is_listed_branch(code: u8) -> bool
    ensures { result ≡ is_short_branch code }
{
    (0o10..=0o22).contains(&code)
}

/// The code of a word of major 2 or 3, and its number.
#[inline]
fn code_and_number(w: u16) -> (u8, u8)
    ensures { result ≡ (bits 4 7 w, bits 8 15 w) }
{
    ((w / 256 % 16) as u8, (w % 256) as u8)
}

/// A word of major 2.
#[inline]
#[tactic(auto, unfolding(crate::specs::Instructions::immediate))]
fn decode_immediate(w: u16) -> Instr
    ensures { result ≡ immediate w }
{
    let (which, n) = code_and_number(w);
    if takes_immediate(which, n) {
        Instr::Immediate { which, n }
    } else {
        Instr::Illegal(w)
    }
}

/// Whether a code of major 2, of four bits, takes this number.
#[inline]
#[tactic(auto, unfolding(crate::specs::Fields::is_immediate))]
pub(crate) fn takes_immediate(which: u8, n: u8) -> bool
    ensures { result ≡ is_immediate which n }
{
    match which {
        0 => n == 1 || n == 2,
        11 | 12 => lies_within_a_word(n),
        _ => which < 16,
    }
}

/// Whether a field lies within a word: its first bit is in the left four bits, its length in the right four, 0 for 16.
#[inline]
fn lies_within_a_word(n: u8) -> bool
    ensures { result ≡ is_field n }
{
    let length = if n % 16 == 0 { 16 } else { n % 16 };
    n / 16 + length <= 16
}

/// A word of major 3.
#[inline]
#[tactic(auto, unfolding(crate::specs::Instructions::control))]
fn decode_control(w: u16) -> Instr
    ensures { result ≡ control w }
{
    let (which, n) = code_and_number(w);
    if takes_control(which, n) {
        Instr::Control { which, n }
    } else {
        Instr::Illegal(w)
    }
}

/// Whether a code of major 3, of four bits, takes this number.
#[inline]
#[tactic(auto, unfolding(crate::specs::Fields::is_control))]
pub(crate) fn takes_control(which: u8, n: u8) -> bool
    ensures { result ≡ is_control which n }
{
    match which {
        9 | 10 | 14 => n <= 1,
        11 => matches!(n, 1..=3 | 6 | 7),
        12 | 13 => n == 0,
        _ => which < 9,
    }
}

/// A data operand, in the right nine bits of a word.
#[inline]
#[tactic(auto, unfolding(crate::specs::Instructions::mode))]
fn decode_mode(w: u16) -> Mode
    ensures { result ≡ mode w }
{
    match w / 64 % 8 {
        0..=3 => Mode::DbPlus((w % 256) as u8),
        4 | 5 => Mode::QPlus((w % 128) as u8),
        6 => Mode::QMinus((w % 64) as u8),
        _ => Mode::SMinus((w % 64) as u8),
    }
}

/// A displacement of eight bits, and whether it goes back.
#[inline]
fn long_displacement(w: u16) -> (bool, u8)
    ensures { result ≡ (bit 7 w, bits 8 15 w) }
{
    (w / 256 % 2 == 1, (w % 256) as u8)
}

/// A displacement of five bits, and whether it goes back.
#[inline]
fn short_displacement(w: u16) -> (bool, u8)
    ensures { result ≡ (bit 10 w, bits 11 15 w) }
{
    (w / 32 % 2 == 1, (w % 32) as u8)
}

/// LOAD of a code word.
#[inline]
#[tactic(auto, unfolding(crate::specs::Instructions::load_code))]
fn decode_load_code(w: u16) -> Instr
    ensures { result ≡ load_code w }
{
    if w / 1024 % 4 != 0 {
        return Instr::Illegal(w);
    }
    let (back, d) = long_displacement(w);
    Instr::LoadCode { back, d }
}

/// TBA and MTBA.
#[inline]
#[tactic(auto, unfolding(crate::specs::Instructions::loop_branch))]
fn decode_loop_branch(w: u16) -> Instr
    ensures { result ≡ loop_branch w }
{
    if w / 1024 % 2 == 1 {
        return Instr::Illegal(w);
    }
    let (back, d) = long_displacement(w);
    Instr::Loop {
        modify: w / 2048 % 2 == 1,
        back,
        d,
    }
}

/// BR.
#[inline]
#[tactic(auto, unfolding(crate::specs::Instructions::branch))]
fn decode_branch(w: u16) -> Instr
    ensures { result ≡ branch w }
{
    if w / 2048 % 2 == 1 {
        return Instr::Illegal(w);
    }
    let (back, d) = long_displacement(w);
    Instr::Branch {
        i: w / 1024 % 2 == 1,
        back,
        d,
    }
}

/// BCC.
#[inline]
#[tactic(auto, unfolding(crate::specs::Instructions::on_code))]
fn decode_on_code(w: u16) -> Instr
    ensures { result ≡ on_code w }
{
    if w / 1024 % 4 != 0 {
        return Instr::Illegal(w);
    }
    let (back, d) = short_displacement(w);
    Instr::OnCode {
        mask: (w / 64 % 8) as u8,
        back,
        d,
    }
}

/// Whether a major has an operation on a word in memory, with bit 6 one or zero.
#[inline]
#[tactic(auto, unfolding(crate::specs::Fields::is_reference))]
pub(crate) fn takes_operand(major: u8, second: bool) -> bool
    ensures { result ≡ is_reference major second }
{
    match major {
        10 | 13 | 14 => true,
        4..=9 | 11 | 15 => second,
        _ => false,
    }
}

/// A word of the majors 4 to 15.
#[inline]
#[tactic(auto, unfolding(crate::specs::Instructions::reference, crate::specs::Instructions::memory, crate::specs::Instructions::no_memory))]
fn decode_reference(w: u16) -> Instr
    requires { 4096 * 4 ≤ w }
    ensures { result ≡ reference w }
{
    let major = (w / 4096) as u8;
    let second = w / 512 % 2 == 1;
    if takes_operand(major, second) {
        return Instr::Memory {
            major,
            second,
            x: w / 2048 % 2 == 1,
            i: w / 1024 % 2 == 1,
            mode: decode_mode(w),
        };
    }
    match major {
        4 => decode_load_code(w),
        5 => decode_loop_branch(w),
        12 if second => decode_on_code(w),
        12 => decode_branch(w),
        _ => Instr::Illegal(w),
    }
}
