//! Operations of major 2 on A and a number, and X with it.
ghost use Rattle.std.specs.Prelude.{◌≡◌, ◌+◌, ◌-◌, bit_and, bit_or, bit_xor, Ok};
ghost use Rattle.hp_word.specs.Words.{added, multiplied, subtracted};
ghost use Rattle.hp_session.specs.State.{pushing, with_x, wrapped};
ghost use Rattle.hp_tos.specs.StackView.{seen};
ghost use Rattle.hp_word_rows.specs.WordRows.{bits_with, compared_with, divided_by, joined_mode, minus, split_mode, with_number};
ghost use Rattle.hp_rows.specs.Numbers.{uses};
ghost use Rattle.hp_rows.specs.Performs.{Performs};

use hp_rows::{delete_coded, leave_coded, need, push, settle};
use hp_session::Regs;
use hp_tos::Stack;
use hp_word::{Arith, Trap};

/// Minus a number, modulo 65,536.
pub(crate) fn minus(n: u8) -> u16
    ensures { result ≡ minus n }
{
    0u16.wrapping_sub(n as u16)
}

/// A word less a number, modulo 65,536.
pub(crate) fn less(w: u16, n: u8) -> u16
    ensures { result ≡ wrapped (w + 65536 - n) }
{
    w.wrapping_sub(n as u16)
}

/// LDI and LDNI: a number is pushed.
pub(crate) fn push_number(regs: &mut Regs, stack: &mut Stack, n: u16) -> Result<(), Trap>
    ensures { Performs (pushing n) (uses 0 1) regs.old (seen stack.old) result regs.new (seen stack.new) }
{
    push(stack, n)
}

/// LDXI, LDXN, ADXI and SBXI: X becomes a number.
pub(crate) fn set_x(regs: &mut Regs, stack: &mut Stack, x: u16) -> Result<(), Trap>
    ensures { Performs (λ m. Ok (with_x x m)) (uses 0 0) regs.old (seen stack.old) result regs.new (seen stack.new) }
{
    regs.x = x;
    Ok(())
}

/// CMPI and CMPN: A against a number. A is deleted.
#[tactic(auto, unfolding(hp_word_rows::specs::WordRows::compared_with))]
pub(crate) fn compare_with(regs: &mut Regs, stack: &mut Stack, n: u16) -> Result<(), Trap>
    ensures { Performs (compared_with n) (uses 1 0) regs.old (seen stack.old) result regs.new (seen stack.new) }
{
    need(stack, 1)?;
    let code = hp_word::cmp(stack.word(0), n);
    delete_coded(regs, stack, 1, code);
    Ok(())
}

/// ADDI: A plus a number. The carry stays.
#[tactic(auto, unfolding(hp_word_rows::specs::WordRows::with_number, hp_session::specs::Results::settled))]
pub(crate) fn add_number(regs: &mut Regs, stack: &mut Stack, n: u16) -> Result<(), Trap>
    ensures { Performs (with_number added n) (uses 1 1) regs.old (seen stack.old) result regs.new (seen stack.new) }
{
    need(stack, 1)?;
    let carry = regs.carry;
    let r = hp_word::add(stack.word(0), n);
    settle(regs, stack, 1, Arith { carry, ..r })
}

/// SUBI: A minus a number. The carry stays.
#[tactic(auto, unfolding(hp_word_rows::specs::WordRows::with_number, hp_session::specs::Results::settled))]
pub(crate) fn subtract_number(regs: &mut Regs, stack: &mut Stack, n: u16) -> Result<(), Trap>
    ensures { Performs (with_number subtracted n) (uses 1 1) regs.old (seen stack.old) result regs.new (seen stack.new) }
{
    need(stack, 1)?;
    let carry = regs.carry;
    let r = hp_word::sub(stack.word(0), n);
    settle(regs, stack, 1, Arith { carry, ..r })
}

/// MPYI: A times a number. The carry stays.
#[tactic(auto, unfolding(hp_word_rows::specs::WordRows::with_number, hp_session::specs::Results::settled))]
pub(crate) fn multiply_number(regs: &mut Regs, stack: &mut Stack, n: u16) -> Result<(), Trap>
    ensures { Performs (with_number multiplied n) (uses 1 1) regs.old (seen stack.old) result regs.new (seen stack.new) }
{
    need(stack, 1)?;
    let carry = regs.carry;
    let r = hp_word::mpy(stack.word(0), n);
    settle(regs, stack, 1, Arith { carry, ..r })
}

/// DIVI: the quotient of A by a number, alone. The carry stays.
#[tactic(auto, unfolding(hp_word_rows::specs::WordRows::divided_by))]
pub(crate) fn divide_number(regs: &mut Regs, stack: &mut Stack, n: u16) -> Result<(), Trap>
    ensures { Performs (divided_by n) (uses 1 1) regs.old (seen stack.old) result regs.new (seen stack.new) }
{
    need(stack, 1)?;
    let q = hp_word::div(stack.word(0), n).ok_or(Trap::DivideByZero)?;
    if q.overflow {
        return Err(Trap::IntegerOverflow);
    }
    leave_coded(regs, stack, 1, q.quotient);
    regs.overflow = false;
    Ok(())
}

/// ANDI: the bits that are on in A and in a number.
#[tactic(auto, unfolding(hp_word_rows::specs::WordRows::bits_with))]
pub(crate) fn bits_of_both_with(regs: &mut Regs, stack: &mut Stack, n: u16) -> Result<(), Trap>
    ensures { Performs (bits_with bit_and n) (uses 1 1) regs.old (seen stack.old) result regs.new (seen stack.new) }
{
    need(stack, 1)?;
    leave_coded(regs, stack, 1, stack.word(0) & n);
    Ok(())
}

/// ORI: the bits that are on in A or in a number.
#[tactic(auto, unfolding(hp_word_rows::specs::WordRows::bits_with))]
pub(crate) fn bits_of_either_with(regs: &mut Regs, stack: &mut Stack, n: u16) -> Result<(), Trap>
    ensures { Performs (bits_with bit_or n) (uses 1 1) regs.old (seen stack.old) result regs.new (seen stack.new) }
{
    need(stack, 1)?;
    leave_coded(regs, stack, 1, stack.word(0) | n);
    Ok(())
}

/// XORI: the bits that are on in one of A and a number alone.
#[tactic(auto, unfolding(hp_word_rows::specs::WordRows::bits_with))]
pub(crate) fn bits_of_one_with(regs: &mut Regs, stack: &mut Stack, n: u16) -> Result<(), Trap>
    ensures { Performs (bits_with bit_xor n) (uses 1 1) regs.old (seen stack.old) result regs.new (seen stack.new) }
{
    need(stack, 1)?;
    leave_coded(regs, stack, 1, stack.word(0) ^ n);
    Ok(())
}

/// SPLT: from whole mode to split mode.
pub(crate) fn split(regs: &mut Regs, stack: &mut Stack) -> Result<(), Trap>
    ensures { Performs split_mode (uses 0 0) regs.old (seen stack.old) result regs.new (seen stack.new) }
{
    if stack.split() {
        Ok(())
    } else {
        Err(Trap::Mode)
    }
}

/// JOIN: from split mode to whole mode.
pub(crate) fn join(regs: &mut Regs, stack: &mut Stack) -> Result<(), Trap>
    ensures { Performs joined_mode (uses 0 0) regs.old (seen stack.old) result regs.new (seen stack.new) }
{
    if stack.join() {
        Ok(())
    } else {
        Err(Trap::Mode)
    }
}
