//! Integer operations on words. B is the lower operand, A the one on top.
ghost use Rattle.hp_word.specs.Words.{added, subtracted};
ghost use Rattle.hp_stack_rows.specs.StackRows.{binary, division, negative, product, stepped, stepped_below};
ghost use Rattle.hp_tos.specs.StackView.{seen};
ghost use Rattle.hp_rows.specs.Numbers.{uses};
ghost use Rattle.hp_rows.specs.Performs.{Performs};

use crate::results::{leave_quotient, settle_below};
use hp_rows::{need, settle};
use hp_session::Regs;
use hp_tos::Stack;
use hp_word::{Arith, Trap};

/// ADD: B plus A.
#[tactic(auto, unfolding(hp_stack_rows::specs::StackRows::binary, hp_session::specs::Results::settled))]
pub(crate) fn add(regs: &mut Regs, stack: &mut Stack) -> Result<(), Trap>
    ensures { Performs (binary added) (uses 2 1) regs.old (seen stack.old) result regs.new (seen stack.new) }
{
    need(stack, 2)?;
    settle(regs, stack, 2, hp_word::add(stack.word(1), stack.word(0)))
}

/// SUB: B minus A.
#[tactic(auto, unfolding(hp_stack_rows::specs::StackRows::binary, hp_session::specs::Results::settled))]
pub(crate) fn subtract(regs: &mut Regs, stack: &mut Stack) -> Result<(), Trap>
    ensures { Performs (binary subtracted) (uses 2 1) regs.old (seen stack.old) result regs.new (seen stack.new) }
{
    need(stack, 2)?;
    settle(regs, stack, 2, hp_word::sub(stack.word(1), stack.word(0)))
}

/// MPY: B times A. The carry stays.
#[tactic(auto, unfolding(hp_stack_rows::specs::StackRows::product, hp_session::specs::Results::settled))]
pub(crate) fn multiply(regs: &mut Regs, stack: &mut Stack) -> Result<(), Trap>
    ensures { Performs product (uses 2 1) regs.old (seen stack.old) result regs.new (seen stack.new) }
{
    need(stack, 2)?;
    let carry = regs.carry;
    let r = hp_word::mpy(stack.word(1), stack.word(0));
    settle(regs, stack, 2, Arith { carry, ..r })
}

/// NEG: minus A. The carry stays.
#[tactic(auto, unfolding(hp_stack_rows::specs::StackRows::negative, hp_session::specs::Results::settled))]
pub(crate) fn negate(regs: &mut Regs, stack: &mut Stack) -> Result<(), Trap>
    ensures { Performs negative (uses 1 1) regs.old (seen stack.old) result regs.new (seen stack.new) }
{
    need(stack, 1)?;
    let carry = regs.carry;
    let r = hp_word::neg(stack.word(0));
    settle(regs, stack, 1, Arith { carry, ..r })
}

/// INCA: A plus 1.
#[tactic(auto, unfolding(hp_stack_rows::specs::StackRows::stepped, hp_session::specs::Results::settled))]
pub(crate) fn increase(regs: &mut Regs, stack: &mut Stack) -> Result<(), Trap>
    ensures { Performs (stepped added) (uses 1 1) regs.old (seen stack.old) result regs.new (seen stack.new) }
{
    need(stack, 1)?;
    settle(regs, stack, 1, hp_word::add(stack.word(0), 1))
}

/// DECA: A minus 1.
#[tactic(auto, unfolding(hp_stack_rows::specs::StackRows::stepped, hp_session::specs::Results::settled))]
pub(crate) fn decrease(regs: &mut Regs, stack: &mut Stack) -> Result<(), Trap>
    ensures { Performs (stepped subtracted) (uses 1 1) regs.old (seen stack.old) result regs.new (seen stack.new) }
{
    need(stack, 1)?;
    settle(regs, stack, 1, hp_word::sub(stack.word(0), 1))
}

/// INCB: B plus 1, under A.
#[tactic(auto, unfolding(hp_stack_rows::specs::StackRows::stepped_below, hp_session::specs::Results::settled_below))]
pub(crate) fn increase_below(regs: &mut Regs, stack: &mut Stack) -> Result<(), Trap>
    ensures { Performs (stepped_below added) (uses 2 2) regs.old (seen stack.old) result regs.new (seen stack.new) }
{
    need(stack, 2)?;
    settle_below(regs, stack, hp_word::add(stack.word(1), 1))
}

/// DECB: B minus 1, under A.
#[tactic(auto, unfolding(hp_stack_rows::specs::StackRows::stepped_below, hp_session::specs::Results::settled_below))]
pub(crate) fn decrease_below(regs: &mut Regs, stack: &mut Stack) -> Result<(), Trap>
    ensures { Performs (stepped_below subtracted) (uses 2 2) regs.old (seen stack.old) result regs.new (seen stack.new) }
{
    need(stack, 2)?;
    settle_below(regs, stack, hp_word::sub(stack.word(1), 1))
}

/// DIV: B by A, the quotient and on top the remainder. The carry stays.
#[tactic(auto, unfolding(hp_stack_rows::specs::StackRows::division))]
pub(crate) fn divide(regs: &mut Regs, stack: &mut Stack) -> Result<(), Trap>
    ensures { Performs division (uses 2 2) regs.old (seen stack.old) result regs.new (seen stack.new) }
{
    need(stack, 2)?;
    let q = hp_word::div(stack.word(1), stack.word(0)).ok_or(Trap::DivideByZero)?;
    if q.overflow {
        return Err(Trap::IntegerOverflow);
    }
    leave_quotient(regs, stack, 2, q.quotient, q.remainder);
    regs.overflow = false;
    Ok(())
}
