//! Operations on doubles: two words, the high one first, the low one on top.
ghost use Rattle.std.specs.Prelude.{◌≡◌, ◌≤◌, length};
ghost use Rattle.hp_word.specs.Words.{double_added, double_subtracted};
ghost use Rattle.hp_word.specs.Bytes.{double};
ghost use Rattle.hp_tos.specs.Calls.{word_at};
ghost use Rattle.hp_stack_rows.specs.StackRows.{double_binary, double_comparison, double_copied, double_negative, double_tested, doubles_exchanged, logical_division};
ghost use Rattle.hp_tos.specs.StackView.{seen};
ghost use Rattle.hp_rows.specs.Numbers.{uses};
ghost use Rattle.hp_rows.specs.Performs.{Performs};

use crate::results::{leave_quotient, settle_double};
use hp_rows::{delete_coded, need, push_all};
use hp_session::{Regs, double_of};
use hp_tos::Stack;
use hp_word::{Trap, Wide};

/// The double in the two top words.
fn upper(stack: &Stack) -> u32
    requires { 2 ≤ length (seen stack.now).words }
    ensures { result ≡ double (word_at 1 (seen stack.now)) (word_at 0 (seen stack.now)) }
{
    double_of(stack.word(1), stack.word(0))
}

/// The double beneath them.
fn lower(stack: &Stack) -> u32
    requires { 4 ≤ length (seen stack.now).words }
    ensures { result ≡ double (word_at 3 (seen stack.now)) (word_at 2 (seen stack.now)) }
{
    double_of(stack.word(3), stack.word(2))
}

/// DADD: the lower double plus the upper one.
#[tactic(auto, unfolding(hp_stack_rows::specs::StackRows::double_binary, hp_session::specs::Results::settled_double))]
pub(crate) fn add_doubles(regs: &mut Regs, stack: &mut Stack) -> Result<(), Trap>
    ensures { Performs (double_binary double_added) (uses 4 2) regs.old (seen stack.old) result regs.new (seen stack.new) }
{
    need(stack, 4)?;
    settle_double(regs, stack, 4, hp_word::dadd(lower(stack), upper(stack)))
}

/// DSUB: the lower double minus the upper one.
#[tactic(auto, unfolding(hp_stack_rows::specs::StackRows::double_binary, hp_session::specs::Results::settled_double))]
pub(crate) fn subtract_doubles(regs: &mut Regs, stack: &mut Stack) -> Result<(), Trap>
    ensures { Performs (double_binary double_subtracted) (uses 4 2) regs.old (seen stack.old) result regs.new (seen stack.new) }
{
    need(stack, 4)?;
    settle_double(regs, stack, 4, hp_word::dsub(lower(stack), upper(stack)))
}

/// DNEG: minus the double. The carry stays.
#[tactic(auto, unfolding(hp_stack_rows::specs::StackRows::double_negative, hp_session::specs::Results::settled_double))]
pub(crate) fn negate_double(regs: &mut Regs, stack: &mut Stack) -> Result<(), Trap>
    ensures { Performs double_negative (uses 2 2) regs.old (seen stack.old) result regs.new (seen stack.new) }
{
    need(stack, 2)?;
    let carry = regs.carry;
    let r = hp_word::dneg(upper(stack));
    settle_double(regs, stack, 2, Wide { carry, ..r })
}

/// DCMP: the lower double against the upper one. Both are deleted.
#[tactic(auto, unfolding(hp_stack_rows::specs::StackRows::double_comparison))]
pub(crate) fn compare_doubles(regs: &mut Regs, stack: &mut Stack) -> Result<(), Trap>
    ensures { Performs double_comparison (uses 4 0) regs.old (seen stack.old) result regs.new (seen stack.new) }
{
    need(stack, 4)?;
    let code = hp_word::dcmp(lower(stack), upper(stack));
    delete_coded(regs, stack, 4, code);
    Ok(())
}

/// DTST: the code of the double, which stays.
#[tactic(auto, unfolding(hp_stack_rows::specs::StackRows::double_tested))]
pub(crate) fn test_double(regs: &mut Regs, stack: &mut Stack) -> Result<(), Trap>
    ensures { Performs double_tested (uses 2 2) regs.old (seen stack.old) result regs.new (seen stack.new) }
{
    need(stack, 2)?;
    regs.code = hp_word::dcmp(upper(stack), 0);
    Ok(())
}

/// DXCH: the two top doubles in each other's place.
#[tactic(auto, unfolding(hp_stack_rows::specs::StackRows::doubles_exchanged))]
pub(crate) fn exchange_doubles(regs: &mut Regs, stack: &mut Stack) -> Result<(), Trap>
    ensures { Performs doubles_exchanged (uses 4 4) regs.old (seen stack.old) result regs.new (seen stack.new) }
{
    need(stack, 4)?;
    let (d, c) = (stack.word(3), stack.word(2));
    let (b, a) = (stack.word(1), stack.word(0));
    stack.replace(4, &[b, a, d, c]);
    Ok(())
}

/// DDUP: the double once more.
#[tactic(auto, unfolding(hp_stack_rows::specs::StackRows::double_copied))]
pub(crate) fn copy_double(regs: &mut Regs, stack: &mut Stack) -> Result<(), Trap>
    ensures { Performs double_copied (uses 2 4) regs.old (seen stack.old) result regs.new (seen stack.new) }
{
    need(stack, 2)?;
    push_all(stack, &[stack.word(1), stack.word(0)])
}

/// LDIV: the unsigned double in C and B by A, the quotient and on top the remainder. The overflow bit stays.
#[tactic(auto, unfolding(hp_stack_rows::specs::StackRows::logical_division))]
pub(crate) fn divide_double(regs: &mut Regs, stack: &mut Stack) -> Result<(), Trap>
    ensures { Performs logical_division (uses 3 2) regs.old (seen stack.old) result regs.new (seen stack.new) }
{
    need(stack, 3)?;
    let dividend = double_of(stack.word(2), stack.word(1));
    let q = hp_word::ldiv(dividend, stack.word(0)).ok_or(Trap::DivideByZero)?;
    leave_quotient(regs, stack, 3, q.quotient, q.remainder);
    Ok(())
}
