//! Logical operations, bits, comparisons and tests of words. B is the lower operand, A the one on top.
ghost use Rattle.std.specs.Prelude.{◌≡◌, bit_and, bit_or, bit_xor};
ghost use Rattle.hp_word.specs.Words.{logically_added, logically_compared, logically_subtracted, words_compared};
ghost use Rattle.hp_stack_rows.specs.StackRows.{bitwise, byte_tested, comparison, inverted, logical_binary, logical_product, tested};
ghost use Rattle.hp_tos.specs.StackView.{seen};
ghost use Rattle.hp_rows.specs.Numbers.{uses};
ghost use Rattle.hp_rows.specs.Performs.{Performs};

use crate::results::settle_logical;
use hp_rows::{delete_coded, leave_coded, need};
use hp_session::{Regs, code_of, high_of, low_of};
use hp_stack_rows::character;
use hp_tos::Stack;
use hp_word::Trap;

/// LADD: B plus A, modulo 65,536. The overflow bit stays.
#[tactic(auto, unfolding(hp_stack_rows::specs::StackRows::logical_binary, hp_session::specs::Results::logical))]
pub(crate) fn add_logically(regs: &mut Regs, stack: &mut Stack) -> Result<(), Trap>
    ensures { Performs (logical_binary logically_added) (uses 2 1) regs.old (seen stack.old) result regs.new (seen stack.new) }
{
    need(stack, 2)?;
    settle_logical(regs, stack, hp_word::ladd(stack.word(1), stack.word(0)));
    Ok(())
}

/// LSUB: B minus A, modulo 65,536. The overflow bit stays.
#[tactic(auto, unfolding(hp_stack_rows::specs::StackRows::logical_binary, hp_session::specs::Results::logical))]
pub(crate) fn subtract_logically(regs: &mut Regs, stack: &mut Stack) -> Result<(), Trap>
    ensures { Performs (logical_binary logically_subtracted) (uses 2 1) regs.old (seen stack.old) result regs.new (seen stack.new) }
{
    need(stack, 2)?;
    settle_logical(regs, stack, hp_word::lsub(stack.word(1), stack.word(0)));
    Ok(())
}

/// LMPY: B times A as a double. The overflow bit stays.
#[tactic(auto, unfolding(hp_stack_rows::specs::StackRows::logical_product))]
pub(crate) fn multiply_logically(regs: &mut Regs, stack: &mut Stack) -> Result<(), Trap>
    ensures { Performs logical_product (uses 2 2) regs.old (seen stack.old) result regs.new (seen stack.new) }
{
    need(stack, 2)?;
    let r = hp_word::lmpy(stack.word(1), stack.word(0));
    stack.replace(2, &[high_of(r.value), low_of(r.value)]);
    regs.carry = r.carry;
    regs.code = r.code;
    Ok(())
}

/// OR: the bits that are on in B or in A.
#[tactic(auto, unfolding(hp_stack_rows::specs::StackRows::bitwise))]
pub(crate) fn bits_of_either(regs: &mut Regs, stack: &mut Stack) -> Result<(), Trap>
    ensures { Performs (bitwise bit_or) (uses 2 1) regs.old (seen stack.old) result regs.new (seen stack.new) }
{
    need(stack, 2)?;
    leave_coded(regs, stack, 2, stack.word(1) | stack.word(0));
    Ok(())
}

/// XOR: the bits that are on in one of B and A alone.
#[tactic(auto, unfolding(hp_stack_rows::specs::StackRows::bitwise))]
pub(crate) fn bits_of_one(regs: &mut Regs, stack: &mut Stack) -> Result<(), Trap>
    ensures { Performs (bitwise bit_xor) (uses 2 1) regs.old (seen stack.old) result regs.new (seen stack.new) }
{
    need(stack, 2)?;
    leave_coded(regs, stack, 2, stack.word(1) ^ stack.word(0));
    Ok(())
}

/// AND: the bits that are on in B and in A.
#[tactic(auto, unfolding(hp_stack_rows::specs::StackRows::bitwise))]
pub(crate) fn bits_of_both(regs: &mut Regs, stack: &mut Stack) -> Result<(), Trap>
    ensures { Performs (bitwise bit_and) (uses 2 1) regs.old (seen stack.old) result regs.new (seen stack.new) }
{
    need(stack, 2)?;
    leave_coded(regs, stack, 2, stack.word(1) & stack.word(0));
    Ok(())
}

/// NOT: each bit of A inverted.
#[tactic(auto, unfolding(hp_stack_rows::specs::StackRows::inverted))]
pub(crate) fn invert(regs: &mut Regs, stack: &mut Stack) -> Result<(), Trap>
    ensures { Performs inverted (uses 1 1) regs.old (seen stack.old) result regs.new (seen stack.new) }
{
    need(stack, 1)?;
    leave_coded(regs, stack, 1, 65535 - stack.word(0));
    Ok(())
}

/// CMP: B against A, signed. Both are deleted.
#[tactic(auto, unfolding(hp_stack_rows::specs::StackRows::comparison))]
pub(crate) fn compare(regs: &mut Regs, stack: &mut Stack) -> Result<(), Trap>
    ensures { Performs (comparison words_compared) (uses 2 0) regs.old (seen stack.old) result regs.new (seen stack.new) }
{
    need(stack, 2)?;
    let code = hp_word::cmp(stack.word(1), stack.word(0));
    delete_coded(regs, stack, 2, code);
    Ok(())
}

/// LCMP: B against A, unsigned. Both are deleted.
#[tactic(auto, unfolding(hp_stack_rows::specs::StackRows::comparison))]
pub(crate) fn compare_logically(regs: &mut Regs, stack: &mut Stack) -> Result<(), Trap>
    ensures { Performs (comparison logically_compared) (uses 2 0) regs.old (seen stack.old) result regs.new (seen stack.new) }
{
    need(stack, 2)?;
    let code = hp_word::lcmp(stack.word(1), stack.word(0));
    delete_coded(regs, stack, 2, code);
    Ok(())
}

/// TEST: the code of A, which stays.
#[tactic(auto, unfolding(hp_stack_rows::specs::StackRows::tested))]
pub(crate) fn test(regs: &mut Regs, stack: &mut Stack) -> Result<(), Trap>
    ensures { Performs tested (uses 1 1) regs.old (seen stack.old) result regs.new (seen stack.new) }
{
    need(stack, 1)?;
    regs.code = code_of(stack.word(0));
    Ok(())
}

/// BTST: the code of A's right byte as a character; A stays.
#[tactic(auto, unfolding(hp_stack_rows::specs::StackRows::byte_tested))]
pub(crate) fn test_byte(regs: &mut Regs, stack: &mut Stack) -> Result<(), Trap>
    ensures { Performs byte_tested (uses 1 1) regs.old (seen stack.old) result regs.new (seen stack.new) }
{
    need(stack, 1)?;
    regs.code = character((stack.word(0) % 256) as u8);
    Ok(())
}
