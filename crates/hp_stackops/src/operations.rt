//! The operations of major 0, by the operation's code.
ghost use Rattle.hp_tos.specs.StackView.{seen};
ghost use Rattle.hp_stack_rows.specs.StackRows.{operated};
ghost use Rattle.hp_rows.specs.Performs.{Performs};
ghost use Rattle.hp_stackops.specs.StackUses.{used_by};

use crate::arithmetic::{
    add, decrease, decrease_below, divide, increase, increase_below, multiply, negate, subtract,
};
use crate::doubles::{
    add_doubles, compare_doubles, copy_double, divide_double, exchange_doubles, negate_double,
    subtract_doubles, test_double,
};
use crate::logic::{
    add_logically, bits_of_both, bits_of_either, bits_of_one, compare, compare_logically, invert,
    multiply_logically, subtract_logically, test, test_byte,
};
use crate::placing::{
    add_to_x, add_x, copy, delete, delete_below, exchange, exchange_x, exchange_x_below, push_word,
    push_zeros, rotate, set_below, set_x, take_x, take_x_below,
};
use hp_instr::Op;
use hp_session::Regs;
use hp_tos::Stack;
use hp_word::Trap;

/// Does an operation of major 0 on the words at the top of a stack, of which some may stand in registers.
///
/// A trap is the one that the operation's row gives. It leaves the list of words, X, Q and the flags as they were; registers
/// may have been filled by then. A code that is no operation traps Illegal. Takes no memory.
#[tactic(auto, unfolding(hp_stack_rows::specs::StackRows::operated, crate::specs::StackUses::used_by))]
pub fn stack_op(op: Op, regs: &mut Regs, stack: &mut Stack) -> Result<(), Trap>
    ensures { Performs (operated op.code) (used_by op.code) regs.old (seen stack.old) result regs.new (seen stack.new) }
{
    match op {
        Op::NOP => Ok(()),
        Op::DELB => delete_below(regs, stack),
        Op::DDEL => delete(regs, stack, 2),
        Op::ZROX => set_x(regs, stack, 0),
        Op::INCX => set_x(regs, stack, regs.x.wrapping_add(1)),
        Op::DECX => set_x(regs, stack, regs.x.wrapping_sub(1)),
        Op::ZERO => push_word(regs, stack, 0),
        Op::DZRO => push_zeros(regs, stack),
        Op::DCMP => compare_doubles(regs, stack),
        Op::DADD => add_doubles(regs, stack),
        Op::DSUB => subtract_doubles(regs, stack),
        Op::DNEG => negate_double(regs, stack),
        Op::DXCH => exchange_doubles(regs, stack),
        Op::CMP => compare(regs, stack),
        Op::ADD => add(regs, stack),
        Op::SUB => subtract(regs, stack),
        Op::MPY => multiply(regs, stack),
        Op::DIV => divide(regs, stack),
        Op::NEG => negate(regs, stack),
        Op::TEST => test(regs, stack),
        Op::STBX => take_x_below(regs, stack),
        Op::DTST => test_double(regs, stack),
        Op::BTST => test_byte(regs, stack),
        Op::XCH => exchange(regs, stack),
        Op::INCA => increase(regs, stack),
        Op::DECA => decrease(regs, stack),
        Op::XAX => exchange_x(regs, stack),
        Op::ADAX => add_to_x(regs, stack),
        Op::ADXA => add_x(regs, stack),
        Op::DEL => delete(regs, stack, 1),
        Op::ZROB => set_below(regs, stack, 0),
        Op::LDXB => set_below(regs, stack, regs.x),
        Op::STAX => take_x(regs, stack),
        Op::LDXA => push_word(regs, stack, regs.x),
        Op::DUP => copy(regs, stack),
        Op::DDUP => copy_double(regs, stack),
        Op::CAB => rotate(regs, stack),
        Op::LCMP => compare_logically(regs, stack),
        Op::LADD => add_logically(regs, stack),
        Op::LSUB => subtract_logically(regs, stack),
        Op::LMPY => multiply_logically(regs, stack),
        Op::LDIV => divide_double(regs, stack),
        Op::NOT => invert(regs, stack),
        Op::OR => bits_of_either(regs, stack),
        Op::XOR => bits_of_one(regs, stack),
        Op::AND => bits_of_both(regs, stack),
        Op::INCB => increase_below(regs, stack),
        Op::DECB => decrease_below(regs, stack),
        Op::XBX => exchange_x_below(regs, stack),
        _ => Err(Trap::Illegal),
    }
}
