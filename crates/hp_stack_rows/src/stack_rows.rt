//! The rows of major 0, by the operation's code.
ghost use Rattle.std.specs.Prelude.{◌≡◌};
ghost use Rattle.hp_session.specs.State.{Does};
ghost use Rattle.hp_stack_rows.specs.StackRows.{operated};

use crate::arithmetic_rows::{
    add, add_doubles, add_logically, bits_of_both, bits_of_either, bits_of_one, compare,
    compare_doubles, compare_logically, decrease, decrease_below, divide, divide_double, increase,
    increase_below, invert, multiply, multiply_logically, negate, negate_double, subtract,
    subtract_doubles, subtract_logically, test, test_byte, test_double,
};
use crate::placing_rows::{
    add_to_x, add_x, copy, copy_double, delete_below, exchange, exchange_doubles, exchange_x,
    exchange_x_below, rotate, set_below, take_x, take_x_below,
};
use hp_instr::Op;
use hp_session::Session;
use hp_word::Trap;

/// The row of an operation on the top words.
#[tactic(auto, unfolding(crate::specs::StackRows::operated))]
pub fn operate(session: &mut Session, op: Op) -> Result<(), Trap>
    ensures { Does (operated op.code session.old) session.old result session.new }
{
    match op {
        Op::NOP => Ok(()),
        Op::DELB => delete_below(session),
        Op::DDEL => session.take(2),
        Op::ZROX => {
            session.regs.x = 0;
            Ok(())
        }
        Op::INCX => {
            session.regs.x = session.regs.x.wrapping_add(1);
            Ok(())
        }
        Op::DECX => {
            session.regs.x = session.regs.x.wrapping_sub(1);
            Ok(())
        }
        Op::ZERO => session.push(0),
        Op::DZRO => session.push_all(&[0, 0]),
        Op::DCMP => compare_doubles(session),
        Op::DADD => add_doubles(session),
        Op::DSUB => subtract_doubles(session),
        Op::DNEG => negate_double(session),
        Op::DXCH => exchange_doubles(session),
        Op::CMP => compare(session),
        Op::ADD => add(session),
        Op::SUB => subtract(session),
        Op::MPY => multiply(session),
        Op::DIV => divide(session),
        Op::NEG => negate(session),
        Op::TEST => test(session),
        Op::STBX => take_x_below(session),
        Op::DTST => test_double(session),
        Op::BTST => test_byte(session),
        Op::XCH => exchange(session),
        Op::INCA => increase(session),
        Op::DECA => decrease(session),
        Op::XAX => exchange_x(session),
        Op::ADAX => add_to_x(session),
        Op::ADXA => add_x(session),
        Op::DEL => session.take(1),
        Op::ZROB => set_below(session, 0),
        Op::LDXB => {
            let x = session.regs.x;
            set_below(session, x)
        }
        Op::STAX => take_x(session),
        Op::LDXA => session.push(session.regs.x),
        Op::DUP => copy(session),
        Op::DDUP => copy_double(session),
        Op::CAB => rotate(session),
        Op::LCMP => compare_logically(session),
        Op::LADD => add_logically(session),
        Op::LSUB => subtract_logically(session),
        Op::LMPY => multiply_logically(session),
        Op::LDIV => divide_double(session),
        Op::NOT => invert(session),
        Op::OR => bits_of_either(session),
        Op::XOR => bits_of_one(session),
        Op::AND => bits_of_both(session),
        Op::INCB => increase_below(session),
        Op::DECB => decrease_below(session),
        Op::XBX => exchange_x_below(session),
        _ => Err(Trap::Illegal),
    }
}
