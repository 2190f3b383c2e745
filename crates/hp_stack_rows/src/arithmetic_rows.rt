//! The rows of major 0 that reckon and compare.
ghost use Rattle.std.specs.Prelude.{◌≡◌, ◌≤◌, length, bit_or, bit_xor, bit_and};
ghost use Rattle.hp_word.specs.Words.{added, double_added, double_subtracted, logically_added, logically_compared, logically_subtracted, subtracted, words_compared};
ghost use Rattle.hp_session.specs.State.{Does};
ghost use Rattle.hp_stack_rows.specs.StackRows.{binary, bitwise, byte_tested, comparison, division, double_binary, double_comparison, double_negative, double_tested, inverted, logical_binary, logical_division, logical_product, negative, product, stepped, stepped_below, tested, lower_double, upper_double, character_code};

use hp_session::{Session, code_of, double_of, high_of, low_of};
use hp_word::{Arith, Code, Trap, Wide};

/// The condition code of a byte as a character.
#[tactic(auto, unfolding(crate::specs::StackRows::character_code))]
pub fn character(byte: u8) -> Code
    ensures { result ≡ character_code byte }
{
    match byte {
        b'A'..=b'Z' | b'a'..=b'z' => Code::Equal,
        b'0'..=b'9' => Code::Greater,
        _ => Code::Less,
    }
}

/// The double in the two top words.
fn upper(session: &Session) -> u32
    requires { 2 ≤ length session.now.stack }
    ensures { result ≡ upper_double session.now }
{
    double_of(session.word(1), session.word(0))
}

/// The double beneath them.
fn lower(session: &Session) -> u32
    requires { 4 ≤ length session.now.stack }
    ensures { result ≡ lower_double session.now }
{
    double_of(session.word(3), session.word(2))
}

/// ADD.
#[tactic(auto, unfolding(crate::specs::StackRows::binary))]
pub(crate) fn add(session: &mut Session) -> Result<(), Trap>
    ensures { Does (binary added session.old) session.old result session.new }
{
    session.need(2)?;
    session.settle(2, hp_word::add(session.word(1), session.word(0)))
}

/// SUB.
#[tactic(auto, unfolding(crate::specs::StackRows::binary))]
pub(crate) fn subtract(session: &mut Session) -> Result<(), Trap>
    ensures { Does (binary subtracted session.old) session.old result session.new }
{
    session.need(2)?;
    session.settle(2, hp_word::sub(session.word(1), session.word(0)))
}

/// MPY.
#[tactic(auto, unfolding(crate::specs::StackRows::product))]
pub(crate) fn multiply(session: &mut Session) -> Result<(), Trap>
    ensures { Does (product session.old) session.old result session.new }
{
    session.need(2)?;
    let carry = session.regs.carry;
    let r = hp_word::mpy(session.word(1), session.word(0));
    session.settle(2, Arith { carry, ..r })
}

/// NEG.
#[tactic(auto, unfolding(crate::specs::StackRows::negative))]
pub(crate) fn negate(session: &mut Session) -> Result<(), Trap>
    ensures { Does (negative session.old) session.old result session.new }
{
    session.need(1)?;
    let carry = session.regs.carry;
    let r = hp_word::neg(session.word(0));
    session.settle(1, Arith { carry, ..r })
}

/// INCA.
#[tactic(auto, unfolding(crate::specs::StackRows::stepped))]
pub(crate) fn increase(session: &mut Session) -> Result<(), Trap>
    ensures { Does (stepped added session.old) session.old result session.new }
{
    session.need(1)?;
    session.settle(1, hp_word::add(session.word(0), 1))
}

/// DECA.
#[tactic(auto, unfolding(crate::specs::StackRows::stepped))]
pub(crate) fn decrease(session: &mut Session) -> Result<(), Trap>
    ensures { Does (stepped subtracted session.old) session.old result session.new }
{
    session.need(1)?;
    session.settle(1, hp_word::sub(session.word(0), 1))
}

/// INCB.
#[tactic(auto, unfolding(crate::specs::StackRows::stepped_below))]
pub(crate) fn increase_below(session: &mut Session) -> Result<(), Trap>
    ensures { Does (stepped_below added session.old) session.old result session.new }
{
    session.need(2)?;
    session.settle_below(hp_word::add(session.word(1), 1))
}

/// DECB.
#[tactic(auto, unfolding(crate::specs::StackRows::stepped_below))]
pub(crate) fn decrease_below(session: &mut Session) -> Result<(), Trap>
    ensures { Does (stepped_below subtracted session.old) session.old result session.new }
{
    session.need(2)?;
    session.settle_below(hp_word::sub(session.word(1), 1))
}

/// DIV.
#[tactic(auto, unfolding(crate::specs::StackRows::division))]
pub(crate) fn divide(session: &mut Session) -> Result<(), Trap>
    ensures { Does (division session.old) session.old result session.new }
{
    session.need(2)?;
    session.settle_quotient(hp_word::div(session.word(1), session.word(0)))
}

/// LDIV.
#[tactic(auto, unfolding(crate::specs::StackRows::logical_division))]
pub(crate) fn divide_double(session: &mut Session) -> Result<(), Trap>
    ensures { Does (logical_division session.old) session.old result session.new }
{
    session.need(3)?;
    let dividend = double_of(session.word(2), session.word(1));
    session.settle_logical_quotient(hp_word::ldiv(dividend, session.word(0)))
}

/// LADD.
#[tactic(auto, unfolding(crate::specs::StackRows::logical_binary))]
pub(crate) fn add_logically(session: &mut Session) -> Result<(), Trap>
    ensures { Does (logical_binary logically_added session.old) session.old result session.new }
{
    session.need(2)?;
    session.settle_logical(hp_word::ladd(session.word(1), session.word(0)))
}

/// LSUB.
#[tactic(auto, unfolding(crate::specs::StackRows::logical_binary))]
pub(crate) fn subtract_logically(session: &mut Session) -> Result<(), Trap>
    ensures { Does (logical_binary logically_subtracted session.old) session.old result session.new }
{
    session.need(2)?;
    session.settle_logical(hp_word::lsub(session.word(1), session.word(0)))
}

/// LMPY.
#[tactic(auto, unfolding(crate::specs::StackRows::logical_product))]
pub(crate) fn multiply_logically(session: &mut Session) -> Result<(), Trap>
    ensures { Does (logical_product session.old) session.old result session.new }
{
    session.need(2)?;
    let r = hp_word::lmpy(session.word(1), session.word(0));
    session.replace(2, &[high_of(r.value), low_of(r.value)]);
    session.regs.carry = r.carry;
    session.regs.code = r.code;
    Ok(())
}

/// DADD.
#[tactic(auto, unfolding(crate::specs::StackRows::double_binary))]
pub(crate) fn add_doubles(session: &mut Session) -> Result<(), Trap>
    ensures { Does (double_binary double_added session.old) session.old result session.new }
{
    session.need(4)?;
    session.settle_double(4, hp_word::dadd(lower(session), upper(session)))
}

/// DSUB.
#[tactic(auto, unfolding(crate::specs::StackRows::double_binary))]
pub(crate) fn subtract_doubles(session: &mut Session) -> Result<(), Trap>
    ensures { Does (double_binary double_subtracted session.old) session.old result session.new }
{
    session.need(4)?;
    session.settle_double(4, hp_word::dsub(lower(session), upper(session)))
}

/// DNEG.
#[tactic(auto, unfolding(crate::specs::StackRows::double_negative))]
pub(crate) fn negate_double(session: &mut Session) -> Result<(), Trap>
    ensures { Does (double_negative session.old) session.old result session.new }
{
    session.need(2)?;
    let carry = session.regs.carry;
    let r = hp_word::dneg(upper(session));
    session.settle_double(2, Wide { carry, ..r })
}

/// OR.
#[tactic(auto, unfolding(crate::specs::StackRows::bitwise))]
pub(crate) fn bits_of_either(session: &mut Session) -> Result<(), Trap>
    ensures { Does (bitwise bit_or session.old) session.old result session.new }
{
    session.need(2)?;
    session.leave_coded(2, session.word(1) | session.word(0));
    Ok(())
}

/// XOR.
#[tactic(auto, unfolding(crate::specs::StackRows::bitwise))]
pub(crate) fn bits_of_one(session: &mut Session) -> Result<(), Trap>
    ensures { Does (bitwise bit_xor session.old) session.old result session.new }
{
    session.need(2)?;
    session.leave_coded(2, session.word(1) ^ session.word(0));
    Ok(())
}

/// AND.
#[tactic(auto, unfolding(crate::specs::StackRows::bitwise))]
pub(crate) fn bits_of_both(session: &mut Session) -> Result<(), Trap>
    ensures { Does (bitwise bit_and session.old) session.old result session.new }
{
    session.need(2)?;
    session.leave_coded(2, session.word(1) & session.word(0));
    Ok(())
}

/// NOT.
#[tactic(auto, unfolding(crate::specs::StackRows::inverted))]
pub(crate) fn invert(session: &mut Session) -> Result<(), Trap>
    ensures { Does (inverted session.old) session.old result session.new }
{
    session.need(1)?;
    session.leave_coded(1, 65535 - session.word(0));
    Ok(())
}

/// CMP.
#[tactic(auto, unfolding(crate::specs::StackRows::comparison))]
pub(crate) fn compare(session: &mut Session) -> Result<(), Trap>
    ensures { Does (comparison words_compared session.old) session.old result session.new }
{
    session.need(2)?;
    let code = hp_word::cmp(session.word(1), session.word(0));
    session.delete_coded(2, code);
    Ok(())
}

/// LCMP.
#[tactic(auto, unfolding(crate::specs::StackRows::comparison))]
pub(crate) fn compare_logically(session: &mut Session) -> Result<(), Trap>
    ensures { Does (comparison logically_compared session.old) session.old result session.new }
{
    session.need(2)?;
    let code = hp_word::lcmp(session.word(1), session.word(0));
    session.delete_coded(2, code);
    Ok(())
}

/// DCMP.
#[tactic(auto, unfolding(crate::specs::StackRows::double_comparison))]
pub(crate) fn compare_doubles(session: &mut Session) -> Result<(), Trap>
    ensures { Does (double_comparison session.old) session.old result session.new }
{
    session.need(4)?;
    let code = hp_word::dcmp(lower(session), upper(session));
    session.delete_coded(4, code);
    Ok(())
}

/// TEST.
#[tactic(auto, unfolding(crate::specs::StackRows::tested))]
pub(crate) fn test(session: &mut Session) -> Result<(), Trap>
    ensures { Does (tested session.old) session.old result session.new }
{
    session.need(1)?;
    session.regs.code = code_of(session.word(0));
    Ok(())
}

/// DTST.
#[tactic(auto, unfolding(crate::specs::StackRows::double_tested))]
pub(crate) fn test_double(session: &mut Session) -> Result<(), Trap>
    ensures { Does (double_tested session.old) session.old result session.new }
{
    session.need(2)?;
    session.regs.code = hp_word::dcmp(upper(session), 0);
    Ok(())
}

/// BTST.
#[tactic(auto, unfolding(crate::specs::StackRows::byte_tested))]
pub(crate) fn test_byte(session: &mut Session) -> Result<(), Trap>
    ensures { Does (byte_tested session.old) session.old result session.new }
{
    session.need(1)?;
    session.regs.code = character((session.word(0) % 256) as u8);
    Ok(())
}
