//! The rows of major 2, and those of major 3 that work on X and on the number of words.
ghost use Rattle.std.specs.Prelude.{◌≡◌, ◌<◌, ◌≤◌, ◌+◌, length, bit_and, bit_or, bit_xor, replicate, IsTrue};
ghost use Rattle.hp_word.specs.Words.{added, subtracted, multiplied};
ghost use Rattle.hp_instr.specs.Bits.{bits};
ghost use Rattle.hp_instr.specs.Fields.{field_length};
ghost use Rattle.hp_instr.specs.Given.{has_word};
ghost use Rattle.hp_instr.specs.declared.instruction.Instr.TheVariants.{Immediate};
ghost use Rattle.hp_session.specs.State.{Does, pushing_all};
ghost use Rattle.hp_word_rows.specs.WordRows.{split_mode, joined_mode, minus, compared_with, with_number, divided_by, field_taken, field_put, bits_with, immediate_row, having_room, roomy, count_row};

use hp_instr::{control, immediate};
use hp_session::{Session, code_of};
use hp_word::{Arith, Trap};

/// Minus a number.
fn minus(n: u8) -> u16
    ensures { result ≡ minus n }
{
    0u16.wrapping_sub(n as u16)
}

/// The length of a field, by its number's right four bits.
fn field_length(n: u8) -> u8
    ensures value { result ≡ field_length n }
    ensures some { 1 ≤ result }
{
    if n % 16 == 0 { 16 } else { n % 16 }
}

/// SPLT.
fn split(session: &mut Session) -> Result<(), Trap>
    ensures { Does (split_mode session.old) session.old result session.new }
{
    if session.split {
        return Err(Trap::Mode);
    }
    session.split = true;
    Ok(())
}

/// JOIN.
fn join(session: &mut Session) -> Result<(), Trap>
    ensures { Does (joined_mode session.old) session.old result session.new }
{
    if !session.split {
        return Err(Trap::Mode);
    }
    session.split = false;
    Ok(())
}

/// CMPI and CMPN.
#[tactic(auto, unfolding(crate::specs::WordRows::compared_with))]
fn compare_with(session: &mut Session, n: u16) -> Result<(), Trap>
    ensures { Does (compared_with n session.old) session.old result session.new }
{
    session.need(1)?;
    let code = hp_word::cmp(session.word(0), n);
    session.delete_coded(1, code);
    Ok(())
}

/// ADDI.
#[tactic(auto, unfolding(crate::specs::WordRows::with_number))]
fn add_number(session: &mut Session, n: u16) -> Result<(), Trap>
    ensures { Does (with_number added n session.old) session.old result session.new }
{
    session.need(1)?;
    let carry = session.regs.carry;
    let r = hp_word::add(session.word(0), n);
    session.settle(1, Arith { carry, ..r })
}

/// SUBI.
#[tactic(auto, unfolding(crate::specs::WordRows::with_number))]
fn subtract_number(session: &mut Session, n: u16) -> Result<(), Trap>
    ensures { Does (with_number subtracted n session.old) session.old result session.new }
{
    session.need(1)?;
    let carry = session.regs.carry;
    let r = hp_word::sub(session.word(0), n);
    session.settle(1, Arith { carry, ..r })
}

/// MPYI.
#[tactic(auto, unfolding(crate::specs::WordRows::with_number))]
fn multiply_number(session: &mut Session, n: u16) -> Result<(), Trap>
    ensures { Does (with_number multiplied n session.old) session.old result session.new }
{
    session.need(1)?;
    let carry = session.regs.carry;
    let r = hp_word::mpy(session.word(0), n);
    session.settle(1, Arith { carry, ..r })
}

/// DIVI.
#[tactic(auto, unfolding(crate::specs::WordRows::divided_by))]
fn divide_number(session: &mut Session, n: u16) -> Result<(), Trap>
    ensures { Does (divided_by n session.old) session.old result session.new }
{
    session.need(1)?;
    let q = hp_word::div(session.word(0), n).ok_or(Trap::DivideByZero)?;
    if q.overflow {
        return Err(Trap::IntegerOverflow);
    }
    session.leave(1, q.quotient);
    session.regs.overflow = false;
    session.regs.code = code_of(q.quotient);
    Ok(())
}

/// EXF.
#[tactic(auto, unfolding(crate::specs::WordRows::field_taken))]
fn take_field(session: &mut Session, n: u8) -> Result<(), Trap>
    requires { bits 8 11 n + field_length n ≤ 16 }
    ensures { Does (field_taken n session.old) session.old result session.new }
{
    session.need(1)?;
    session.leave_coded(
        1,
        hp_word::extract(session.word(0), n / 16, field_length(n)),
    );
    Ok(())
}

/// DPF.
#[tactic(auto, unfolding(crate::specs::WordRows::field_put))]
fn put_field(session: &mut Session, n: u8) -> Result<(), Trap>
    requires { bits 8 11 n + field_length n ≤ 16 }
    ensures { Does (field_put n session.old) session.old result session.new }
{
    session.need(2)?;
    let (b, a) = (session.word(1), session.word(0));
    session.leave_coded(2, hp_word::deposit(b, n / 16, field_length(n), a));
    Ok(())
}

/// ANDI.
#[tactic(auto, unfolding(crate::specs::WordRows::bits_with))]
fn bits_of_both_with(session: &mut Session, n: u16) -> Result<(), Trap>
    ensures { Does (bits_with bit_and n session.old) session.old result session.new }
{
    session.need(1)?;
    session.leave_coded(1, session.word(0) & n);
    Ok(())
}

/// ORI.
#[tactic(auto, unfolding(crate::specs::WordRows::bits_with))]
fn bits_of_either_with(session: &mut Session, n: u16) -> Result<(), Trap>
    ensures { Does (bits_with bit_or n session.old) session.old result session.new }
{
    session.need(1)?;
    session.leave_coded(1, session.word(0) | n);
    Ok(())
}

/// XORI.
#[tactic(auto, unfolding(crate::specs::WordRows::bits_with))]
fn bits_of_one_with(session: &mut Session, n: u16) -> Result<(), Trap>
    ensures { Does (bits_with bit_xor n session.old) session.old result session.new }
{
    session.need(1)?;
    session.leave_coded(1, session.word(0) ^ n);
    Ok(())
}

/// The row of a code of major 2.
#[tactic(auto, unfolding(crate::specs::WordRows::immediate_row), using(hp_instr::proofs::FieldRanges::exf_field, hp_instr::proofs::FieldRanges::dpf_field))]
pub fn with_immediate(session: &mut Session, which: u8, n: u8) -> Result<(), Trap>
    requires { IsTrue (has_word (Immediate which n)) }
    ensures { Does (immediate_row which n session.old) session.old result session.new }
{
    match which {
        immediate::WINDOW => if n == 1 {
            split(session)
        } else {
            join(session)
        },
        immediate::LDI => session.push(n as u16),
        immediate::LDXI => {
            session.regs.x = n as u16;
            Ok(())
        }
        immediate::CMPI => compare_with(session, n as u16),
        immediate::ADDI => add_number(session, n as u16),
        immediate::SUBI => subtract_number(session, n as u16),
        immediate::MPYI => multiply_number(session, n as u16),
        immediate::DIVI => divide_number(session, n as u16),
        immediate::LDNI => session.push(minus(n)),
        immediate::LDXN => {
            session.regs.x = minus(n);
            Ok(())
        }
        immediate::CMPN => compare_with(session, minus(n)),
        immediate::EXF => take_field(session, n),
        immediate::DPF => put_field(session, n),
        immediate::ANDI => bits_of_both_with(session, n as u16),
        immediate::ORI => bits_of_either_with(session, n as u16),
        _ => bits_of_one_with(session, n as u16),
    }
}

/// Tests the room for `n` more words.
fn have_room(session: &mut Session, n: u16) -> Result<(), Trap>
    ensures { Does (having_room n session.old) session.old result session.new }
{
    let _limit = session.stack_limit;
    if session.stack.len() + n as usize <= session.stack_limit as usize {
        Ok(())
    } else {
        Err(Trap::StackOverflow)
    }
}

/// ROOM.
#[tactic(auto, unfolding(crate::specs::WordRows::roomy))]
fn room_for(session: &mut Session, n: u8) -> Result<(), Trap>
    ensures { Does (roomy n session.old) session.old result session.new }
{
    if n != 0 {
        return have_room(session, n as u16);
    }
    session.need(1)?;
    let count = session.word(0) as usize;
    let _limit = session.stack_limit;
    if session.stack.len() - 1 + count > session.stack_limit as usize {
        return Err(Trap::StackOverflow);
    }
    session.delete(1);
    Ok(())
}

/// ADDS.
fn push_zeros(session: &mut Session, n: u8) -> Result<(), Trap>
    ensures { Does (pushing_all (replicate n 0) session.old) session.old result session.new }
{
    let _limit = session.stack_limit;
    let count = session.stack.len() + n as usize;
    if count > session.stack_limit as usize {
        return Err(Trap::StackOverflow);
    }
    session.stack.resize(count, 0).unwrap();
    Ok(())
}

/// The row of a code 4 to 8 of major 3.
#[tactic(auto, unfolding(crate::specs::WordRows::count_row))]
pub fn count_words(session: &mut Session, which: u8, n: u8) -> Result<(), Trap>
    ensures { Does (count_row which n session.old) session.old result session.new }
{
    match which {
        control::ADXI => {
            session.regs.x = session.regs.x.wrapping_add(n as u16);
            Ok(())
        }
        control::SBXI => {
            session.regs.x = session.regs.x.wrapping_sub(n as u16);
            Ok(())
        }
        control::ROOM => room_for(session, n),
        control::ADDS => push_zeros(session, n),
        _ => session.take(n as usize),
    }
}
