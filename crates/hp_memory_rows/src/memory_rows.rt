//! The rows of majors 4 to 15 with an operand in memory, and LOAD from code.
ghost use Rattle.std.specs.Prelude.{◌≡◌, ◌<◌, ◌≤◌, length};
ghost use Rattle.hp_word.specs.Words.{added, subtracted, multiplied};
ghost use Rattle.hp_session.specs.State.{Does};
ghost use Rattle.hp_memory_rows.specs.MemoryRows.{loaded, stored, compared_in_memory, with_memory, settled_at, in_memory, index_loaded, byte_loaded, byte_stored, double_loaded, double_stored, address_loaded, memory_row, code_loaded};
ghost use Rattle.hp_program.specs.Programs.{segments_of};

use crate::code_words::read_code;
use hp_instr::{Mode, major};
use hp_program::Program;
use hp_session::{Place, Session, displacement};
use hp_word::{Arith, Trap};

/// LOAD.
#[tactic(auto, unfolding(crate::specs::MemoryRows::loaded))]
fn load(session: &mut Session, mode: Mode, i: bool, x: bool) -> Result<(), Trap>
    ensures { Does (loaded mode i x session.old) session.old result session.new }
{
    let place = session.operand(1, mode, i, x)?;
    let operand = session.read_at(place)?;
    session.push(operand)
}

/// STOR.
#[tactic(auto, unfolding(crate::specs::MemoryRows::stored))]
fn store(session: &mut Session, mode: Mode, i: bool, x: bool) -> Result<(), Trap>
    ensures { Does (stored mode i x session.old) session.old result session.new }
{
    session.need(1)?;
    let place = session.operand(1, mode, i, x)?;
    session.write_at(place, session.word(0))?;
    session.delete(1);
    Ok(())
}

/// CMPM.
#[tactic(auto, unfolding(crate::specs::MemoryRows::compared_in_memory))]
fn compare_memory(session: &mut Session, mode: Mode, i: bool, x: bool) -> Result<(), Trap>
    ensures { Does (compared_in_memory mode i x session.old) session.old result session.new }
{
    session.need(1)?;
    let place = session.operand(1, mode, i, x)?;
    let word = session.read_at(place)?;
    let code = hp_word::cmp(session.word(0), word);
    session.delete_coded(1, code);
    Ok(())
}

/// ADDM.
#[tactic(auto, unfolding(crate::specs::MemoryRows::with_memory))]
fn add_memory(session: &mut Session, mode: Mode, i: bool, x: bool) -> Result<(), Trap>
    ensures { Does (with_memory added mode i x session.old) session.old result session.new }
{
    session.need(1)?;
    let place = session.operand(1, mode, i, x)?;
    let word = session.read_at(place)?;
    let carry = session.regs.carry;
    let r = hp_word::add(session.word(0), word);
    session.settle(1, Arith { carry, ..r })
}

/// SUBM.
#[tactic(auto, unfolding(crate::specs::MemoryRows::with_memory))]
fn subtract_memory(session: &mut Session, mode: Mode, i: bool, x: bool) -> Result<(), Trap>
    ensures { Does (with_memory subtracted mode i x session.old) session.old result session.new }
{
    session.need(1)?;
    let place = session.operand(1, mode, i, x)?;
    let word = session.read_at(place)?;
    let carry = session.regs.carry;
    let r = hp_word::sub(session.word(0), word);
    session.settle(1, Arith { carry, ..r })
}

/// MPYM.
#[tactic(auto, unfolding(crate::specs::MemoryRows::with_memory))]
fn multiply_memory(session: &mut Session, mode: Mode, i: bool, x: bool) -> Result<(), Trap>
    ensures { Does (with_memory multiplied mode i x session.old) session.old result session.new }
{
    session.need(1)?;
    let place = session.operand(1, mode, i, x)?;
    let word = session.read_at(place)?;
    let carry = session.regs.carry;
    let r = hp_word::mpy(session.word(0), word);
    session.settle(1, Arith { carry, ..r })
}

/// Stores an integer result at a place.
#[tactic(auto, unfolding(crate::specs::MemoryRows::settled_at))]
pub(crate) fn settle_at(session: &mut Session, place: Place, r: Arith) -> Result<(), Trap>
    ensures { Does (settled_at place r session.old) session.old result session.new }
{
    if r.overflow {
        return Err(Trap::IntegerOverflow);
    }
    session.write_at(place, r.value)?;
    session.regs.overflow = false;
    Ok(())
}

/// INCM.
#[tactic(auto, unfolding(crate::specs::MemoryRows::in_memory))]
fn increase_memory(session: &mut Session, mode: Mode, i: bool, x: bool) -> Result<(), Trap>
    ensures { Does (in_memory added mode i x session.old) session.old result session.new }
{
    let place = session.operand(1, mode, i, x)?;
    let r = hp_word::add(session.read_at(place)?, 1);
    settle_at(session, place, r)?;
    session.regs.code = r.code;
    Ok(())
}

/// DECM.
#[tactic(auto, unfolding(crate::specs::MemoryRows::in_memory))]
fn decrease_memory(session: &mut Session, mode: Mode, i: bool, x: bool) -> Result<(), Trap>
    ensures { Does (in_memory subtracted mode i x session.old) session.old result session.new }
{
    let place = session.operand(1, mode, i, x)?;
    let r = hp_word::sub(session.read_at(place)?, 1);
    settle_at(session, place, r)?;
    session.regs.code = r.code;
    Ok(())
}

/// LDX.
#[tactic(auto, unfolding(crate::specs::MemoryRows::index_loaded))]
fn load_index(session: &mut Session, mode: Mode, i: bool, x: bool) -> Result<(), Trap>
    ensures { Does (index_loaded mode i x session.old) session.old result session.new }
{
    let place = session.operand(1, mode, i, x)?;
    session.regs.x = session.read_at(place)?;
    Ok(())
}

/// LDB.
#[tactic(auto, unfolding(crate::specs::MemoryRows::byte_loaded))]
fn load_byte(session: &mut Session, mode: Mode, i: bool, x: bool) -> Result<(), Trap>
    ensures { Does (byte_loaded mode i x session.old) session.old result session.new }
{
    let place = session.byte_operand(mode, i, x)?;
    let byte = session.read_byte(place)?;
    session.push(byte as u16)
}

/// STB.
#[tactic(auto, unfolding(crate::specs::MemoryRows::byte_stored))]
fn store_byte(session: &mut Session, mode: Mode, i: bool, x: bool) -> Result<(), Trap>
    ensures { Does (byte_stored mode i x session.old) session.old result session.new }
{
    session.need(1)?;
    let place = session.byte_operand(mode, i, x)?;
    session.write_byte(place, (session.word(0) % 256) as u8)?;
    session.delete(1);
    Ok(())
}

/// LDD.
#[tactic(auto, unfolding(crate::specs::MemoryRows::double_loaded))]
fn load_double(session: &mut Session, mode: Mode, i: bool, x: bool) -> Result<(), Trap>
    ensures { Does (double_loaded mode i x session.old) session.old result session.new }
{
    let place = session.operand(2, mode, i, x)?;
    let high = session.read_at(place)?;
    let low = session.read_at(place.moved(1))?;
    session.push_all(&[high, low])
}

/// STD.
#[tactic(auto, unfolding(crate::specs::MemoryRows::double_stored))]
fn store_double(session: &mut Session, mode: Mode, i: bool, x: bool) -> Result<(), Trap>
    ensures { Does (double_stored mode i x session.old) session.old result session.new }
{
    session.need(2)?;
    let place = session.operand(2, mode, i, x)?;
    let next = place.moved(1);
    session.read_at(place)?;
    session.read_at(next)?;
    let (high, low) = (session.word(1), session.word(0));
    session.put(place, high);
    session.put(next, low);
    session.delete(2);
    Ok(())
}

/// LRA.
#[tactic(auto, unfolding(crate::specs::MemoryRows::address_loaded))]
fn load_address(session: &mut Session, mode: Mode, i: bool, x: bool) -> Result<(), Trap>
    ensures { Does (address_loaded mode i x session.old) session.old result session.new }
{
    let place = session.operand(1, mode, i, x)?;
    session.push(place.address())
}

/// The row of a major with an operand in memory.
#[tactic(auto, unfolding(crate::specs::MemoryRows::memory_row))]
pub fn with_memory_operand(
    session: &mut Session,
    which: u8,
    second: bool,
    mode: Mode,
    i: bool,
    x: bool,
) -> Result<(), Trap>
    ensures { Does (memory_row which second mode i x session.old) session.old result session.new }
{
    match which {
        major::LOAD => load(session, mode, i, x),
        major::STOR => store(session, mode, i, x),
        major::CMPM => compare_memory(session, mode, i, x),
        major::ADDM => add_memory(session, mode, i, x),
        major::SUBM => subtract_memory(session, mode, i, x),
        major::MPYM => multiply_memory(session, mode, i, x),
        major::INCM => if second {
            decrease_memory(session, mode, i, x)
        } else {
            increase_memory(session, mode, i, x)
        },
        major::LDX => load_index(session, mode, i, x),
        major::LDB => if second {
            load_double(session, mode, i, x)
        } else {
            load_byte(session, mode, i, x)
        },
        major::STB => if second {
            store_double(session, mode, i, x)
        } else {
            store_byte(session, mode, i, x)
        },
        major::LRA => load_address(session, mode, i, x),
        _ => Err(Trap::Illegal),
    }
}

/// LOAD of a code word.
#[tactic(auto, unfolding(crate::specs::MemoryRows::code_loaded))]
pub fn load_code(session: &mut Session, program: &Program, back: bool, d: u8) -> Result<(), Trap>
    ensures { Does (code_loaded (segments_of program.now) back d session.old) session.old result session.new }
{
    let word = read_code(session, program, displacement(back, d, session.regs.p))?;
    session.push(word)
}
