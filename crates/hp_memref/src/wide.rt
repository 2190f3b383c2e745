//! Bytes and doubles in memory.
ghost use Rattle.hp_memory_rows.specs.MemoryRows.{byte_loaded, byte_stored, double_loaded, double_stored};
ghost use Rattle.hp_tos.specs.StackView.{seen};
ghost use Rattle.hp_rows.specs.Numbers.{uses};
ghost use Rattle.hp_rows.specs.Performs.{Performs};

use crate::places::{byte_operand, operand};
use hp_instr::Mode;
use hp_rows::{need, push, push_all, put, read_at, read_byte, write_byte};
use hp_session::Regs;
use hp_tos::Stack;
use hp_word::Trap;

/// LDB: the operand's byte is pushed.
#[tactic(auto, unfolding(hp_memory_rows::specs::MemoryRows::byte_loaded))]
pub(crate) fn load_byte(
    regs: &mut Regs,
    stack: &mut Stack,
    mode: Mode,
    i: bool,
    x: bool,
) -> Result<(), Trap>
    ensures { Performs (byte_loaded mode i x) (uses 0 1) regs.old (seen stack.old) result regs.new (seen stack.new) }
{
    let place = byte_operand(mode, i, x, regs, stack)?;
    let byte = read_byte(stack, place)?;
    push(stack, byte as u16)
}

/// STB: A's right byte is stored, and A then deleted.
#[tactic(auto, unfolding(hp_memory_rows::specs::MemoryRows::byte_stored))]
pub(crate) fn store_byte(
    regs: &mut Regs,
    stack: &mut Stack,
    mode: Mode,
    i: bool,
    x: bool,
) -> Result<(), Trap>
    ensures { Performs (byte_stored mode i x) (uses 1 0) regs.old (seen stack.old) result regs.new (seen stack.new) }
{
    need(stack, 1)?;
    let place = byte_operand(mode, i, x, regs, stack)?;
    write_byte(stack, place, (stack.word(0) % 256) as u8)?;
    stack.replace(1, &[]);
    Ok(())
}

/// LDD: the operand's word and the next are pushed.
#[tactic(auto, unfolding(hp_memory_rows::specs::MemoryRows::double_loaded))]
pub(crate) fn load_double(
    regs: &mut Regs,
    stack: &mut Stack,
    mode: Mode,
    i: bool,
    x: bool,
) -> Result<(), Trap>
    ensures { Performs (double_loaded mode i x) (uses 0 2) regs.old (seen stack.old) result regs.new (seen stack.new) }
{
    let place = operand(2, mode, i, x, regs, stack)?;
    let high = read_at(stack, place)?;
    let low = read_at(stack, place.moved(1))?;
    push_all(stack, &[high, low])
}

/// STD: B and A are stored at the operand's word and the next, and then deleted; both must be in bounds.
#[tactic(auto, unfolding(hp_memory_rows::specs::MemoryRows::double_stored))]
pub(crate) fn store_double(
    regs: &mut Regs,
    stack: &mut Stack,
    mode: Mode,
    i: bool,
    x: bool,
) -> Result<(), Trap>
    ensures { Performs (double_stored mode i x) (uses 2 0) regs.old (seen stack.old) result regs.new (seen stack.new) }
{
    need(stack, 2)?;
    let place = operand(2, mode, i, x, regs, stack)?;
    let next = place.moved(1);
    read_at(stack, place)?;
    read_at(stack, next)?;
    let (high, low) = (stack.word(1), stack.word(0));
    put(stack, place, high);
    put(stack, next, low);
    stack.replace(2, &[]);
    Ok(())
}
