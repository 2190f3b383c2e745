//! Words in memory: loaded, stored, compared and reckoned with.
ghost use Rattle.std.specs.Prelude.{◌≡◌, IfErr, OnErr, length, MatchResult, Ok, Err, false, ◌⊎◌};
ghost use Rattle.hp_word.specs.Words.{added, multiplied, subtracted};
ghost use Rattle.hp_word.specs.declared.endings.Trap.TheVariants.{Bounds, IntegerOverflow};
ghost use Rattle.hp_session.specs.State.{Machine};
ghost use Rattle.hp_memory_rows.specs.MemoryRows.{address_loaded, compared_in_memory, in_memory, index_loaded, loaded, settled_at, stored, with_memory};
ghost use Rattle.hp_rows.specs.Standing.{standing};
ghost use Rattle.hp_tos.specs.StackView.{seen};
ghost use Rattle.hp_rows.specs.Numbers.{uses};
ghost use Rattle.hp_rows.specs.Performs.{Performs};

use crate::places::operand;
use hp_instr::Mode;
use hp_rows::{delete_coded, need, push, read_at, settle, write_at};
use hp_session::{Place, Regs};
use hp_tos::Stack;
use hp_word::{Arith, Trap};

/// LOAD: the operand's word is pushed.
#[tactic(auto, unfolding(hp_memory_rows::specs::MemoryRows::loaded))]
pub(crate) fn load(
    regs: &mut Regs,
    stack: &mut Stack,
    mode: Mode,
    i: bool,
    x: bool,
) -> Result<(), Trap>
    ensures { Performs (loaded mode i x) (uses 0 1) regs.old (seen stack.old) result regs.new (seen stack.new) }
{
    let place = operand(1, mode, i, x, regs, stack)?;
    let word = read_at(stack, place)?;
    push(stack, word)
}

/// STOR: A is stored, and then deleted.
#[tactic(auto, unfolding(hp_memory_rows::specs::MemoryRows::stored))]
pub(crate) fn store(
    regs: &mut Regs,
    stack: &mut Stack,
    mode: Mode,
    i: bool,
    x: bool,
) -> Result<(), Trap>
    ensures { Performs (stored mode i x) (uses 1 0) regs.old (seen stack.old) result regs.new (seen stack.new) }
{
    need(stack, 1)?;
    let place = operand(1, mode, i, x, regs, stack)?;
    write_at(stack, place, stack.word(0))?;
    stack.replace(1, &[]);
    Ok(())
}

/// CMPM: A against the operand's word. A is deleted.
#[tactic(auto, unfolding(hp_memory_rows::specs::MemoryRows::compared_in_memory))]
pub(crate) fn compare_memory(
    regs: &mut Regs,
    stack: &mut Stack,
    mode: Mode,
    i: bool,
    x: bool,
) -> Result<(), Trap>
    ensures { Performs (compared_in_memory mode i x) (uses 1 0) regs.old (seen stack.old) result regs.new (seen stack.new) }
{
    need(stack, 1)?;
    let place = operand(1, mode, i, x, regs, stack)?;
    let word = read_at(stack, place)?;
    let code = hp_word::cmp(stack.word(0), word);
    delete_coded(regs, stack, 1, code);
    Ok(())
}

/// ADDM: A plus the operand's word. The carry stays.
#[tactic(auto, unfolding(hp_memory_rows::specs::MemoryRows::with_memory, hp_session::specs::Results::settled))]
pub(crate) fn add_memory(
    regs: &mut Regs,
    stack: &mut Stack,
    mode: Mode,
    i: bool,
    x: bool,
) -> Result<(), Trap>
    ensures { Performs (with_memory added mode i x) (uses 1 1) regs.old (seen stack.old) result regs.new (seen stack.new) }
{
    need(stack, 1)?;
    let place = operand(1, mode, i, x, regs, stack)?;
    let word = read_at(stack, place)?;
    let carry = regs.carry;
    let r = hp_word::add(stack.word(0), word);
    settle(regs, stack, 1, Arith { carry, ..r })
}

/// SUBM: A minus the operand's word. The carry stays.
#[tactic(auto, unfolding(hp_memory_rows::specs::MemoryRows::with_memory, hp_session::specs::Results::settled))]
pub(crate) fn subtract_memory(
    regs: &mut Regs,
    stack: &mut Stack,
    mode: Mode,
    i: bool,
    x: bool,
) -> Result<(), Trap>
    ensures { Performs (with_memory subtracted mode i x) (uses 1 1) regs.old (seen stack.old) result regs.new (seen stack.new) }
{
    need(stack, 1)?;
    let place = operand(1, mode, i, x, regs, stack)?;
    let word = read_at(stack, place)?;
    let carry = regs.carry;
    let r = hp_word::sub(stack.word(0), word);
    settle(regs, stack, 1, Arith { carry, ..r })
}

/// MPYM: A times the operand's word. The carry stays.
#[tactic(auto, unfolding(hp_memory_rows::specs::MemoryRows::with_memory, hp_session::specs::Results::settled))]
pub(crate) fn multiply_memory(
    regs: &mut Regs,
    stack: &mut Stack,
    mode: Mode,
    i: bool,
    x: bool,
) -> Result<(), Trap>
    ensures { Performs (with_memory multiplied mode i x) (uses 1 1) regs.old (seen stack.old) result regs.new (seen stack.new) }
{
    need(stack, 1)?;
    let place = operand(1, mode, i, x, regs, stack)?;
    let word = read_at(stack, place)?;
    let carry = regs.carry;
    let r = hp_word::mpy(stack.word(0), word);
    settle(regs, stack, 1, Arith { carry, ..r })
}

/// Stores an integer result at a place, and clears the overflow bit.
#[tactic(auto, unfolding(hp_memory_rows::specs::MemoryRows::settled_at))]
pub(crate) fn settle_at(
    regs: &mut Regs,
    stack: &mut Stack,
    place: Place,
    r: Arith,
) -> Result<(), Trap>
    ensures value { (rest : Machine) → MatchResult result
        (λ _. settled_at place r (standing regs.old (seen stack.old) rest) ≡ Ok (standing regs.new (seen stack.new) rest))
        (λ t. settled_at place r (standing regs.old (seen stack.old) rest) ≡ Err t) }
    ensures trap { IfErr result (λ t. (t ≡ Bounds) ⊎ (t ≡ IntegerOverflow)) }
    ensures flags { regs.new ≡ record regs.old { overflow = regs.new.overflow } }
    ensures kept { seen stack.new ≡ record (seen stack.old) { words = (seen stack.new).words; extra = (seen stack.new).extra } }
    ensures same_length { length (seen stack.new).words ≡ length (seen stack.old).words }
    ensures err { OnErr result ((regs.new ≡ regs.old) × (stack.new ≡ stack.old)) }
{
    if r.overflow {
        return Err(Trap::IntegerOverflow);
    }
    write_at(stack, place, r.value)?;
    regs.overflow = false;
    Ok(())
}

/// INCM: the operand's word plus 1, in its place. The carry stays.
#[tactic(auto, unfolding(hp_memory_rows::specs::MemoryRows::in_memory))]
pub(crate) fn increase_memory(
    regs: &mut Regs,
    stack: &mut Stack,
    mode: Mode,
    i: bool,
    x: bool,
) -> Result<(), Trap>
    ensures { Performs (in_memory added mode i x) (uses 0 0) regs.old (seen stack.old) result regs.new (seen stack.new) }
{
    let place = operand(1, mode, i, x, regs, stack)?;
    let r = hp_word::add(read_at(stack, place)?, 1);
    settle_at(regs, stack, place, r)?;
    regs.code = r.code;
    Ok(())
}

/// DECM: the operand's word minus 1, in its place. The carry stays.
#[tactic(auto, unfolding(hp_memory_rows::specs::MemoryRows::in_memory))]
pub(crate) fn decrease_memory(
    regs: &mut Regs,
    stack: &mut Stack,
    mode: Mode,
    i: bool,
    x: bool,
) -> Result<(), Trap>
    ensures { Performs (in_memory subtracted mode i x) (uses 0 0) regs.old (seen stack.old) result regs.new (seen stack.new) }
{
    let place = operand(1, mode, i, x, regs, stack)?;
    let r = hp_word::sub(read_at(stack, place)?, 1);
    settle_at(regs, stack, place, r)?;
    regs.code = r.code;
    Ok(())
}

/// LDX: X becomes the operand's word.
#[tactic(auto, unfolding(hp_memory_rows::specs::MemoryRows::index_loaded))]
pub(crate) fn load_index(
    regs: &mut Regs,
    stack: &mut Stack,
    mode: Mode,
    i: bool,
    x: bool,
) -> Result<(), Trap>
    ensures { Performs (index_loaded mode i x) (uses 0 0) regs.old (seen stack.old) result regs.new (seen stack.new) }
{
    let place = operand(1, mode, i, x, regs, stack)?;
    regs.x = read_at(stack, place)?;
    Ok(())
}

/// LRA: the operand's address is pushed.
#[tactic(auto, unfolding(hp_memory_rows::specs::MemoryRows::address_loaded))]
pub(crate) fn load_address(
    regs: &mut Regs,
    stack: &mut Stack,
    mode: Mode,
    i: bool,
    x: bool,
) -> Result<(), Trap>
    ensures { Performs (address_loaded mode i x) (uses 0 1) regs.old (seen stack.old) result regs.new (seen stack.new) }
{
    let place = operand(1, mode, i, x, regs, stack)?;
    push(stack, place.address())
}
