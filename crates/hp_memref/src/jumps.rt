//! BR, BCC, TBA and MTBA, and LOAD from code.
ghost use Rattle.std.specs.Prelude.{◌≡◌, ℕ, List, slice_get, slice_index, IfOk, IfErr};
ghost use Rattle.hp_word.specs.declared.endings.Trap.TheVariants.{Bounds};
ghost use Rattle.hp_session.specs.declared.registers.Regs.{Regs};
ghost use Rattle.hp_session.specs.declared.places.Place.TheVariants as places;
ghost use Rattle.hp_session.specs.State.{Machine, passing};
ghost use Rattle.hp_session.specs.Places.{read_at};
ghost use Rattle.hp_rows.specs.Standing.{standing};
ghost use Rattle.hp_memory_rows.specs.MemoryRows.{branched, branched_on_code, code_loaded, goes_on, is_named, loop_stepped, loop_tested};
ghost use Rattle.hp_tos.specs.StackView.{seen};
ghost use Rattle.hp_rows.specs.Numbers.{uses};
ghost use Rattle.hp_rows.specs.Performs.{Performs};
ghost use Rattle.hp_memref.specs.References.{word_of_code};
ghost use Rattle.hp_memref.specs.ReferenceUses.{loop_uses, stepped_on, tested_on};

use crate::short_branches::branch_where;
use crate::words::settle_at;
use hp_program::{CodeStore, Fetched};
use hp_rows::{need, pass, push};
use hp_session::{Place, Regs, displacement, signed_word};
use hp_tos::Stack;
use hp_word::{Code, Trap};

/// A word of the current segment, read as data.
#[tactic(auto, unfolding(hp_program::specs::Stores::fetched))]
fn read_code<C: CodeStore>(regs: &Regs, code: &C, offset: u16) -> Result<u16, Trap>
    ensures { result ≡ word_of_code (C.held code.now regs.now.seg) offset }
{
    match code.fetch(regs.seg, offset) {
        Fetched::Word(word) => Ok(word),
        Fetched::Absent | Fetched::Outside => Err(Trap::CodeBounds),
    }
}

/// LOAD of the word of code at P plus `d`, or minus `d` where it is back, and past its own word.
#[tactic(auto, unfolding(hp_memory_rows::specs::MemoryRows::code_loaded, hp_memory_rows::specs::MemoryRows::code_read, hp_program::specs::Programs::code_word))]
pub(crate) fn load_code<C: CodeStore>(
    regs: &mut Regs,
    stack: &mut Stack,
    code: &C,
    back: bool,
    d: u8,
) -> Result<(), Trap>
    ensures { (segments : List (List ℕ)) → slice_get segments regs.old.seg ≡ C.held code.now regs.old.seg
        → Performs (λ m. passing (code_loaded segments back d m)) (uses 0 1) regs.old (seen stack.old) result regs.new (seen stack.new) }
{
    let word = read_code(regs, code, displacement(back, d, regs.p))?;
    push(stack, word)?;
    pass(regs);
    Ok(())
}

/// BR: the next step is at P plus or minus `d`, or with indirection at what the word there, added to its own offset, gives.
#[tactic(auto, unfolding(hp_memory_rows::specs::MemoryRows::branched, hp_memory_rows::specs::MemoryRows::code_read, hp_program::specs::Programs::code_word))]
pub(crate) fn branch<C: CodeStore>(
    regs: &mut Regs,
    stack: &mut Stack,
    code: &C,
    i: bool,
    back: bool,
    d: u8,
) -> Result<(), Trap>
    ensures { (segments : List (List ℕ)) → slice_get segments regs.old.seg ≡ C.held code.now regs.old.seg
        → Performs (branched segments i back d) (uses 0 0) regs.old (seen stack.old) result regs.new (seen stack.new) }
{
    let target = displacement(back, d, regs.p);
    let word = if i { read_code(regs, code, target)? } else { 0 };
    regs.p = target.wrapping_add(word);
    regs.right = false;
    Ok(())
}

/// Whether the mask of a BCC names the code.
#[tactic(auto, unfolding(hp_memory_rows::specs::MemoryRows::is_named))]
fn named(mask: u8, code: Code) -> bool
    ensures { result ≡ is_named mask code }
{
    match code {
        Code::Greater => mask / 4 % 2 == 1,
        Code::Equal => mask / 2 % 2 == 1,
        Code::Less => mask % 2 == 1,
    }
}

/// BCC: a branch where the mask names the code.
pub(crate) fn branch_on_code(
    regs: &mut Regs,
    stack: &mut Stack,
    mask: u8,
    back: bool,
    d: u8,
) -> Result<(), Trap>
    ensures { Performs (branched_on_code mask back d) (uses 0 0) regs.old (seen stack.old) result regs.new (seen stack.new) }
{
    branch_where(regs, named(mask, regs.code), back, d);
    Ok(())
}

/// Whether a loop's variable has not passed its limit.
#[tactic(auto, unfolding(hp_memory_rows::specs::MemoryRows::goes_on))]
fn going_on(value: u16, step: u16, limit: u16) -> bool
    ensures { result ≡ goes_on value step limit }
{
    if signed_word(step) < 0 {
        signed_word(limit) <= signed_word(value)
    } else {
        signed_word(value) <= signed_word(limit)
    }
}

/// The variable of a loop, at an address of the stack in both modes.
#[tactic(auto, unfolding(hp_session::specs::Places::read_at, hp_session::specs::Places::area))]
fn read_variable(stack: &Stack, address: u16) -> Result<u16, Trap>
    ensures value { (regs : Regs) (rest : Machine) → result ≡ read_at (places.Stack address) (standing regs (seen stack.now) rest) }
    ensures word { IfOk result (λ w. w ≡ slice_index (seen stack.now).words address) }
    ensures trap { IfErr result (λ t. t ≡ Bounds) }
{
    match stack.read_stack(address) {
        Ok(word) => Ok(word),
        Err(_) => Err(Trap::Bounds),
    }
}

/// TBA: the variable is tested. The three words stay where the loop goes on, and else are deleted.
#[tactic(auto, unfolding(hp_memory_rows::specs::MemoryRows::loop_tested, hp_memory_rows::specs::MemoryRows::looped))]
pub(crate) fn test_loop(regs: &mut Regs, stack: &mut Stack, back: bool, d: u8) -> Result<(), Trap>
    ensures { Performs (loop_tested back d) (loop_uses (tested_on (seen stack.old))) regs.old (seen stack.old) result regs.new (seen stack.new) }
{
    need(stack, 3)?;
    let value = read_variable(stack, stack.word(2))?;
    if going_on(value, stack.word(1), stack.word(0)) {
        branch_where(regs, true, back, d);
        return Ok(());
    }
    stack.replace(3, &[]);
    pass(regs);
    Ok(())
}

/// MTBA: the step is added to the variable first, and the sum is tested; step and limit are those before the store.
#[tactic(auto, unfolding(hp_memory_rows::specs::MemoryRows::loop_stepped, hp_memory_rows::specs::MemoryRows::looped))]
pub(crate) fn step_loop(regs: &mut Regs, stack: &mut Stack, back: bool, d: u8) -> Result<(), Trap>
    ensures { Performs (loop_stepped back d) (loop_uses (stepped_on (seen stack.old))) regs.old (seen stack.old) result regs.new (seen stack.new) }
{
    need(stack, 3)?;
    let address = stack.word(2);
    let (step, limit) = (stack.word(1), stack.word(0));
    let sum = hp_word::add(read_variable(stack, address)?, step);
    settle_at(regs, stack, Place::Stack(address), sum)?;
    if going_on(sum.value, step, limit) {
        branch_where(regs, true, back, d);
        return Ok(());
    }
    stack.replace(3, &[]);
    pass(regs);
    Ok(())
}
