//! The instructions of the group, each by its code.
ghost use Rattle.std.specs.Prelude.{◌≡◌, ℕ, List, slice_get};
ghost use Rattle.hp_instr.specs.declared.groups.Group.TheVariants.{Reference};
ghost use Rattle.hp_instr.specs.Groups.{group};
ghost use Rattle.hp_tos.specs.StackView.{seen};
ghost use Rattle.hp_memory_rows.specs.MemoryRows.{memory_row};
ghost use Rattle.hp_session.specs.State.{passing};
ghost use Rattle.hp_rows.specs.Performs.{Performs};
ghost use Rattle.hp_memref.specs.ReferenceRows.{reference_row};
ghost use Rattle.hp_memref.specs.ReferenceUses.{memory_uses, reference_uses};

use crate::jumps::{branch, branch_on_code, load_code, step_loop, test_loop};
use crate::short_branches::short_branch;
use crate::wide::{load_byte, load_double, store_byte, store_double};
use crate::words::{
    add_memory, compare_memory, decrease_memory, increase_memory, load, load_address, load_index,
    multiply_memory, store, subtract_memory,
};
use hp_instr::{Instr, Mode, major};
use hp_program::CodeStore;
use hp_rows::pass;
use hp_session::Regs;
use hp_tos::Stack;
use hp_word::Trap;

/// What a major does with its operand in memory.
#[tactic(auto, unfolding(hp_memory_rows::specs::MemoryRows::memory_row, crate::specs::ReferenceUses::memory_uses))]
fn with_operand(
    regs: &mut Regs,
    stack: &mut Stack,
    which: u8,
    second: bool,
    mode: Mode,
    i: bool,
    x: bool,
) -> Result<(), Trap>
    ensures { Performs (memory_row which second mode i x) (memory_uses which second) regs.old (seen stack.old) result regs.new (seen stack.new) }
{
    match which {
        major::LOAD => load(regs, stack, mode, i, x),
        major::STOR => store(regs, stack, mode, i, x),
        major::CMPM => compare_memory(regs, stack, mode, i, x),
        major::ADDM => add_memory(regs, stack, mode, i, x),
        major::SUBM => subtract_memory(regs, stack, mode, i, x),
        major::MPYM => multiply_memory(regs, stack, mode, i, x),
        major::INCM => if second {
            decrease_memory(regs, stack, mode, i, x)
        } else {
            increase_memory(regs, stack, mode, i, x)
        },
        major::LDX => load_index(regs, stack, mode, i, x),
        major::LDB => if second {
            load_double(regs, stack, mode, i, x)
        } else {
            load_byte(regs, stack, mode, i, x)
        },
        major::STB => if second {
            store_double(regs, stack, mode, i, x)
        } else {
            store_byte(regs, stack, mode, i, x)
        },
        major::LRA => load_address(regs, stack, mode, i, x),
        _ => Err(Trap::Illegal),
    }
}

/// What a major does with its operand in memory, and past its word.
fn pass_operand(
    regs: &mut Regs,
    stack: &mut Stack,
    which: u8,
    second: bool,
    mode: Mode,
    i: bool,
    x: bool,
) -> Result<(), Trap>
    ensures { Performs (λ m. passing (memory_row which second mode i x m)) (memory_uses which second) regs.old (seen stack.old) result regs.new (seen stack.new) }
{
    with_operand(regs, stack, which, second, mode, i, x)?;
    pass(regs);
    Ok(())
}

/// Does an instruction of the group on a stack of which some top words may stand in registers. One that does not branch goes on
/// past its word.
///
/// What the code's current segment holds are the words of that segment in some program: the row is that program's. A trap is
/// the one that the row gives. It leaves the list of words, the extra segment, all registers and the mode as they were;
/// registers of the stack may have been filled by then. Takes no memory.
#[tactic(auto, unfolding(crate::specs::ReferenceRows::reference_row, crate::specs::ReferenceUses::reference_uses))]
pub fn memory_op<C: CodeStore>(
    i: Instr,
    regs: &mut Regs,
    stack: &mut Stack,
    code: &C,
) -> Result<(), Trap>
    requires { group i ≡ Reference }
    ensures { (segments : List (List ℕ)) → slice_get segments regs.old.seg ≡ C.held code.now regs.old.seg
        → Performs (reference_row segments i) (reference_uses i (seen stack.old)) regs.old (seen stack.old) result regs.new (seen stack.new) }
{
    match i {
        Instr::Short { test, back, d } => short_branch(regs, stack, test, back, d),
        Instr::Memory {
            major,
            second,
            x,
            i,
            mode,
        } => pass_operand(regs, stack, major, second, mode, i, x),
        Instr::LoadCode { back, d } => load_code(regs, stack, code, back, d),
        Instr::Branch { i, back, d } => branch(regs, stack, code, i, back, d),
        Instr::OnCode { mask, back, d } => branch_on_code(regs, stack, mask, back, d),
        Instr::Loop {
            modify: false,
            back,
            d,
        } => test_loop(regs, stack, back, d),
        Instr::Loop {
            modify: true,
            back,
            d,
        } => step_loop(regs, stack, back, d),
        _ => Err(Trap::Illegal),
    }
}
