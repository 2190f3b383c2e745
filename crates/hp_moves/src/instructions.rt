//! The instructions of the group, each by its code.
ghost use Rattle.std.specs.Prelude.{◌≡◌, ◌==◌, ℕ, List, slice_get};
ghost use Rattle.hp_instr.specs.declared.groups.Group.TheVariants.{Move};
ghost use Rattle.hp_instr.specs.Groups.{group};
ghost use Rattle.hp_memory_rows.specs.MoveRows.{move_row};
ghost use Rattle.hp_tos.specs.StackView.{seen};
ghost use Rattle.hp_moves.specs.MoveUses.{move_uses, step_uses};
ghost use Rattle.hp_moves.specs.MoveSteps.{MovesOn, instruction_row};

use crate::moves::{move_byte, move_byte_while, move_word};
use crate::scans::{compare_byte, scan_until, scan_while};
use crate::steps::MoveStep;
use hp_instr::{Instr, control};
use hp_program::CodeStore;
use hp_session::Regs;
use hp_tos::Stack;
use hp_word::Trap;

/// A step of the move with a code of major 3. In MOVE, MVB and CMPB the number 1 is for a source in the code.
#[tactic(auto, unfolding(hp_memory_rows::specs::MoveRows::move_row, crate::specs::MoveUses::step_uses))]
fn step<C: CodeStore>(
    which: u8,
    n: u8,
    regs: &mut Regs,
    stack: &mut Stack,
    code: &C,
) -> Result<MoveStep, Trap>
    ensures { (segments : List (List ℕ)) → slice_get segments regs.old.seg ≡ C.held code.now regs.old.seg
        → MovesOn (move_row segments which n) (step_uses which) regs.old (seen stack.old) result regs.new (seen stack.new) }
{
    match which {
        control::MOVE => move_word(regs, stack, code, n == 1),
        control::MVB => move_byte(regs, stack, code, n == 1),
        control::MVBW => move_byte_while(regs, stack, n),
        control::SCW => scan_while(regs, stack),
        control::SCU => scan_until(regs, stack),
        _ => compare_byte(regs, stack, code, n == 1),
    }
}

/// Does one step of a move, a scan or a comparison of bytes on a stack of which some top words may stand in registers: one
/// element is moved, passed or compared, or the move ends. What is left to do stands on the stack, with P at the instruction,
/// so that the next call goes on from there.
///
/// What the code's current segment holds are the words of that segment in some program: the row is that program's. A trap is
/// the one that the row gives. It leaves the list of words, the extra segment, all registers and the mode as they were;
/// registers of the stack may have been filled by then. Takes no memory.
#[tactic(auto, unfolding(crate::specs::MoveSteps::instruction_row, crate::specs::MoveUses::move_uses))]
pub fn move_op<C: CodeStore>(
    i: Instr,
    regs: &mut Regs,
    stack: &mut Stack,
    code: &C,
) -> Result<MoveStep, Trap>
    requires { group i ≡ Move }
    ensures { (segments : List (List ℕ)) → slice_get segments regs.old.seg ≡ C.held code.now regs.old.seg
        → MovesOn (instruction_row segments i) (move_uses i) regs.old (seen stack.old) result regs.new (seen stack.new) }
{
    match i {
        Instr::Control { which, n } => step(which, n, regs, stack, code),
        _ => Err(Trap::Illegal),
    }
}
