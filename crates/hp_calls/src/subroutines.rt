//! SCAL and SXIT: a subroutine has a return word alone, and stays in the segment of its procedure.
ghost use Rattle.std.specs.Prelude.{◌≡◌, ℕ, List, slice_get};
ghost use Rattle.hp_call_rows.specs.CallRows.{subroutine_called, subroutine_left};
ghost use Rattle.hp_tos.specs.StackView.{seen};
ghost use Rattle.hp_rows.specs.Flushes.{Flushes};

use crate::tables::label_at;
use hp_instr::Label;
use hp_program::CodeStore;
use hp_rows::push;
use hp_session::Regs;
use hp_tos::Stack;
use hp_word::Trap;

/// SCAL: calls the subroutine of entry `n` of the current segment, whose label must be local. The offset of the word after the
/// call is pushed. Works in both modes.
///
/// What the store holds of the current segment are the words of that segment in some program: the row is that program's. A trap
/// leaves the list of words, the extra segment, all registers and the mode as they were; the registers of the stack were spilled.
/// Takes no memory.
#[tactic(auto, unfolding(hp_call_rows::specs::CallRows::subroutine_called))]
pub fn scal<C: CodeStore>(n: u8, regs: &mut Regs, stack: &mut Stack, code: &C) -> Result<(), Trap>
    ensures { (segments : List (List ℕ)) → slice_get segments regs.old.seg ≡ C.held code.now regs.old.seg
        → Flushes (subroutine_called segments n) 1 regs.old (seen stack.old) result regs.new (seen stack.new) }
{
    stack.flush();
    let Label::Local(offset) = label_at(n, regs, code)? else {
        return Err(Trap::BadEntry);
    };
    push(stack, regs.p.wrapping_add(1))?;
    regs.p = offset;
    regs.right = false;
    Ok(())
}

/// SXIT: takes the return word away with `n` words beneath it, and goes to the offset that it has. Works in both modes.
///
/// A trap leaves the list of words, the extra segment, all registers and the mode as they were; the registers of the stack were
/// spilled. Takes no memory.
#[tactic(auto, unfolding(hp_call_rows::specs::CallRows::subroutine_left))]
pub fn sxit(n: u8, regs: &mut Regs, stack: &mut Stack) -> Result<(), Trap>
    ensures { Flushes (subroutine_left n) 0 regs.old (seen stack.old) result regs.new (seen stack.new) }
{
    stack.flush();
    let Ok(offset) = stack.at(0) else {
        return Err(Trap::StackUnderflow);
    };
    if stack.drop_words(n as u16 + 1).is_err() {
        return Err(Trap::StackUnderflow);
    }
    regs.p = offset;
    regs.right = false;
    Ok(())
}
