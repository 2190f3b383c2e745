//! Calls and returns: a word that leaves a transfer under way, or hands an intrinsic on.
ghost use Rattle.std.specs.Prelude.{◌≡◌, ℕ, List, length, slice_get};
ghost use Rattle.hp_instr.specs.declared.groups.Group.TheVariants.{Call};
ghost use Rattle.hp_instr.specs.declared.instruction.Instr.TheVariants.{Control};
ghost use Rattle.hp_instr.specs.Groups.{group};
ghost use Rattle.hp_tos.specs.StackView.{seen};
ghost use Rattle.hp_flat.specs.Step.{row, word_row};
ghost use Rattle.hp_calls.specs.Transfers.{IsReady, went};
ghost use Rattle.hp_cpu.specs.Acts.{Acts};
ghost use Rattle.hp_cpu.specs.Answers.{done};
ghost use Rattle.hp_cpu.specs.Restored.{restored};

use hp_calls::{Called, Phase, exit, pcal, scal, sxit};
use hp_instr::{Instr, control};
use hp_program::CodeStore;
use hp_session::Regs;
use hp_tos::Stack;
use hp_word::Trap;

/// What came of a subroutine's call or return, which leaves no transfer under way.
fn done(answer: Result<(), Trap>) -> Result<Called, Trap>
    ensures { result ≡ done answer }
{
    match answer {
        Ok(()) => Ok(Called::Went(Phase::Ready)),
        Err(trap) => Err(trap),
    }
}

/// What came of a return.
#[inline]
fn on_its_way(answer: Result<Phase, Trap>) -> Result<Called, Trap>
    ensures { result ≡ went answer }
{
    match answer {
        Ok(phase) => Ok(Called::Went(phase)),
        Err(trap) => Err(trap),
    }
}

/// PCAL.
#[inline]
fn with_call<C: CodeStore>(
    n: u8,
    regs: &mut Regs,
    stack: &mut Stack,
    code: &C,
) -> Result<Called, Trap>
    ensures acts { (program : List (List ℕ)) → slice_get program regs.old.seg ≡ C.held code.now regs.old.seg
        → Acts program (word_row program (Control 0 n)) (Control 0 n) regs.old (seen stack.old) result regs.new (seen stack.new) }
    ensures ready { IsReady result (seen stack.new) }
{
    pcal(n, regs, stack, code)
}

/// EXIT.
#[inline]
fn with_exit(n: u8, segments: u8, regs: &mut Regs, stack: &mut Stack) -> Result<Called, Trap>
    ensures acts { (program : List (List ℕ)) → length program ≡ segments
        → Acts program (word_row program (Control 1 n)) (Control 1 n) regs.old (seen stack.old) result regs.new (seen stack.new) }
    ensures ready { IsReady result (seen stack.new) }
{
    on_its_way(exit(n, segments, regs, stack))
}

/// SXIT.
#[inline]
fn with_subroutine_exit(n: u8, regs: &mut Regs, stack: &mut Stack) -> Result<Called, Trap>
    ensures acts { (program : List (List ℕ)) → Acts program (word_row program (Control 2 n)) (Control 2 n) regs.old (seen stack.old) result regs.new (seen stack.new) }
    ensures ready { IsReady result (seen stack.new) }
{
    done(sxit(n, regs, stack))
}

/// SCAL.
#[inline]
fn with_subroutine_call<C: CodeStore>(
    n: u8,
    regs: &mut Regs,
    stack: &mut Stack,
    code: &C,
) -> Result<Called, Trap>
    ensures acts { (program : List (List ℕ)) → slice_get program regs.old.seg ≡ C.held code.now regs.old.seg
        → Acts program (word_row program (Control 3 n)) (Control 3 n) regs.old (seen stack.old) result regs.new (seen stack.new) }
    ensures ready { IsReady result (seen stack.new) }
{
    done(scal(n, regs, stack, code))
}

/// Calls and returns.
#[inline]
fn transfer<C: CodeStore>(
    i: Instr,
    segments: u8,
    regs: &mut Regs,
    stack: &mut Stack,
    code: &C,
) -> Result<Called, Trap>
    requires { group i ≡ Call }
    ensures acts { (program : List (List ℕ)) → length program ≡ segments → slice_get program regs.old.seg ≡ C.held code.now regs.old.seg
        → Acts program (word_row program i) i regs.old (seen stack.old) result regs.new (seen stack.new) }
    ensures ready { IsReady result (seen stack.new) }
{
    match i {
        Instr::Control {
            which: control::PCAL,
            n,
        } => with_call(n, regs, stack, code),
        Instr::Control {
            which: control::EXIT,
            n,
        } => with_exit(n, segments, regs, stack),
        Instr::Control {
            which: control::SXIT,
            n,
        } => with_subroutine_exit(n, regs, stack),
        Instr::Control { n, .. } => with_subroutine_call(n, regs, stack, code),
        _ => Err(Trap::Illegal),
    }
}

/// R as it was before a call or a return that was not done.
#[inline]
fn restore(answer: Result<Called, Trap>, right: bool, regs: &mut Regs)
    ensures { regs.new ≡ restored answer right regs.old }
{
    match answer {
        Ok(Called::Went(_)) => {}
        Ok(Called::Gate(_)) | Err(_) => regs.right = right,
    }
}

/// A call or a return, with R cleared first. A trap, and the call of an intrinsic, leave R as it was.
#[inline]
pub(crate) fn transfer_at_left<C: CodeStore>(
    i: Instr,
    segments: u8,
    regs: &mut Regs,
    stack: &mut Stack,
    code: &C,
) -> Result<Called, Trap>
    requires { group i ≡ Call }
    ensures acts { (program : List (List ℕ)) → length program ≡ segments → slice_get program regs.old.seg ≡ C.held code.now regs.old.seg
        → Acts program (row program i) i regs.old (seen stack.old) result regs.new (seen stack.new) }
    ensures ready { IsReady result (seen stack.new) }
{
    let right = regs.right;
    regs.right = false;
    let answer = transfer(i, segments, regs, stack, code);
    restore(answer, right, regs);
    answer
}
