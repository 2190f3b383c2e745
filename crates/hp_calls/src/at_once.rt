//! Both parts of a transfer in a row: over a store that holds the segment they make the flat machine's step.
ghost use Rattle.std.specs.Prelude.{◌≡◌, ℕ, List, slice_get, length};
ghost use Rattle.hp_call_rows.specs.CallRows.{called, exited};
ghost use Rattle.hp_tos.specs.StackView.{seen};
ghost use Rattle.hp_calls.specs.Phases.{HoldsOf, destination, finished};
ghost use Rattle.hp_calls.specs.Transfers.{Transfers, awaited, went};

use crate::calls::{exit, pcal};
use crate::phases::{Called, Phase};
use crate::transfers::finish_transfer;
use hp_program::CodeStore;
use hp_session::Regs;
use hp_tos::Stack;
use hp_word::Trap;

/// Finishes a transfer where the store holds its segment. The answer is what is still to be done.
#[tactic(auto, using(crate::proofs::PhaseLaws::finished_of, crate::proofs::PhaseLaws::finished_ready, crate::proofs::PhaseLaws::absent_of))]
fn finish_if_held<C: CodeStore>(phase: Phase, regs: &mut Regs, code: &C) -> Phase
    ensures same { (segments : List (List ℕ)) → HoldsOf segments (C.held code.now)
        → finished (slice_get segments) result regs.new ≡ finished (slice_get segments) phase regs.old }
    ensures waits { (seg : ℕ) → destination result ≡ Some seg → (result ≡ phase) × (regs.new ≡ regs.old) }
    ensures absent { (seg : ℕ) → destination result ≡ Some seg → C.held code.now seg ≡ None }
{
    match finish_transfer(phase, regs, code) {
        Ok(()) => Phase::Ready,
        Err(_) => phase,
    }
}

/// PCAL, and the second part of its transfer too where the store holds the segment.
pub fn call_at_once<C: CodeStore>(
    n: u8,
    regs: &mut Regs,
    stack: &mut Stack,
    code: &C,
) -> Result<Called, Trap>
    ensures row { (segments : List (List ℕ)) → slice_get segments regs.old.seg ≡ C.held code.now regs.old.seg → HoldsOf segments (C.held code.now)
        → Transfers segments (called segments n) 4 regs.old (seen stack.old) result regs.new (seen stack.new) }
    ensures here { (seg : ℕ) → awaited result ≡ Some seg → C.held code.now seg ≡ None }
{
    match pcal(n, regs, stack, code)? {
        Called::Went(phase) => Ok(Called::Went(finish_if_held(phase, regs, code))),
        Called::Gate(intrinsic) => Ok(Called::Gate(intrinsic)),
    }
}

/// EXIT, and the second part of its transfer too where the store holds the segment.
pub fn exit_at_once<C: CodeStore>(
    n: u8,
    segments: u8,
    regs: &mut Regs,
    stack: &mut Stack,
    code: &C,
) -> Result<Phase, Trap>
    ensures row { (program : List (List ℕ)) → length program ≡ segments → HoldsOf program (C.held code.now)
        → Transfers program (exited program n) 0 regs.old (seen stack.old) (went result) regs.new (seen stack.new) }
    ensures here { (seg : ℕ) → awaited (went result) ≡ Some seg → C.held code.now seg ≡ None }
{
    let phase = exit(n, segments, regs, stack)?;
    Ok(finish_if_held(phase, regs, code))
}
