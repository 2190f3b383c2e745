//! PCAL and EXIT: the first part of each transfer, a whole step.
ghost use Rattle.std.specs.Prelude.{◌≡◌, ℕ, List, slice_get, length, IfOk};
ghost use Rattle.hp_instr.specs.Bits.{bits};
ghost use Rattle.hp_session.specs.State.{Machine};
ghost use Rattle.hp_call_rows.specs.CallRows.{called, exited, label_at, marker_at};
ghost use Rattle.hp_call_rows.specs.GateRows.{intrinsic};
ghost use Rattle.hp_tos.specs.StackView.{seen};
ghost use Rattle.hp_rows.specs.Standing.{standing};
ghost use Rattle.hp_calls.specs.Transfers.{Transfers, IsThrough, IsReady, handed_on, shortened, went, wanted};

use crate::markers::{push_marker, read_marker, with_status};
use crate::phases::{Called, Phase};
use crate::tables::label_at;
use hp_instr::Label;
use hp_program::CodeStore;
use hp_session::Regs;
use hp_tos::Stack;
use hp_word::{Intrinsic, Trap};

/// The intrinsic of an entry of the gate.
fn intrinsic(entry: u8) -> Option<Intrinsic>
    ensures { result ≡ intrinsic entry }
{
    match entry {
        1 => Some(Intrinsic::Print),
        2 => Some(Intrinsic::Read),
        3 => Some(Intrinsic::Ascii),
        4 => Some(Intrinsic::Dascii),
        5 => Some(Intrinsic::Binary),
        6 => Some(Intrinsic::Dbinary),
        7 => Some(Intrinsic::Terminate),
        8 => Some(Intrinsic::Quit),
        _ => None,
    }
}

/// PCAL: calls the procedure of entry `n` of the current segment. A marker is pushed, and Q addresses its last word.
///
/// Through a local label the next step is the procedure's first. Through an external one the call is not finished: it leaves
/// the phase `Entering`, which `finish_transfer` ends once the segment is there, and until then segment and offset of P are the
/// caller's. The label of segment 255 is an intrinsic, which is handed on; nothing is pushed for it, and P stays. The status is
/// pushed as it stands, so whoever steps a processor clears R first.
///
/// What the store holds of the current segment are the words of that segment in some program: the row is that program's. A trap
/// leaves the list of words, the extra segment, all registers and the mode as they were; the registers of the stack were spilled.
/// Takes no memory.
#[tactic(auto, unfolding(hp_call_rows::specs::CallRows::called, hp_call_rows::specs::CallRows::called_through, hp_call_rows::specs::CallRows::entered, hp_call_rows::specs::CallRows::marker, hp_call_rows::specs::GateRows::served, crate::specs::Phases::finished))]
pub fn pcal<C: CodeStore>(
    n: u8,
    regs: &mut Regs,
    stack: &mut Stack,
    code: &C,
) -> Result<Called, Trap>
    ensures row { (segments : List (List ℕ)) → slice_get segments regs.old.seg ≡ C.held code.now regs.old.seg
        → Transfers segments (called segments n) 4 regs.old (seen stack.old) result regs.new (seen stack.new) }
    // the phase is that of the label, and what is handed on to the gate is exactly a call of an intrinsic in whole mode
    ensures phase { (segments : List (List ℕ)) → slice_get segments regs.old.seg ≡ C.held code.now regs.old.seg → (rest : Machine)
        → IfOk result (λ called. IfOk (label_at segments n (standing regs.old (seen stack.old) rest)) (λ l. IsThrough l called)) }
    ensures gate { (segments : List (List ℕ)) → slice_get segments regs.old.seg ≡ C.held code.now regs.old.seg → (rest : Machine)
        → handed_on result ≡ wanted (seen stack.old).split (label_at segments n (standing regs.old (seen stack.old) rest)) }
    // it can be served at once, whatever the store holds
    ensures ready { IsReady result (seen stack.new) }
{
    stack.flush();
    if stack.is_split() {
        return Err(Trap::Mode);
    }
    match label_at(n, regs, code)? {
        Label::Local(offset) => {
            push_marker(regs, stack)?;
            regs.p = offset;
            Ok(Called::Went(Phase::Ready))
        }
        Label::External { seg: 255, entry } => match intrinsic(entry) {
            Some(intrinsic) => Ok(Called::Gate(intrinsic)),
            None => Err(Trap::BadEntry),
        },
        Label::External { seg, entry } => {
            push_marker(regs, stack)?;
            Ok(Called::Went(Phase::Entering { seg, entry }))
        }
        Label::Bad(_) => Err(Trap::BadEntry),
    }
}

/// Leaves the lowest words alone on a stack.
fn keep_words(stack: &mut Stack, kept: u16)
    ensures { seen stack.new ≡ shortened kept (seen stack.old) }
{
    let above = stack.words().saturating_sub(kept);
    stack.drop_words(above).unwrap();
}

/// EXIT: returns from a procedure, over the marker whose last word Q addresses, and deletes `n` words beneath it. `segments` is
/// the number of the program's segments.
///
/// The caller's X, Q and status are restored but for its segment and the offset: the return is not finished, and leaves the phase
/// `Returning`, which `finish_transfer` ends once the segment is there. Until then segment and offset of P are those of the
/// procedure that was left.
///
/// A trap leaves the list of words, the extra segment, all registers and the mode as they were; the registers of the stack were
/// spilled. Takes no memory.
#[tactic(auto, unfolding(hp_call_rows::specs::CallRows::exited, hp_call_rows::specs::CallRows::returned, hp_call_rows::specs::CallRows::with_status, crate::specs::Phases::finished))]
pub fn exit(n: u8, segments: u8, regs: &mut Regs, stack: &mut Stack) -> Result<Phase, Trap>
    ensures row { (program : List (List ℕ)) → length program ≡ segments
        → Transfers program (exited program n) 0 regs.old (seen stack.old) (went result) regs.new (seen stack.new) }
    // the phase has the segment and the offset of the marker
    ensures phase { (rest : Machine) → IfOk result (λ phase. IfOk (marker_at regs.old.q (standing regs.old (seen stack.old) rest))
        (λ k. phase ≡ Phase.Returning (bits 8 15 k.status) k.offset)) }
{
    stack.flush();
    if stack.is_split() {
        return Err(Trap::Mode);
    }
    let marker = read_marker(regs.q, stack)?;
    let seg = (marker.status % 256) as u8;
    if segments <= seg {
        return Err(Trap::BadEntry);
    }
    let q = regs.q;
    let gone = n as u16 + 3;
    let old_q = q.wrapping_sub(marker.delta);
    if q < gone || q - gone <= old_q {
        return Err(Trap::StackUnderflow);
    }
    keep_words(stack, q - gone);
    *regs = Regs {
        x: marker.x,
        q: old_q,
        p: regs.p,
        seg: regs.seg,
        ..with_status(marker.status, *regs)
    };
    Ok(Phase::Returning {
        seg,
        offset: marker.offset,
    })
}
