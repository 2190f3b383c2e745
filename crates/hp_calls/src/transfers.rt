//! The second part of a transfer.
ghost use Rattle.std.specs.Prelude.{◌≡◌, OnOk, OnErr};
ghost use Rattle.hp_calls.specs.Phases.{arrived, finished};

use crate::phases::Phase;
use crate::tables::table_word;
use hp_program::CodeStore;
use hp_session::Regs;

/// Finishes a transfer: P is set to the entry's offset, which the new segment's table has, or to the offset that the marker had.
/// With the phase `Ready` nothing is to be done.
///
/// Where the store does not hold the phase's segment its number is the error, and nothing has changed, so that the same phase
/// can be finished later.
#[tactic(auto, unfolding(crate::specs::Phases::arrived, crate::specs::Phases::finished))]
pub fn finish_transfer<C: CodeStore>(phase: Phase, regs: &mut Regs, code: &C) -> Result<(), u8>
    ensures value { result ≡ arrived (C.held code.now) phase }
    ensures ok { OnOk result (regs.new ≡ finished (C.held code.now) phase regs.old) }
    ensures err { OnErr result (regs.new ≡ regs.old) }
{
    let (seg, offset) = match phase {
        Phase::Ready => return Ok(()),
        Phase::Entering { seg, entry } => (seg, table_word(code, seg, entry)),
        Phase::Returning { seg, offset } => (seg, offset),
    };
    if code.size(seg).is_none() {
        return Err(seg);
    }
    regs.seg = seg;
    regs.p = offset;
    Ok(())
}
