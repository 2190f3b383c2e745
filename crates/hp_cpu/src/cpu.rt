//! A processor between two steps, and what a step answers.
ghost use Rattle.std.specs.Prelude.{◌≡◌};

use hp_calls::Phase;
use hp_session::Regs;
use hp_tos::Stack;
use hp_word::{Intrinsic, Trap};

/// A session's processor: its registers, its stack, of which some top words may stand in registers, and the transfer that is
/// under way. It holds no code: each step is given a store of it.
#[derive(Debug, Drop)]
pub struct Cpu {
    /// The registers but for those of the stack top. While a transfer is under way segment and offset of P are still those
    /// of the segment that is left.
    pub regs: Regs,
    /// What is still to be done of a call or a return before the next step.
    pub phase: Phase,
    /// The words of the stack and of the extra segment, and the mode.
    pub stack: Stack,
    /// How many segments the program has, 1 to 62. No step changes it.
    pub segments: u8,
}

/// What came of a step.
#[derive(Clone, Copy, Debug, PartialEq, Eq)]
pub enum Stepped {
    /// The step is done.
    Went,
    /// The store does not hold the segment with this number, which the step needs. Nothing has changed.
    Absent(u8),
    /// The step is the call of an intrinsic, which is not done here. P is still at the call.
    Gate(Intrinsic),
    /// The step trapped, and the session is as it was.
    Trapped(Trap),
}

impl Cpu {
    ghost use Rattle.hp_cpu.specs.Stood.{needed};

    /// The number of the one segment that the next step needs.
    pub fn needed_segment(&self) -> u8
        ensures { result ≡ needed self.now }
    {
        match self.phase {
            Phase::Ready => self.regs.seg,
            Phase::Entering { seg, .. } | Phase::Returning { seg, .. } => seg,
        }
    }
}
