//! What is still to be done of a transfer, and what a call answers.
use hp_word::Intrinsic;

/// Where a processor stands between two steps. A phase other than `Ready` names the one segment that the next step needs.
#[derive(Clone, Copy, Debug, PartialEq, Eq)]
pub enum Phase {
    /// Segment and offset of P are those of the next step.
    Ready,
    /// A call has pushed its marker, and is to go to an entry, 1 to 127, of a segment's table.
    Entering { seg: u8, entry: u8 },
    /// A return has removed its frame, and is to go to an offset, in words from the segment's start.
    Returning { seg: u8, offset: u16 },
}

/// What came of a PCAL.
#[derive(Clone, Copy, Debug, PartialEq, Eq)]
pub enum Called {
    /// It went to a procedure, or is on its way there.
    Went(Phase),
    /// It is the call of an intrinsic, which is not done here.
    Gate(Intrinsic),
}
