//! The registers of a session's processor.
use hp_word::Code;

/// The registers, but for those of the stack top: X, Q, the place of the next step, and the status.
#[derive(Clone, Copy, Debug, PartialEq, Eq)]
pub struct Regs {
    /// The index register X.
    pub x: u16,
    /// Q, the address of the live marker's last word.
    pub q: u16,
    /// P, in words from the start of the current segment.
    pub p: u16,
    /// The current segment's number.
    pub seg: u8,
    /// That user traps are on.
    pub traps: bool,
    /// R: that the next step is the right operation of the word at P.
    pub right: bool,
    /// The overflow bit.
    pub overflow: bool,
    /// The carry bit.
    pub carry: bool,
    /// The condition code.
    pub code: Code,
}
