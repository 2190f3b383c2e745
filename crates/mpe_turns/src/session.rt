//! A session at its terminal, and what a turn answers.
use hp_word::{Ending, Trap};
use mpe_session::Terminal;
use mpe_worlds::hp_cpu::Cpu;

/// A session of a monitor.
#[derive(Debug, Drop)]
pub struct Session {
    /// Its processor.
    pub cpu: Cpu,
    /// Its terminal.
    pub terminal: Terminal,
    /// The program that it runs, counted from 0.
    pub program: u8,
    /// Where its run stands.
    pub ending: Ending,
    /// How many steps it has made.
    pub steps: u64,
}

/// What came of a turn.
#[derive(Clone, Copy, Debug, PartialEq, Eq)]
pub enum Turned {
    /// All steps of the quantum were made, and the session lives.
    Quantum,
    /// Fewer were made: the next step needs the segment with this number, which is not loaded. The session lives.
    NeedsSegment(u8),
    /// The last step ended the session, not in a trap.
    Ended(Ending),
    /// The last step trapped.
    Trapped(Trap),
}
