//! A seat: what a job says of one session.

use hp_session::Line;

/// What a job says of one session.
#[derive(Debug, Drop)]
pub struct Seat {
    /// The program that it runs, counted from 0 in the order of the job.
    pub program: u8,
    /// STACK, the greatest number of words on its stack.
    pub stack: u16,
    /// EXTRA, the words of its extra segment.
    pub extra: u16,
    /// The greatest number of bytes that it may print.
    pub room: u32,
    /// What is typed at its terminal, the first line first.
    pub lines: Vec<Line>,
}
