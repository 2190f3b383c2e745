//! A job as it is read.

use mpe_session::Seat;
use spl_tree::{Chars, Name};

/// The texts of a program.
#[derive(Debug, Drop)]
pub struct Text {
    /// The program's name, in capitals.
    pub name: Name,
    /// The text of each unit: its lines, each with its line feed.
    pub units: Vec<Chars>,
}

/// A job.
#[derive(Debug, Drop)]
pub struct Job {
    /// MEMORY, in words.
    pub memory: u32,
    /// QUANTUM, the steps of a turn.
    pub quantum: u32,
    /// TURNS, the turns of all sessions together.
    pub turns: u32,
    /// Statistics are wanted.
    pub stats: bool,
    /// The programs, in order.
    pub programs: Vec<Text>,
    /// What is said of each session, in order.
    pub seats: Vec<Seat>,
}
