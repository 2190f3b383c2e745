//! Where a session stands when it is reported.

use hp_word::Ending;
use spl_tree::{Chars, Name};

/// Where a session stands when it is reported.
#[derive(Debug, Drop)]
pub struct Point {
    /// The name of its program.
    pub name: Name,
    /// The bytes that it printed.
    pub printed: Chars,
    /// How it ended, if it did.
    pub ending: Ending,
    /// The steps that it made.
    pub steps: u64,
    /// The words that were brought into registers.
    pub fills: u64,
    /// The words that were put from registers into memory.
    pub spills: u64,
}
