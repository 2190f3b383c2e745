//! What became of a segment that was needed.

/// Whether a segment was loaded already.
#[derive(Clone, Copy, Debug, PartialEq, Eq)]
pub enum Loaded {
    /// It was.
    There,
    /// It was brought in: its place in memory, in words from the start of memory, and how many segments were given up.
    Brought { place: u32, given_up: u16 },
}
