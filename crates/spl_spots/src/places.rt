//! Where a word stands.

/// The place of a word, in words.
#[derive(Clone, Copy, Debug, PartialEq, Eq)]
pub enum Place {
    /// The address of a data word.
    DataWord(u64),
    /// Above the base of a frame, the last word of its marker.
    AboveBase(u64),
    BelowBase(u64),
    /// Below the return word of a subroutine.
    BelowReturn(u64),
}
