//! A region: where a loaded segment lies.

/// The words of the area that a segment occupies.
#[derive(Clone, Copy, Debug, PartialEq, Eq)]
pub struct Region {
    /// Which segment it is. The table does not look into keys.
    pub key: u32,
    /// Its first word, counted from the start of the area.
    pub place: u32,
    /// The number of its words.
    pub size: u16,
}
