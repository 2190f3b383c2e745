//! A node of the table.

/// A link to no node; where a list's head would have a link, its ends stand.
pub const NONE: u16 = 65_535;

/// A region, or a free node, with its links: numbers of nodes, or `NONE`.
#[derive(Clone, Copy, Debug, PartialEq, Eq)]
pub struct Node {
    /// Which segment it is.
    pub key: u32,
    /// Its first word, counted from the start of the area.
    pub place: u32,
    /// The number of its words.
    pub size: u16,
    /// The region before it in order of place.
    pub left: u16,
    /// The region behind it in order of place; of a free node the next free one.
    pub right: u16,
    /// The region that was used last before it.
    pub older: u16,
    /// The region that was used next after it.
    pub newer: u16,
    /// Whether a region stands here.
    pub live: bool,
}
