//! The tokens of a unit.
use crate::names_and_places::{At, Chars, Name};

/// What stands at a token.
#[derive(Debug, PartialEq, Eq, Drop)]
pub enum What {
    /// A name or a reserved word.
    Word(Name),
    /// A number without the suffix D.
    Number(u16),
    /// A number with the suffix D.
    Wide(u32),
    /// A string.
    Text(Chars),
    /// A mark, by its number below.
    Mark(u8),
    /// The end of the text.
    End,
}

/// A token, with the place of its first byte and the number of the segment in force there.
#[derive(Debug, PartialEq, Eq, Drop)]
pub struct Token {
    pub what: What,
    pub at: At,
    pub segment: u16,
}

/// The tokens of a unit, which end with its only `End`; the names of the segments that its tokens number; and whether it
/// is a subprogram.
#[derive(Debug, PartialEq, Eq, Drop)]
pub struct Lexed {
    pub tokens: Vec<Token>,
    pub segments: Vec<Name>,
    pub subprogram: bool,
}
