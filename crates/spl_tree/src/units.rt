//! Units of source.
use crate::declarations::Decl;
use crate::names_and_places::{At, Name};
use crate::statements::Stmt;

/// A unit: the global declarations and the main body.
#[derive(Debug, Drop)]
pub struct SplUnit {
    pub subprogram: bool,
    /// The names of the segments that its headings and `segment` number.
    pub segments: Vec<Name>,
    pub items: Vec<Decl>,
    pub statements: Vec<Stmt>,
    /// The number of the main body's segment.
    pub segment: u16,
    /// The place of its first token.
    pub at: At,
}
