//! The room of a body.
use spl_tree::At;

/// What a body needs.
#[derive(Clone, Copy, Debug, PartialEq, Eq)]
pub struct Room {
    /// The place of its heading's name; of a main body that of its unit.
    pub at: At,
    /// The words of its local items and their arrays' data. A subroutine and a main body have none.
    pub locals: u64,
    /// The greatest number of words that wait in it, and 8 more; of a subroutine those above its return word.
    pub depth: u64,
    /// The place of its result, where it has one: of a procedure from Q, of a subroutine from its return word, as a
    /// two's complement word.
    pub result: Option<u16>,
}
