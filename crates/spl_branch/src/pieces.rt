//! The parts of code, with marks for the places that branches and entries lead to.
use hp_instr::Instr;
use spl_tree::At;

/// A part of the code. Marks are numbers that `Code::fresh` gave.
#[derive(Clone, Copy, Debug, PartialEq, Eq)]
pub enum Piece {
    /// An instruction. A stack operation stands alone, as a pair with NOP on its right; two that follow one another come
    /// into one word.
    Do(Instr),
    /// A word that lies in the code.
    Literal(u16),
    /// A word that holds the offset of a mark, in words from the start of the segment.
    Place(usize),
    /// A direct branch to a mark, whatever its displacement says.
    Branch {
        by: Instr,
        mark: usize,
    },
    /// The place of a mark.
    Mark(usize),
    /// A PCAL or SCAL, whatever its entry says, to a want or to an entry by its index.
    Call {
        by: Instr,
        wanted: bool,
        index: usize,
    },
    /// The beginning of a statement, at this place of the text.
    Begin(At),
}
