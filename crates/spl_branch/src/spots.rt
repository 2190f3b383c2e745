//! Places in the words of code, and where the piece behind another stands.
ghost use Rattle.std.specs.Prelude.{◌≡◌, ◌+◌, ◌<◌, ◌^◌, drop, false};
ghost use Rattle.spl_branch.specs.Stands.{ahead, moved};

use crate::pieces::Piece;
use hp_instr::{Instr, Op};

/// A place in the words of code: an offset, and which half of the word there.
#[derive(Clone, Copy, Debug, PartialEq, Eq)]
pub struct Spot {
    /// In words, from the start of the module or of the segment.
    pub offset: usize,
    /// Whether it is the right half, the second stack operation of a word.
    pub right: bool,
}

/// The left half of a word, or a word of one instruction.
pub fn left_of(offset: usize) -> Spot
    ensures { result ≡ record { offset = offset; right = false } }
{
    Spot {
        offset,
        right: false,
    }
}

/// The stack operation that the piece with this index is; NOP where it is none.
pub fn operation_at(pieces: &[Piece], index: usize) -> Op
    ensures { result ≡ ahead (drop index pieces.now) }
{
    match pieces.get(index) {
        Some(Piece::Do(Instr::Pair { left, .. })) => *left,
        _ => Op::NOP,
    }
}

/// Where the next piece stands, with the stack operation that it is, where a branch has so many words.
pub fn past(spot: Spot, words: usize, piece: &Piece, next: Op) -> Spot
    requires one { spot.offset + 1 < 2 ^ 64 }
    requires all { spot.offset + words < 2 ^ 64 }
    ensures { result ≡ moved words spot piece.now next }
{
    match piece {
        Piece::Do(Instr::Pair { .. }) if !spot.right && next.code != 0 => Spot {
            offset: spot.offset,
            right: true,
        },
        Piece::Do(_) | Piece::Literal(_) | Piece::Place(_) | Piece::Call { .. } => {
            left_of(spot.offset + 1)
        }
        Piece::Branch { .. } => left_of(spot.offset + words),
        Piece::Mark(_) | Piece::Begin(_) => spot,
    }
}
