//! What a text begins with: a piece, or a fault.
ghost use Rattle.std.specs.Prelude.{◌≡◌, ◌<◌, ◌≤◌, length, map, MatchResult};
ghost use Rattle.spl_cuts.specs.Bytes as by;
ghost use Rattle.spl_cuts.specs.Reading as rd;
ghost use Rattle.spl_pieces.specs.PieceViews.{Turns};

use crate::bytes::allowed_length;
use crate::pieces::{Piece, piece_at};
use spl_cuts::LexKind;
use std::alloc::Global;

/// A fault, and how many bytes of the text stand before it.
#[derive(Clone, Copy, Debug, PartialEq, Eq)]
pub struct Fault {
    pub kind: LexKind,
    pub behind: usize,
}

/// What a text begins with, which is not empty: a piece, where none of its bytes is allowed nowhere. In the second text
/// a blank stands for each such byte.
#[tactic(auto, unfolding(spl_cuts::specs::Reading::turn, spl_cuts::specs::Reading::checked))]
pub fn turn(alloc: Global, begins_line: bool, text: &[u8], blanked: &[u8]) -> Result<Piece, Fault>
    requires { blanked.now ≡ map by.blanked text.now }
    ensures turn { Turns (rd.turn begins_line text.now) result }
    ensures within { MatchResult result (λ p. (0 < p.size) × (p.size ≤ length text.now)) (λ f. f.behind ≤ length text.now) }
{
    match piece_at(alloc, begins_line, blanked) {
        Err(kind) => Err(Fault { kind, behind: 0 }),
        Ok(piece) => {
            let good = allowed_length(&text[..piece.size]);
            if good < piece.size {
                Err(Fault {
                    kind: LexKind::BadByte,
                    behind: good,
                })
            } else {
                Ok(piece)
            }
        }
    }
}
