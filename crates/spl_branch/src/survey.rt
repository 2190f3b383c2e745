//! Where branches and marks stand while each branch has one word.
ghost use Rattle.std.specs.Prelude.{◌≡◌, ℕ, ◌+◌, ◌<◌, ◌≤◌, ◌^◌, length, replicate, IfOk, OnOk, ◌++◌, IfSome, MatchOption};
ghost use Rattle.spl_branch.specs.Branches.{reach, more};
ghost use Rattle.spl_branch.specs.Stands.{at_left};
ghost use Rattle.spl_branch.specs.Rounds.{short_end, piece_turns, turns_of, with_stand, stands_from, nowhere};

use crate::pieces::Piece;
use crate::spots::{Spot, left_of, operation_at, past};
use hp_instr::Instr;
use std::alloc::{AllocError, Global};

/// The most words that a module may have.
pub const MOST: usize = 16383;

/// A branch.
#[derive(Clone, Copy, Debug)]
pub struct Turn {
    /// Its offset, in words, while each branch has one word.
    pub place: u16,
    /// The mark that it leads to.
    pub mark: usize,
    pub by: Instr,
}

/// A mark.
#[derive(Clone, Copy, Debug)]
pub struct Stand {
    /// Its offset, in words, while each branch has one word.
    pub place: u16,
    /// How many branches stand before it.
    pub before: usize,
}

/// The branches and marks of pieces.
#[derive(Debug, Drop)]
pub struct Plan {
    /// In order of text.
    pub turns: Vec<Turn>,
    /// Of each mark.
    pub stands: Vec<Stand>,
    /// The number of words.
    pub size: usize,
}

/// How many words the short form of a branch reaches, forward or back.
pub fn reach_of(by: Instr) -> usize
    ensures value { result ≡ reach by }
    ensures small { result ≤ 255 }
{
    match by {
        Instr::Short { .. } | Instr::OnCode { .. } => 31,
        Instr::Branch { .. } | Instr::Loop { .. } => 255,
        _ => 0,
    }
}

/// How many words the long form of a branch has beyond one.
pub fn more_of(by: Instr) -> usize
    ensures value { result ≡ more by }
    ensures small { result ≤ 3 }
{
    if matches!(by, Instr::Branch { .. }) {
        1
    } else {
        3
    }
}

/// Notes the branch or the mark that a piece is.
fn note(
    turns: &mut Vec<Turn>,
    stands: &mut Vec<Stand>,
    spot: Spot,
    piece: &Piece,
) -> Result<(), AllocError>
    requires { spot.offset ≤ 16383 }
    ensures turns { OnOk result (turns.new.items ≡ turns.old.items ++ piece_turns spot piece.now) }
    ensures stands { OnOk result (stands.new.items ≡ with_stand stands.old.items spot (length turns.old.items) piece.now) }
{
    match piece {
        Piece::Branch { by, mark } => turns.push(Turn {
            place: spot.offset as u16,
            mark: *mark,
            by: *by,
        })?,
        Piece::Mark(mark) => {
            if *mark < stands.len() {
                stands[*mark] = Stand {
                    place: spot.offset as u16,
                    before: turns.len(),
                };
            }
        }
        _ => {}
    }
    Ok(())
}

/// The branches and marks of pieces, or none where there are more than 16,383 words.
pub fn survey(alloc: Global, pieces: &[Piece], marks: usize) -> Result<Option<Plan>, AllocError>
    ensures short { IfOk result (λ o. MatchOption o (16383 < (short_end (at_left 0) pieces.now).offset) (λ s. (s.size ≡ (short_end (at_left 0) pieces.now).offset) × (s.size ≤ 16383))) }
    ensures turns { IfOk result (λ o. IfSome o (λ s. s.turns.items ≡ turns_of (at_left 0) pieces.now)) }
    ensures stands { IfOk result (λ o. IfSome o (λ s. s.stands.items ≡ stands_from (replicate marks nowhere) (at_left 0) 0 pieces.now)) }
{
    let mut turns = Vec::new(alloc);
    let mut stands = vec![in alloc; Stand {
        place: 0,
        before: 0
    }; marks]?;
    let mut spot = left_of(0);
    for (i, piece) in pieces.iter().enumerate() {
        note(&mut turns, &mut stands, spot, piece)?;
        spot = past(spot, 1, piece, operation_at(pieces, i + 1));
        if spot.offset > MOST {
            return Ok(None);
        }
    }
    Ok(Some(Plan {
        turns,
        stands,
        size: spot.offset,
    }))
}
