//! The words of pieces, their fixes and their starts, once the marks' offsets are known.
ghost use Rattle.std.specs.Prelude.{◌≡◌, ℕ, ◌+◌, ◌<◌, ◌≤◌, ◌^◌, ◌++◌, length, slice_index, true, IfOk, OnOk, IsTrue};
ghost use Rattle.std.specs.List.{list_all};
ghost use Rattle.hp_instr.specs.Given.{has_word};
ghost use Rattle.hp_instr.specs.Fields.{is_op};
ghost use Rattle.spl_branch.specs.Pieces.{is_formed, is_direct, is_call};
ghost use Rattle.spl_branch.specs.Branches.{reach, aimed, calling, is_far};
ghost use Rattle.spl_branch.specs.Stands.{at_left, end_of, size_at};
ghost use Rattle.spl_branch.specs.Fixes.{piece_fixes, fixes_of, piece_starts, starts_of};
ghost use Rattle.spl_branch.specs.Words.{instr_words, distance, far_words, branch_words, piece_words, words_of};

use crate::modules::{Fix, FixKind, Start};
use crate::pieces::Piece;
use crate::spots::{Spot, left_of, operation_at, past};
use crate::survey::{more_of, reach_of};
use hp_instr::{Instr, Op, encode};
use std::alloc::{AllocError, Global};

/// The words of pieces, with what the segmenter must know of them.
#[derive(Debug, Drop)]
pub struct Output {
    pub words: Vec<u16>,
    pub fixes: Vec<Fix>,
    pub starts: Vec<Start>,
}

/// The offset of a mark; one that is not there stands at the start.
pub fn offset_of(at: &[u16], mark: usize) -> u16
    ensures { result ≡ slice_index at.now mark }
{
    at.get(mark).copied().unwrap_or(0)
}

/// The same branch with another displacement, which its short form reaches.
#[tactic(auto, unfolding(hp_instr::specs::Given::has_word))]
fn aimed_at(by: Instr, back: bool, d: u8) -> Instr
    requires formed { has_word by ≡ true }
    requires direct { is_direct by ≡ true }
    requires reached { d ≤ reach by }
    ensures value { result ≡ aimed by back d }
    ensures formed { has_word result ≡ true }
{
    match by {
        Instr::Short { test, .. } => Instr::Short { test, back, d },
        Instr::Branch { i, .. } => Instr::Branch { i, back, d },
        Instr::OnCode { mask, .. } => Instr::OnCode { mask, back, d },
        Instr::Loop { modify, .. } => Instr::Loop { modify, back, d },
        _ => by,
    }
}

/// A call with 0 as its number.
#[tactic(auto, unfolding(hp_instr::specs::Given::has_word))]
fn unnumbered(by: Instr) -> Instr
    requires formed { has_word by ≡ true }
    requires call { is_call by ≡ true }
    ensures value { result ≡ calling by 0 }
    ensures formed { has_word result ≡ true }
{
    match by {
        Instr::Control { which, .. } => Instr::Control { which, n: 0 },
        _ => by,
    }
}

/// The word at `from` that, added to its own offset, gives `to`.
fn distance(from: u16, to: u16) -> u16
    ensures { result ≡ distance from to }
{
    ((to as u32 + 65536 - from as u32) % 65536) as u16
}

/// Appends the long form of a branch.
fn put_far(words: &mut Vec<u16>, by: Instr, from: u16, to: u16) -> Result<(), AllocError>
    requires formed { has_word by ≡ true }
    requires direct { is_direct by ≡ true }
    requires low { from ≤ 16383 }
    ensures { OnOk result (words.new.items ≡ words.old.items ++ far_words by from to) }
{
    let through = encode(Instr::Branch {
        i: true,
        back: false,
        d: 1,
    });
    if matches!(by, Instr::Branch { .. }) {
        words.extend_from_slice(&[through, distance(from + 1, to)])?;
    } else {
        let past = encode(Instr::Branch {
            i: false,
            back: false,
            d: 3,
        });
        let over = encode(aimed_at(by, false, 2));
        words.extend_from_slice(&[over, past, through, distance(from + 3, to)])?;
    }
    Ok(())
}

/// Whether a branch does not reach so far.
fn is_far(by: Instr, from: u16, to: u16) -> bool
    ensures { result ≡ is_far by from to }
{
    let gap = if to < from { from - to } else { to - from };
    reach_of(by) < gap as usize
}

/// Appends a branch, in its short form where that reaches.
fn put_branch(words: &mut Vec<u16>, by: Instr, from: u16, to: u16) -> Result<(), AllocError>
    requires formed { has_word by ≡ true }
    requires direct { is_direct by ≡ true }
    requires low { from ≤ 16383 }
    ensures { OnOk result (words.new.items ≡ words.old.items ++ branch_words by from to) }
{
    if is_far(by, from, to) {
        put_far(words, by, from, to)?;
    } else {
        let back = to < from;
        let d = if back { from - to } else { to - from };
        words.push(encode(aimed_at(by, back, d as u8)))?;
    }
    Ok(())
}

/// Appends an instruction. A stack operation takes the one that follows into its word; one on the right has its word.
fn put_instr(words: &mut Vec<u16>, spot: Spot, by: Instr, next: Op) -> Result<(), AllocError>
    requires formed { has_word by ≡ true }
    requires next { is_op next.code ≡ true }
    ensures { OnOk result (words.new.items ≡ words.old.items ++ instr_words spot by next) }
{
    match by {
        Instr::Pair { left, .. } => {
            if !spot.right {
                words.push(encode(Instr::Pair { left, right: next }))?;
            }
        }
        _ => words.push(encode(by))?,
    }
    Ok(())
}

/// How many words a piece has if it is a branch.
fn size_of(piece: &Piece, from: u16, at: &[u16]) -> usize
    ensures value { result ≡ size_at (λ l. slice_index at.now l) from piece.now }
    ensures small { result ≤ 4 }
{
    match piece {
        Piece::Branch { by, mark } if is_far(*by, from, offset_of(at, *mark)) => 1 + more_of(*by),
        _ => 1,
    }
}

impl Output {
    ghost use Rattle.std.specs.Prelude.{◌≡◌, ◌≤◌, ◌++◌, true, slice_index, OnOk};
    ghost use Rattle.hp_instr.specs.Fields.{is_op};
    ghost use Rattle.spl_branch.specs.Pieces.{is_formed};
    ghost use Rattle.spl_branch.specs.Fixes.{piece_fixes, piece_starts};
    ghost use Rattle.spl_branch.specs.Words.{piece_words};

    /// Appends a piece.
    fn put(&mut self, spot: Spot, piece: &Piece, next: Op, at: &[u16]) -> Result<(), AllocError>
        requires formed { is_formed piece.now ≡ true }
        requires next { is_op next.code ≡ true }
        requires low { spot.offset ≤ 16383 }
        ensures words { OnOk result (self.new.words.items ≡ self.old.words.items ++ piece_words (λ l. slice_index at.now l) spot piece.now next) }
        ensures fixes { OnOk result (self.new.fixes.items ≡ self.old.fixes.items ++ piece_fixes (λ l. slice_index at.now l) spot piece.now) }
        ensures starts { OnOk result (self.new.starts.items ≡ self.old.starts.items ++ piece_starts spot piece.now) }
    {
        let offset = spot.offset as u16;
        match piece {
            Piece::Do(by) => put_instr(&mut self.words, spot, *by, next)?,
            Piece::Literal(word) => self.words.push(*word)?,
            Piece::Place(mark) => {
                let to = offset_of(at, *mark);
                self.words.push(to)?;
                self.fixes.push(Fix {
                    offset,
                    kind: FixKind::Place,
                    index: to as usize,
                })?;
            }
            Piece::Branch { by, mark } => {
                put_branch(&mut self.words, *by, offset, offset_of(at, *mark))?;
            }
            Piece::Mark(_) => {}
            Piece::Call { by, wanted, index } => {
                self.words.push(encode(unnumbered(*by)))?;
                self.fixes.push(Fix {
                    offset,
                    kind: if *wanted {
                        FixKind::Want
                    } else {
                        FixKind::Define
                    },
                    index: *index,
                })?;
            }
            Piece::Begin(at) => self.starts.push(Start { at: *at, offset })?,
        }
        Ok(())
    }
}

/// The words of pieces, which have at most 16,383, with the marks at these offsets.
pub fn write_words(alloc: Global, pieces: &[Piece], at: &[u16]) -> Result<Output, AllocError>
    requires formed { list_all is_formed pieces.now ≡ true }
    requires small { (end_of (λ l. slice_index at.now l) (at_left 0) pieces.now).offset ≤ 16383 }
    ensures words { IfOk result (λ o. o.words.items ≡ words_of (λ l. slice_index at.now l) (at_left 0) pieces.now) }
    ensures fixes { IfOk result (λ o. o.fixes.items ≡ fixes_of (λ l. slice_index at.now l) (at_left 0) pieces.now) }
    ensures starts { IfOk result (λ o. o.starts.items ≡ starts_of (λ l. slice_index at.now l) (at_left 0) pieces.now) }
{
    let mut out = Output {
        words: Vec::new(alloc),
        fixes: Vec::new(alloc),
        starts: Vec::new(alloc),
    };
    let mut spot = left_of(0);
    for (i, piece) in pieces.iter().enumerate() {
        let next = operation_at(pieces, i + 1);
        out.put(spot, piece, next, at)?;
        spot = past(spot, size_of(piece, spot.offset as u16, at), piece, next);
    }
    Ok(out)
}
