//! From pieces to a module.
ghost use Rattle.std.specs.Prelude.{◌≡◌, ℕ, ◌<◌, ◌≤◌, map, length, slice_index, option_map, true, IfOk, OnOk};
ghost use Rattle.std.specs.List.{list_all};
ghost use Rattle.spl_branch.specs.Pieces.{is_set, is_set_if, named, is_indexed, InStep};
ghost use Rattle.spl_branch.specs.Modules.{Placed, define_of};

use crate::buffer::{Code, Entry};
use crate::modules::{Define, Module};
use crate::pieces::Piece;
use crate::rounds::settle;
use crate::survey::survey;
use crate::words::{offset_of, write_words};
use std::alloc::{AllocError, Global};

/// The offsets of the marks, or none where the pieces have more than 16,383 words.
fn place_marks(
    alloc: Global,
    pieces: &[Piece],
    marks: &[bool],
) -> Result<Option<Vec<u16>>, AllocError>
    requires in_step { InStep pieces.now marks.now }
    requires set { list_all (λ x. is_set_if marks.now (named x)) pieces.now ≡ true }
    ensures { IfOk result (λ o. Placed o pieces.now) }
{
    match survey(alloc, pieces, marks.len())? {
        None => Ok(None),
        Some(plan) => settle(alloc, &plan),
    }
}

/// The defines of entries, with the marks at these offsets.
fn defines_of(alloc: Global, entries: Vec<Entry>, at: &[u16]) -> Result<Vec<Define>, AllocError>
    ensures { IfOk result (λ v. v.items ≡ map (define_of (λ l. slice_index at.now l)) entries.items) }
{
    let mut defines = Vec::with_capacity(alloc, entries.len())?;
    for entry in entries {
        let Entry {
            name,
            mark,
            callable,
        } = entry;
        defines.push(Define {
            name,
            offset: offset_of(at, mark),
            callable,
        })?;
    }
    Ok(defines)
}

/// The offset of the main body's mark, with the marks at these offsets.
fn main_of(main: Option<usize>, at: &[u16]) -> Option<u16>
    ensures { result ≡ option_map (λ l. slice_index at.now l) main }
{
    match main {
        None => None,
        Some(mark) => Some(offset_of(at, mark)),
    }
}

/// Whether the mark that a piece names, if it names one, is set.
fn names_set(marks: &[bool], piece: &Piece) -> bool
    ensures { result ≡ is_set_if marks.now (named piece.now) }
{
    match piece {
        Piece::Place(mark) | Piece::Branch { mark, .. } | Piece::Mark(mark) => is_set(marks, *mark),
        _ => true,
    }
}

/// Whether a mark is set.
fn is_set(marks: &[bool], mark: usize) -> bool
    ensures { result ≡ is_set marks.now mark }
{
    marks.get(mark).copied().unwrap_or(false)
}

/// Whether each mark that pieces name is set.
fn pieces_are_set(marks: &[bool], pieces: &[Piece]) -> bool
    ensures { result ≡ list_all (λ x. is_set_if marks.now (named x)) pieces.now }
{
    pieces.iter().all(|piece| names_set(marks, piece))
}

/// Whether each entry's mark is set.
fn entries_are_set(marks: &[bool], entries: &[Entry]) -> bool
    ensures { result ≡ list_all (λ e. is_set marks.now e.mark) entries.now }
{
    entries.iter().all(|entry| is_set(marks, entry.mark))
}

/// Whether each call has its want or its entry.
fn calls_have_index(wants: usize, entries: usize, pieces: &[Piece]) -> bool
    ensures { result ≡ list_all (is_indexed wants entries) pieces.now }
{
    pieces.iter().all(|piece| has_index(wants, entries, piece))
}

/// Whether the mark of the main body is set, where there is one.
fn main_is_set(marks: &[bool], main: Option<usize>) -> bool
    ensures { result ≡ is_set_if marks.now main }
{
    match main {
        None => true,
        Some(mark) => is_set(marks, mark),
    }
}

/// Whether a call has its want or its entry.
fn has_index(wants: usize, entries: usize, piece: &Piece) -> bool
    ensures { result ≡ is_indexed wants entries piece.now }
{
    match piece {
        Piece::Call { wanted, index, .. } => *index < if *wanted { wants } else { entries },
        _ => true,
    }
}

impl Code {
    ghost use Rattle.std.specs.Prelude.{◌≡◌, ◌<◌, ◌≤◌, IfOk, IsTrue, ◌↔◌};
    ghost use Rattle.spl_branch.specs.Pieces.{count_of};
    ghost use Rattle.spl_branch.specs.Codes.{IsComplete};
    ghost use Rattle.spl_branch.specs.Modules.{Finished, Oversized};

    /// Whether each mark that a piece, an entry or the main body names is set, and each call has its want or entry.
    pub fn is_complete(&self) -> bool
        ensures { IsTrue result ↔ IsComplete self.now }
    {
        let marks = self.marks.as_slice();
        pieces_are_set(marks, self.pieces.as_slice())
            && entries_are_set(marks, self.entries.as_slice())
            && main_is_set(marks, self.main)
            && calls_have_index(self.wants.len(), self.entries.len(), self.pieces.as_slice())
    }

    /// The module: words that stand for the pieces, with a fix for each call and each place. Pieces of more than 16,383
    /// words give an oversized module.
    pub fn finish(self, alloc: Global) -> Result<Module, AllocError>
        requires { IsComplete self }
        ensures segment { IfOk result (λ m. m.segment ≡ self.segment) }
        ensures wants { IfOk result (λ m. m.wants ≡ self.wants) }
        ensures finished { IfOk result (λ m. m.size ≤ 16383 → Finished self m) }
        ensures oversized { IfOk result (λ m. 16383 < m.size → Oversized self m) }
        ensures count { IfOk result (λ m. m.size ≤ count_of self.pieces.items) }
    {
        let Code {
            segment,
            pieces,
            marks,
            entries,
            wants,
            main,
            names: _names,
        } = self;
        match place_marks(alloc, pieces.as_slice(), marks.as_slice())? {
            None => Ok(Module {
                segment,
                size: 16384,
                words: Vec::new(alloc),
                defines: defines_of(alloc, entries, &[])?,
                wants,
                fixes: Vec::new(alloc),
                main: main_of(main, &[]),
                starts: Vec::new(alloc),
            }),
            Some(at) => {
                let out = write_words(alloc, pieces.as_slice(), at.as_slice())?;
                Ok(Module {
                    segment,
                    size: out.words.len() as u32,
                    words: out.words,
                    defines: defines_of(alloc, entries, at.as_slice())?,
                    wants,
                    fixes: out.fixes,
                    main: main_of(main, at.as_slice()),
                    starts: out.starts,
                })
            }
        }
    }
}
