//! Code as it is generated: a list of pieces with marks.
ghost use Rattle.std.specs.Prelude.{◌≡◌, true, length, map};
ghost use Rattle.std.specs.List.{list_all};
ghost use Rattle.spl_branch.specs.Pieces.{is_formed, is_made, named, InStep};
ghost use Rattle.spl_branch.specs.Keys.{asked, seen};

use crate::modules::Want;
use crate::pieces::Piece;
use crate::wants::{Key, key_of};
use indexmap::IndexSet;
use spl_tree::Name;
use std::alloc::{AllocError, Global};

/// A procedure with a body, or a subroutine, while its code is generated.
#[derive(Debug, PartialEq, Eq, Drop)]
pub struct Entry {
    pub name: Name,
    /// The mark of its first instruction.
    pub mark: usize,
    /// Whether other modules may call it: false for a subroutine.
    pub callable: bool,
}

/// The code of a unit in one segment, while it is generated.
#[derive(Debug, Drop)]
pub struct Code {
    /// The name of the segment.
    pub segment: Name,
    pub pieces: Vec<Piece>,
    /// Of each mark, whether it is set.
    pub marks: Vec<bool>,
    /// In order of text.
    pub entries: Vec<Entry>,
    /// In order of first call.
    pub wants: Vec<Want>,
    /// The mark of the main body's first instruction, where the main body stands here.
    pub main: Option<usize>,
    /// The names of the wants, by which they are found.
    pub(crate) names: IndexSet<Key>,
    ghost keyed: { map seen names.keys ≡ map asked wants.items },
    ghost made: { list_all (λ x. is_made (length marks.items) (named x)) pieces.items ≡ true },
    ghost formed: { list_all is_formed pieces.items ≡ true },
    ghost in_step: { InStep pieces.items marks.items },
}

impl Code {
    ghost use Rattle.std.specs.Prelude.{◌≡◌, ◌++◌, ◌∷◌, [], length, OnOk, OnErr, IfOk, true, false};
    ghost use Rattle.spl_branch.specs.Pieces.{is_formed, is_made, named, is_settable, with_mark};
    ghost use Rattle.spl_branch.specs.Codes.{SameFrame, want_place, with_want};

    /// A code without pieces, marks and wants.
    pub fn new(alloc: Global, segment: Name, entries: Vec<Entry>, main: Option<usize>) -> Code
        ensures segment { result.segment ≡ segment }
        ensures pieces { result.pieces.items ≡ [] }
        ensures marks { result.marks.items ≡ [] }
        ensures entries { result.entries ≡ entries }
        ensures wants { result.wants.items ≡ [] }
        ensures main { result.main ≡ main }
    {
        Code {
            segment,
            pieces: Vec::new(alloc),
            marks: Vec::new(alloc),
            entries,
            wants: Vec::new(alloc),
            main,
            names: IndexSet::new(alloc),
        }
    }

    /// Makes a mark, which is not set.
    pub fn fresh(&mut self) -> Result<usize, AllocError>
        ensures mark { IfOk result (λ l. l ≡ length self.old.marks.items) }
        ensures marks { OnOk result (self.new.marks.items ≡ self.old.marks.items ++ false ∷ []) }
        ensures err { OnErr result (self.new.marks.items ≡ self.old.marks.items) }
        ensures pieces { self.new.pieces ≡ self.old.pieces }
        ensures wants { self.new.wants ≡ self.old.wants }
        ensures same { SameFrame self.old self.new }
    {
        let mark = self.marks.len();
        self.marks.push(false)?;
        Ok(mark)
    }

    /// Appends a piece. A `Mark` sets its mark, which is not set yet.
    pub fn put(&mut self, piece: Piece) -> Result<(), AllocError>
        requires formed { is_formed piece ≡ true }
        requires made { is_made (length self.old.marks.items) (named piece) ≡ true }
        requires settable { is_settable self.old.marks.items piece ≡ true }
        ensures pieces { OnOk result (self.new.pieces.items ≡ self.old.pieces.items ++ piece ∷ []) }
        ensures marks { OnOk result (self.new.marks.items ≡ with_mark self.old.marks.items piece) }
        ensures err_pieces { OnErr result (self.new.pieces.items ≡ self.old.pieces.items) }
        ensures err_marks { OnErr result (self.new.marks.items ≡ self.old.marks.items) }
        ensures wants { self.new.wants ≡ self.old.wants }
        ensures same { SameFrame self.old self.new }
    {
        self.pieces.push(piece)?;
        if let Piece::Mark(mark) = piece {
            self.marks[mark] = true;
        }
        Ok(())
    }

    /// The index of a name that is wanted, an intrinsic's where `gate` is set. One that is new is added at the end.
    pub fn want(&mut self, name: Name, gate: bool) -> Result<usize, AllocError>
        ensures index { IfOk result (λ k. k ≡ want_place name gate self.old.wants.items) }
        ensures wants { OnOk result (self.new.wants.items ≡ with_want name gate self.old.wants.items) }
        ensures err { OnErr result (self.new.wants.items ≡ self.old.wants.items) }
        ensures pieces { self.new.pieces ≡ self.old.pieces }
        ensures marks { self.new.marks ≡ self.old.marks }
        ensures same { SameFrame self.old self.new }
    {
        let key = key_of(&name, gate);
        if let Some(index) = self.names.get_index_of(&key) {
            return Ok(index);
        }
        let index = self.wants.len();
        // room first, so that the wants and their names grow together
        self.wants.reserve(1)?;
        self.names.insert(key)?;
        self.wants.push(Want { name, gate })?;
        Ok(index)
    }
}
