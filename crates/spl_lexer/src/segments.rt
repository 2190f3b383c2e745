//! The names of the segments that hold tokens.
ghost use Rattle.std.specs.Prelude.{◌≡◌, ◌<◌, [], length, map, OnOk, OnErr, IfOk};
ghost use Rattle.spl_cuts.specs.Cutting as cu;
ghost use Rattle.spl_tree.specs.Views.{letters};

use arrayvec::ArrayVec;
use indexmap::IndexSet;
use spl_tree::Name;
use std::alloc::{AllocError, Global};
use std::marker::Model;

/// The names of segments, each once, in the order in which they came. A segment's number is the place of its name.
#[derive(Debug, Drop)]
pub struct Segments {
    names: IndexSet<ArrayVec<u8, 15>>,
}

impl Model for Segments {
    ghost use Rattle.std.specs.Prelude.{ℕ, List, map};

    ghost Value = { List (List ℕ) };

    ghost view = { λ s. map (λ n. n.items) s.names.keys };
}

impl Segments {
    /// No name.
    pub fn new(alloc: Global) -> Self
        ensures { result ≡ [] }
    {
        Segments {
            names: IndexSet::new(alloc),
        }
    }

    /// The number of a segment. A name that is new goes last. Where memory is wanting, the names stay.
    pub fn number(&mut self, name: &Name) -> Result<usize, AllocError>
        ensures names { OnOk result (self.new ≡ cu.with_name self.old name.now.text.items) }
        ensures number { IfOk result (λ n. n ≡ cu.number_of self.new name.now.text.items) }
        ensures within { IfOk result (λ n. n < length self.new) }
        ensures err { OnErr result (self.new ≡ self.old) }
    {
        let Name { text } = name.copy();
        let (number, _) = self.names.insert_full(text)?;
        Ok(number)
    }

    /// The names, in order.
    pub fn into_names(self, alloc: Global) -> Result<Vec<Name>, AllocError>
        ensures { IfOk result (λ v. map letters v.items ≡ self) }
    {
        let mut names = Vec::new(alloc);
        for text in self.names {
            names.push(Name { text })?;
        }
        Ok(names)
    }
}
