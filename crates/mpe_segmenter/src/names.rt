//! Names by their letters, each once, numbered in order of first use.
ghost use Rattle.std.specs.Prelude.{◌≡◌, ◌≤◌};

use arrayvec::ArrayVec;
use indexmap::IndexSet;
use spl_tree::Name;
use std::alloc::{AllocError, Global};
use std::marker::Model;

/// Names, each once, in the order in which they came. A name's number is its place.
#[derive(Debug, Drop)]
pub struct Names {
    names: IndexSet<ArrayVec<u8, 15>>,
}

impl Model for Names {
    ghost use Rattle.std.specs.Prelude.{ℕ, List, map};

    ghost Value = { List (List ℕ) };

    ghost view = { λ s. map (λ n. n.items) s.names.keys };
}

/// The letters of a name.
pub(crate) fn letters_of(name: &Name) -> ArrayVec<u8, 15>
    ensures { result.items ≡ name.now.text.items }
{
    let mut text = ArrayVec::new();
    text.try_extend_from_slice(name.text.as_slice()).unwrap();
    text
}

impl Names {
    ghost use Rattle.std.specs.Prelude.{◌≡◌, ◌<◌, [], length, IfOk, OnOk, OnErr};
    ghost use Rattle.mpe_segmenter.specs.Names.{is_among, with_name, number_of};

    /// No name.
    pub fn new(alloc: Global) -> Self
        ensures { result ≡ [] }
    {
        Names {
            names: IndexSet::new(alloc),
        }
    }

    /// Whether a name is there.
    pub fn has(&self, name: &Name) -> bool
        ensures { result ≡ is_among name.now.text.items self.now }
    {
        self.names.contains(&letters_of(name))
    }

    /// The number of a name. One that is new goes last. Where memory is wanting, the names stay.
    pub fn number(&mut self, name: &Name) -> Result<usize, AllocError>
        ensures names { OnOk result (self.new ≡ with_name self.old name.now.text.items) }
        ensures number { IfOk result (λ n. n ≡ number_of self.new name.now.text.items) }
        ensures within { IfOk result (λ n. n < length self.new) }
        ensures err { OnErr result (self.new ≡ self.old) }
    {
        let text = letters_of(name);
        let (number, _) = self.names.insert_full(text)?;
        Ok(number)
    }
}
