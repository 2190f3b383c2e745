//! The names that a segment wants, each once.
ghost use Rattle.std.specs.Prelude.{◌≡◌, [], OnOk};

use crate::names::letters_of;
use arrayvec::ArrayVec;
use indexmap::IndexSet;
use spl_branch::Want;
use std::alloc::{AllocError, Global};
use std::marker::Model;

/// A name that is wanted, and whether it is an intrinsic's.
#[derive(Debug, PartialEq, Eq, Hash, Drop)]
pub struct Key {
    pub name: ArrayVec<u8, 15>,
    pub gate: bool,
}

/// The names that a segment wants, each once, in order of first call. A name's place counts from 0.
#[derive(Debug, Drop)]
pub struct Wants {
    wants: IndexSet<Key>,
}

impl Model for Wants {
    ghost use Rattle.std.specs.Prelude.{List, map};
    ghost use Rattle.mpe_segmenter.specs.Entries.{Wanted};
    ghost use Rattle.mpe_segmenter.specs.PlaceViews.{seen};

    ghost Value = { List Wanted };

    ghost view = { λ s. map seen s.wants.keys };
}

/// The key of a want.
fn key_of(want: &Want) -> Key
    ensures name { result.name.items ≡ want.now.name.text.items }
    ensures gate { result.gate ≡ want.now.gate }
{
    Key {
        name: letters_of(&want.name),
        gate: want.gate,
    }
}

impl Wants {
    ghost use Rattle.std.specs.Prelude.{◌≡◌, [], length, map, OnOk};
    ghost use Rattle.mpe_segmenter.specs.Entries.{wanted_of, with_want, want_at};
    ghost use Rattle.mpe_segmenter.specs.PlaceViews.{seen};

    /// No name.
    pub fn new(alloc: Global) -> Self
        ensures { result ≡ [] }
    {
        Wants {
            wants: IndexSet::new(alloc),
        }
    }

    /// How many names there are.
    pub fn len(&self) -> usize
        ensures { result ≡ length self.now }
    {
        self.wants.len()
    }

    /// Puts a want last, unless it is there.
    pub fn put(&mut self, want: &Want) -> Result<(), AllocError>
        ensures { OnOk result (self.new ≡ with_want self.old (wanted_of want.now)) }
    {
        self.wants.insert(key_of(want))?;
        Ok(())
    }

    /// The names, in order.
    pub fn keys(&self) -> &[Key]
        ensures { map seen result.now ≡ self.now }
    {
        self.wants.as_slice()
    }

    /// The place of a want; behind all where it is not there.
    pub fn place(&self, want: &Want) -> usize
        ensures { result ≡ want_at (wanted_of want.now) self.now }
    {
        self.wants
            .get_index_of(&key_of(want))
            .unwrap_or(self.wants.len())
    }
}
