//! Numbers by names.
ghost use Rattle.std.specs.Prelude.{◌≡◌, [], OnOk};

use crate::names::letters_of;
use arrayvec::ArrayVec;
use indexmap::IndexMap;
use spl_tree::Name;
use std::alloc::{AllocError, Global};
use std::marker::Model;

/// Names with a number each.
#[derive(Debug, Drop)]
pub struct Places {
    places: IndexMap<ArrayVec<u8, 15>, usize>,
}

impl Model for Places {
    ghost use Rattle.std.specs.Prelude.{ℕ, List};
    ghost use Rattle.mpe_segmenter.specs.PlaceViews.{placed};

    ghost Value = { List (List ℕ × ℕ) };

    ghost view = { λ s. placed s.places.entries };
}

impl Places {
    ghost use Rattle.std.specs.Prelude.{◌≡◌, [], OnOk};
    ghost use Rattle.mpe_segmenter.specs.Places.{place_of, with_place};

    /// No name.
    pub fn new(alloc: Global) -> Self
        ensures { result ≡ [] }
    {
        Places {
            places: IndexMap::new(alloc),
        }
    }

    /// The number of a name, if it is there.
    pub fn find(&self, name: &ArrayVec<u8, 15>) -> Option<usize>
        ensures { result ≡ place_of name.now.items self.now }
    {
        self.places.get(name).copied()
    }

    /// Gives a name a number, unless it has one.
    pub fn note(&mut self, name: &Name, number: usize) -> Result<(), AllocError>
        ensures { OnOk result (self.new ≡ with_place self.old name.now.text.items number) }
    {
        if self.find(&name.text).is_none() {
            self.places.insert(letters_of(name), number)?;
        }
        Ok(())
    }
}
