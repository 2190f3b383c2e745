//! Maps by names.
ghost use Rattle.std.specs.Prelude.{◌≡◌, OnOk, []};
ghost use Rattle.spl_tree.specs.Views.{letters};
ghost use Rattle.spl_sorts.specs.spl_meaning.Names.{find};
ghost use Rattle.spl_found.specs.OwnNames.{with_name};
ghost use Rattle.spl_spots.specs.NameMaps.{entries_of};

use arrayvec::ArrayVec;
use indexmap::IndexMap;
use spl_tree::Name;
use std::alloc::{AllocError, Global};

/// What names have. The first of a name counts.
#[derive(Debug, Drop)]
pub struct NameMap<V> {
    pub names: IndexMap<ArrayVec<u8, 15>, V>,
}

impl<V: Copy + Drop> NameMap<V> {
    /// No name.
    pub fn new(alloc: Global) -> NameMap<V>
        ensures { entries_of result ≡ [] }
    {
        NameMap {
            names: IndexMap::new(alloc),
        }
    }

    /// What a name has.
    pub fn find(&self, name: &Name) -> Option<V>
        ensures { result ≡ find (entries_of self.now) (letters name.now) }
    {
        match self.names.get(&name.text) {
            Some(value) => Some(*value),
            None => None,
        }
    }

    /// Takes in a name, unless it is there.
    pub fn add(&mut self, name: &Name, value: V) -> Result<(), AllocError>
        ensures { OnOk result (find (entries_of self.new) ≡ with_name (find (entries_of self.old)) (letters name.now) value) }
    {
        if self.find(name).is_none() {
            self.names.insert(name.copy().text, value)?;
        }
        Ok(())
    }
}
