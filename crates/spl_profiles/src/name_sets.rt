//! Sets of names.
ghost use Rattle.std.specs.Prelude.{◌≡◌, OnOk, IfOk, map};
ghost use Rattle.spl_tree.specs.Views.{letters};
ghost use Rattle.spl_tree.specs.Spells.{placed};
ghost use Rattle.spl_sorts.specs.spl_meaning.Names.{lists};
ghost use Rattle.spl_profiles.specs.NameSets.{has_of, no_name, and_name};

use arrayvec::ArrayVec;
use indexmap::IndexSet;
use spl_tree::{At, Name};
use std::alloc::{AllocError, Global};

/// A set of names.
#[derive(Debug, Drop)]
pub struct NameSet {
    pub names: IndexSet<ArrayVec<u8, 15>>,
}

impl NameSet {
    /// No name.
    pub fn new(alloc: Global) -> NameSet
        ensures { has_of result ≡ no_name }
    {
        NameSet {
            names: IndexSet::new(alloc),
        }
    }

    /// Whether it has a name.
    pub fn has(&self, name: &Name) -> bool
        ensures { result ≡ has_of self.now (letters name.now) }
    {
        self.names.contains(&name.text)
    }

    /// Takes in a name.
    pub fn add(&mut self, name: &Name) -> Result<(), AllocError>
        ensures { OnOk result (has_of self.new ≡ and_name (has_of self.old) (letters name.now)) }
    {
        self.names.insert(name.copy().text)?;
        Ok(())
    }

    /// The names of a list.
    #[tactic(auto, using(crate::proofs::NameWalks::set_steps))]
    pub fn of(alloc: Global, names: &[(Name, At)]) -> Result<NameSet, AllocError>
        ensures { IfOk result (λ set. has_of set ≡ lists (map placed names.now)) }
    {
        let mut set = NameSet::new(alloc);
        for (name, _) in names {
            set.add(name)?;
        }
        Ok(set)
    }
}
