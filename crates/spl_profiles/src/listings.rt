//! What lists of kinds say of names.
ghost use Rattle.std.specs.Prelude.{◌≡◌, OnOk, IfOk, map, []};
ghost use Rattle.spl_tree.specs.Views.{letters};
ghost use Rattle.spl_tree.specs.Spells.{placed, spec_tree};
ghost use Rattle.spl_sorts.specs.spl_meaning.Names.{find};
ghost use Rattle.spl_found.specs.OwnNames.{with_name};
ghost use Rattle.spl_profiles.specs.Listings.{listed_of, and_listed, said_in};

use arrayvec::ArrayVec;
use indexmap::IndexMap;
use spl_tree::{At, Kind, Name, Spec};
use std::alloc::{AllocError, Global};

/// What a list of kinds says of its names.
#[derive(Clone, Copy, Debug)]
pub struct Listed {
    pub kind: Kind,
    pub array: bool,
}

/// What lists of kinds say of each name; the first that has it counts.
#[derive(Debug, Drop)]
pub struct Listings {
    pub names: IndexMap<ArrayVec<u8, 15>, Listed>,
}

impl Listings {
    /// Nothing is said.
    fn new(alloc: Global) -> Listings
        ensures { listed_of result ≡ [] }
    {
        Listings {
            names: IndexMap::new(alloc),
        }
    }

    /// What is said of a name.
    pub fn find(&self, name: &Name) -> Option<Listed>
        ensures { result ≡ find (listed_of self.now) (letters name.now) }
    {
        match self.names.get(&name.text) {
            Some(listed) => Some(*listed),
            None => None,
        }
    }

    /// Takes in a name, unless it is there.
    pub fn add(&mut self, name: &Name, listed: Listed) -> Result<(), AllocError>
        ensures { OnOk result (find (listed_of self.new) ≡ with_name (find (listed_of self.old)) (letters name.now) listed) }
    {
        if self.find(name).is_none() {
            self.names.insert(name.copy().text, listed)?;
        }
        Ok(())
    }

    /// Takes in the names of a list.
    #[tactic(auto, using(crate::proofs::NameWalks::listed_steps))]
    fn add_all(&mut self, names: &[(Name, At)], listed: Listed) -> Result<(), AllocError>
        ensures { OnOk result (find (listed_of self.new) ≡ and_listed (find (listed_of self.old)) listed (map placed names.now)) }
    {
        for (name, _) in names {
            self.add(name, listed)?;
        }
        Ok(())
    }

    /// What lists of kinds say.
    #[tactic(auto, using(crate::proofs::NameWalks::spec_steps))]
    pub fn of(alloc: Global, specs: &[Spec]) -> Result<Listings, AllocError>
        ensures { IfOk result (λ listings. find (listed_of listings) ≡ said_in (map spec_tree specs.now)) }
    {
        let mut listings = Listings::new(alloc);
        for spec in specs {
            let listed = Listed {
                kind: spec.kind,
                array: spec.array,
            };
            listings.add_all(&spec.names, listed)?;
        }
        Ok(listings)
    }
}
