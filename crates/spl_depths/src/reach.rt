//! How far below its return word a subroutine's parameters and result stand.
ghost use Rattle.std.specs.Prelude.{◌≡◌, OnOk, IfOk, map, []};
ghost use Rattle.spl_tree.specs.Views.{letters};
ghost use Rattle.spl_sorts.specs.spl_meaning.Names.{find};
ghost use Rattle.spl_uses.specs.spl_found.OwnNames.{with_name};
ghost use Rattle.spl_sorts.specs.Profiles.{formal_of, profile_of};
ghost use Rattle.spl_depths.specs.Reach.{parameters_below, reach_of};
ghost use Rattle.spl_depths.specs.Places.{places_of, shown};

use crate::words::{formal_words, formals_words, result_words};
use arrayvec::ArrayVec;
use indexmap::IndexMap;
use spl_sorts::{Formal, Profile};
use spl_spots::plus;
use spl_tree::Name;
use std::alloc::{AllocError, Global};

/// Names, each with how many words below the return word it stands.
#[derive(Debug, Drop)]
pub struct Places {
    pub names: IndexMap<ArrayVec<u8, 15>, u64>,
}

impl Places {
    /// No name.
    fn new(alloc: Global) -> Places
        ensures { places_of result ≡ [] }
    {
        Places {
            names: IndexMap::new(alloc),
        }
    }

    /// How far below the return word a name stands.
    fn find(&self, name: &Name) -> Option<u64>
        ensures { result ≡ find (places_of self.now) (letters name.now) }
    {
        match self.names.get(&name.text) {
            Some(words) => Some(*words),
            None => None,
        }
    }

    /// Takes in a name, unless it is there.
    fn add(&mut self, name: &Name, words: u64) -> Result<(), AllocError>
        ensures { OnOk result (find (places_of self.new) ≡ with_name (find (places_of self.old)) (letters name.now) words) }
    {
        if self.find(name).is_none() {
            self.names.insert(name.copy().text, words)?;
        }
        Ok(())
    }

    /// Parameters: the last stands directly below the return word, and each other below the one behind it.
    #[tactic(auto, using(crate::proofs::PlaceWalks::place_steps))]
    fn of(alloc: Global, formals: &[Formal]) -> Result<Places, AllocError>
        ensures { IfOk result (λ places. find (places_of places) ≡ find (parameters_below (map formal_of formals.now))) }
    {
        let mut places = Places::new(alloc);
        let mut words = formals_words(formals)?;
        for formal in formals {
            places.add(&formal.name, words)?;
            words -= formal_words(formal);
        }
        Ok(places)
    }
}

/// Where a subroutine's parameters and its result stand, in words below its return word.
#[derive(Debug, Drop)]
pub struct Reach<'t> {
    pub parameters: Places,
    /// Its name, which means the result where it is assigned.
    pub name: &'t Name,
    pub result: u64,
}

impl<'t> Reach<'t> {
    /// Of a subroutine by its name, with what it takes and gives. Want of memory alone is an error.
    pub fn new(alloc: Global, name: &'t Name, profile: &Profile) -> Result<Reach<'t>, AllocError>
        ensures { IfOk result (λ reach. shown reach ≡ reach_of (letters name.now) (profile_of profile.now)) }
    {
        let words = formals_words(&profile.formals)?;
        Ok(Reach {
            parameters: Places::of(alloc, &profile.formals)?,
            name,
            result: plus(words, result_words(profile))?,
        })
    }

    /// How far below the return word a name stands, where it is assigned or not.
    pub fn below(&self, name: &Name, is_target: bool) -> Option<u64>
        ensures { result ≡ shown self.now (letters name.now) is_target }
    {
        match self.parameters.find(name) {
            Some(words) => Some(words),
            None => {
                if is_target && name == self.name {
                    Some(self.result)
                } else {
                    None
                }
            }
        }
    }
}
