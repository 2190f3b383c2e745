//! FORWARDs that wait for their bodies.
ghost use Rattle.std.specs.Prelude.{◌≡◌, option_map, OnOk};
ghost use Rattle.spl_tree.specs.Views.{letters};
ghost use Rattle.spl_sorts.specs.Profiles.{profile_of};
ghost use Rattle.spl_uses.specs.spl_found.FoundUnits.{none_waits, waits_with, waits_without};
ghost use Rattle.spl_types.specs.WaitingNames.{waits_of};

use arrayvec::ArrayVec;
use indexmap::IndexMap;
use spl_sorts::Profile;
use spl_tree::Name;
use std::alloc::{AllocError, Global};

/// What the FORWARDs that have no body yet take and give, by their names.
#[derive(Debug, Drop)]
pub struct Waiting {
    by_name: IndexMap<ArrayVec<u8, 15>, Option<Profile>>,
}

impl Waiting {
    /// None waits.
    pub fn new(alloc: Global) -> Waiting
        ensures { waits_of result ≡ none_waits }
    {
        Waiting {
            by_name: IndexMap::new(alloc),
        }
    }

    /// What the FORWARD of a name takes and gives, where it waits.
    pub fn find(&self, name: &Name) -> Option<&Profile>
        ensures { option_map (λ p. profile_of p.now) result ≡ waits_of self.now (letters name.now) }
    {
        match self.by_name.get(&name.text) {
            Some(Some(profile)) => Some(profile),
            Some(None) => None,
            None => None,
        }
    }

    /// A FORWARD waits.
    pub fn put(&mut self, name: &Name, profile: Profile) -> Result<(), AllocError>
        ensures { OnOk result (waits_of self.new ≡ waits_with (waits_of self.old) (letters name.now) (profile_of profile)) }
    {
        self.by_name.insert(name.copy().text, Some(profile))?;
        Ok(())
    }

    /// A body takes those of its name off.
    pub fn take_off(&mut self, name: &Name) -> Result<(), AllocError>
        ensures { OnOk result (waits_of self.new ≡ waits_without (waits_of self.old) (letters name.now)) }
    {
        self.by_name.insert(name.copy().text, None)?;
        Ok(())
    }
}
