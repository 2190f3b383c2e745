//! The first limit that is passed.
ghost use Rattle.std.specs.Prelude.{◌≡◌, None, option_map};
ghost use Rattle.spl_sorts.specs.spl_meaning.Faults as faults;
ghost use Rattle.spl_sorts.specs.spl_meaning.Limits as limits;
ghost use Rattle.spl_spots.specs.Fulls.{full_of};

use spl_sorts::Fault;
use spl_tree::At;
use std::marker::Model;

/// A limit that is passed at a place, by a count.
#[derive(Clone, Copy, Debug, PartialEq, Eq)]
pub struct Full {
    pub limit: u8,
    pub at: At,
    pub count: u64,
}

impl Full {
    /// As a fault, so that limits are ordered as rules are.
    fn fault(self) -> Fault
        ensures rule { result.rule ≡ self.limit }
        ensures at { result.at ≡ self.at }
    {
        Fault {
            rule: self.limit,
            at: self.at,
        }
    }

    /// Whether it comes before another: by its place, and at one place by the lower limit.
    pub fn is_before(self, other: Full) -> bool
        ensures { result ≡ faults.is_before (faults.fault self.limit self.at) (faults.fault other.limit other.at) }
    {
        self.fault().is_before(other.fault())
    }
}

/// The first limit so far.
#[derive(Debug, Drop)]
pub struct FirstFull {
    first: Option<Full>,
}

impl Model for FirstFull {
    ghost use Rattle.std.specs.Prelude.{Option, option_map};
    ghost use Rattle.spl_sorts.specs.spl_meaning.Limits as limits;
    ghost use Rattle.spl_spots.specs.Fulls.{full_of};

    ghost Value = { Option limits.Full };

    ghost view = { λ f. option_map full_of f.first };
}

impl FirstFull {
    /// No limit is passed.
    pub fn new() -> FirstFull
        ensures { result ≡ None }
    {
        FirstFull { first: None }
    }

    /// The first limit, if one is passed.
    pub fn first(&self) -> Option<Full>
        ensures { option_map full_of result ≡ self.now }
    {
        self.first
    }

    /// Takes in a limit that is passed.
    pub fn note(&mut self, full: Full)
        ensures { self.new ≡ limits.sooner_full self.old (full_of full) }
    {
        match self.first {
            None => self.first = Some(full),
            Some(first) => {
                if full.is_before(first) {
                    self.first = Some(full);
                }
            }
        }
    }
}
