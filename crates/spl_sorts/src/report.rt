//! The first fault so far.
ghost use Rattle.std.specs.Prelude.{◌≡◌, None, option_map};
ghost use Rattle.spl_meaning.specs.Faults as faults;
ghost use Rattle.spl_sorts.specs.Reports.{fault_of};

use spl_tree::At;
use std::marker::Model;

/// A rule that is broken at a place.
#[derive(Clone, Copy, Debug, PartialEq, Eq)]
pub struct Fault {
    pub rule: u8,
    pub at: At,
}

impl Fault {
    /// Whether it comes before another: by unit, line and column, and at one place by the lower rule.
    pub fn is_before(self, other: Fault) -> bool
        ensures { result ≡ faults.is_before (fault_of self) (fault_of other) }
    {
        let (at, there) = (self.at, other.at);
        at.unit < there.unit
            || at.unit == there.unit
                && (at.line < there.line
                    || at.line == there.line
                        && (at.column < there.column
                            || at.column == there.column && self.rule < other.rule))
    }
}

/// The first fault so far.
#[derive(Debug, Drop)]
pub struct Report {
    first: Option<Fault>,
}

impl Model for Report {
    ghost use Rattle.std.specs.Prelude.{Option, option_map};
    ghost use Rattle.spl_meaning.specs.Faults as faults;
    ghost use Rattle.spl_sorts.specs.Reports.{fault_of};

    ghost Value = { Option faults.Fault };

    ghost view = { λ r. option_map fault_of r.first };
}

impl Report {
    /// No fault.
    pub fn new() -> Report
        ensures { result ≡ None }
    {
        Report { first: None }
    }

    /// The first fault, if there is one.
    pub fn first(&self) -> Option<Fault>
        ensures { option_map fault_of result ≡ self.now }
    {
        self.first
    }

    /// Takes in a fault.
    pub fn note(&mut self, rule: u8, at: At)
        ensures { self.new ≡ faults.sooner self.old (faults.fault rule at) }
    {
        let fault = Fault { rule, at };
        match self.first {
            None => self.first = Some(fault),
            Some(first) => {
                if fault.is_before(first) {
                    self.first = Some(fault);
                }
            }
        }
    }

    /// Takes in a fault where a test fails.
    pub fn unless(&mut self, holds: bool, rule: u8, at: At)
        ensures { self.new ≡ faults.first_fault self.old (faults.unless holds rule at) }
    {
        if !holds {
            self.note(rule, at);
        }
    }
}
