//! What procedures, subroutines and intrinsics take and give.
ghost use Rattle.std.specs.Prelude.{◌≡◌};
ghost use Rattle.spl_meaning.specs.Pending.{by_value};
ghost use Rattle.spl_sorts.specs.Profiles.{formal_of};

use spl_tree::{At, Kind, Name};

/// A parameter: its kind, where some list of kinds has it, whether it is an array, and whether VALUE lists it.
#[derive(Debug, Drop)]
pub struct Formal {
    pub name: Name,
    pub at: At,
    pub kind: Option<Kind>,
    pub array: bool,
    pub value: bool,
}

impl Formal {
    /// Whether it is given its value: VALUE lists it, and it is no array.
    pub fn by_value(&self) -> bool
        ensures { result ≡ by_value (formal_of self.now) }
    {
        if self.array { false } else { self.value }
    }
}

/// What is taken and given, and whether the procedure is split.
#[derive(Debug, Drop)]
pub struct Profile {
    pub result: Option<Kind>,
    pub formals: Vec<Formal>,
    pub split: bool,
}
