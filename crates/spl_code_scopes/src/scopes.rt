//! What the code of a body is made with.
ghost use Rattle.std.specs.Prelude.{◌≡◌, option_map};
ghost use Rattle.spl_tree.specs.Views.{letters};
ghost use Rattle.spl_sorts.specs.spl_meaning.Names.{find};
ghost use Rattle.spl_spots.specs.NameMaps.{entries_of};
ghost use Rattle.spl_spots.specs.Spots.{spot_of};
ghost use Rattle.spl_code_scopes.specs.Scopes.{places_of};

use spl_sorts::Names;
use spl_spots::{NameMap, Place};
use spl_tree::Name;

/// Where the words of names stand: a subroutine's parameters hide what is around it, and that hides the globals.
#[derive(Clone, Copy, Debug)]
pub struct Places<'t> {
    pub inner: &'t NameMap<Place>,
    pub own: &'t NameMap<Place>,
    pub outer: &'t NameMap<Place>,
}

impl Places<'_> {
    /// Where the words of a name stand, if it has any.
    pub fn find(&self, name: &Name) -> Option<Place>
        ensures { option_map spot_of result ≡ places_of self.now (letters name.now) }
    {
        match self.inner.find(name) {
            Some(place) => Some(place),
            None => match self.own.find(name) {
                Some(place) => Some(place),
                None => self.outer.find(name),
            },
        }
    }
}

/// The entries of a module that a body may call, by name, each by its index among the module's entries.
#[derive(Clone, Copy, Debug)]
pub struct Entries<'t> {
    /// The procedures of the module.
    pub procedures: &'t NameMap<usize>,
    /// The subroutines of the body.
    pub subroutines: &'t NameMap<usize>,
}

/// The names of a body, with what they stand for, where their words stand and which entries they have.
#[derive(Clone, Copy, Debug)]
pub struct Scope<'t> {
    pub names: Names<'t>,
    pub places: Places<'t>,
    pub entries: Entries<'t>,
}
