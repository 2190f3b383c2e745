//! What a part of a body may use.
ghost use Rattle.std.specs.Prelude.{◌≡◌};
ghost use Rattle.spl_tree.specs.Views.{letters};
ghost use Rattle.spl_uses.specs.Scopes.{is_local_in};

use spl_sorts::Names;
use spl_tree::Name;

/// What a part of a body may use.
#[derive(Clone, Copy, Debug)]
pub struct Scope<'t> {
    pub names: Names<'t>,
    /// Whether each name counts as declared in the procedure around it, as in a main body.
    pub all_local: bool,
    /// The subroutine around it.
    pub subroutine: Option<&'t Name>,
    /// The procedure around it, where its own list does not hide its name.
    pub procedure: Option<&'t Name>,
    /// Whether that procedure is split.
    pub split: bool,
    pub is_main: bool,
}

impl Scope<'_> {
    /// Whether a name is declared in the procedure around it.
    pub fn is_local(&self, name: &Name) -> bool
        ensures { result ≡ is_local_in self.now (letters name.now) }
    {
        self.names.inner.has(name) || self.all_local || self.names.own.has(name)
    }
}
