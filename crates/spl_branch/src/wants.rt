//! Names that are wanted, as they are found.
ghost use Rattle.std.specs.Prelude.{◌≡◌};
ghost use Rattle.spl_branch.specs.Keys.{seen};

use arrayvec::ArrayVec;
use spl_tree::Name;

/// A name that is wanted, and whether it is an intrinsic's.
#[derive(Debug, PartialEq, Eq, Hash, Drop)]
pub struct Key {
    pub name: ArrayVec<u8, 15>,
    pub gate: bool,
}

/// The key of a name, an intrinsic's where `gate` is set.
pub fn key_of(name: &Name, gate: bool) -> Key
    ensures { seen result ≡ (name.now.text.items, gate) }
{
    Key {
        name: name.copy().text,
        gate,
    }
}
