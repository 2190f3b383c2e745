//! Why no program is made.
ghost use Rattle.std.specs.Prelude.{◌≡◌};
ghost use Rattle.hp3000_top.specs.declared.unmade.Unmade.TheVariants as variants;

use std::alloc::{AllocError, AllocFailed};

/// Why no program is made of texts.
#[derive(Debug, Drop)]
pub enum Unmade {
    /// They are refused by this line.
    Refused { line: Vec<u8> },
    /// Memory is wanting.
    NoMemory,
}

impl From<AllocError> for Unmade {
    ghost from_gives = { λ _ e. e ≡ variants.NoMemory };

    fn from(_e: AllocError) -> Unmade {
        Unmade::NoMemory
    }
}

impl<T: Drop> From<AllocFailed<T>> for Unmade {
    ghost from_gives = { λ _ e. e ≡ variants.NoMemory };

    fn from(_e: AllocFailed<T>) -> Unmade {
        Unmade::NoMemory
    }
}
