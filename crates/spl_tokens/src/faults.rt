//! Why a part can't be read.
use std::alloc::{AllocError, AllocFailed};
use thiserror::Error;

/// Why a rule can't go on. The tokens that are left begin with the one at which it is so.
#[derive(Clone, Copy, Debug, PartialEq, Eq)]
pub enum Fault {
    /// No part goes on with this token.
    Syntax,
    /// With this token more constructs are open than may be.
    TooDeep,
    /// Memory is wanting.
    NoMemory,
}

impl From<AllocError> for Fault {
    ghost use Rattle.std.specs.Prelude.{◌≡◌};
    ghost use Rattle.spl_tokens.specs.declared.faults.Fault.TheVariants.{NoMemory};

    ghost from_gives = { λ _ fault. fault ≡ NoMemory };

    fn from(_: AllocError) -> Fault {
        Fault::NoMemory
    }
}

impl<T: Drop> From<AllocFailed<T>> for Fault {
    ghost use Rattle.std.specs.Prelude.{◌≡◌};
    ghost use Rattle.spl_tokens.specs.declared.faults.Fault.TheVariants.{NoMemory};

    ghost from_gives = { λ _ fault. fault ≡ NoMemory };

    fn from(_: AllocFailed<T>) -> Fault {
        Fault::NoMemory
    }
}

/// The first fault of a list of tokens. An `at` is the number of the token, from 0.
#[derive(Clone, Copy, Debug, PartialEq, Eq, Error)]
pub enum ParseFault {
    #[error("the token can't stand here")]
    Syntax { at: u32 },
    #[error("more than 64 constructs are open")]
    TooDeep { at: u32 },
    #[error("out of memory")]
    NoMemory,
}
