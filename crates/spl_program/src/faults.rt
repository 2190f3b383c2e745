//! Why the texts of units make no program.
ghost use Rattle.std.specs.Prelude.{◌≡◌};
ghost use Rattle.spl_program.specs.Kinds.{kind_of};

use spl_cuts::LexKind;
use spl_tree::{At, FaultKind};
use std::alloc::{AllocError, AllocFailed};
use thiserror::Error;

/// Why the texts of units make no program: their first fault, at its place, or want of memory.
#[derive(Clone, Copy, Debug, PartialEq, Eq, Error)]
pub enum ProgramFault {
    /// A fault of tokens or of spelling.
    #[error("the text is at fault")]
    Text { kind: FaultKind, at: At },
    /// A rule is broken.
    #[error("rule {rule} is broken")]
    Rule { rule: u8, at: At },
    /// A limit of places is passed.
    #[error("limit {limit} is passed")]
    Limit { limit: u8, at: At },
    #[error("out of memory")]
    NoMemory,
}

impl From<AllocError> for ProgramFault {
    ghost use Rattle.spl_program.specs.declared.faults.ProgramFault.TheVariants.{NoMemory};

    ghost from_gives = { λ _ fault. fault ≡ NoMemory };

    fn from(_: AllocError) -> ProgramFault {
        ProgramFault::NoMemory
    }
}

impl<T: Drop> From<AllocFailed<T>> for ProgramFault {
    ghost use Rattle.spl_program.specs.declared.faults.ProgramFault.TheVariants.{NoMemory};

    ghost from_gives = { λ _ fault. fault ≡ NoMemory };

    fn from(_: AllocFailed<T>) -> ProgramFault {
        ProgramFault::NoMemory
    }
}

/// The kind of a fault of tokens; None for want of memory.
pub fn kind_of(kind: LexKind) -> Option<FaultKind>
    ensures { result ≡ kind_of kind }
{
    match kind {
        LexKind::BadByte => Some(FaultKind::BadByte),
        LexKind::BadCommand => Some(FaultKind::BadCommand),
        LexKind::OpenString => Some(FaultKind::OpenString),
        LexKind::OpenComment => Some(FaultKind::OpenComment),
        LexKind::NameTooLong => Some(FaultKind::NameTooLong),
        LexKind::NumberTooLarge => Some(FaultKind::NumberTooLarge),
        LexKind::BadDefine => Some(FaultKind::BadDefine),
        LexKind::TooManyTokens => Some(FaultKind::TooManyTokens),
        LexKind::NoMemory => None,
    }
}
