//! The faults of a unit's text.
ghost use Rattle.std.specs.Prelude.{◌≡◌};
ghost use Rattle.spl_cuts.specs.declared.faults.LexKind.TheVariants.{NoMemory};

use spl_tree::At;
use std::alloc::{AllocError, AllocFailed};
use thiserror::Error;

/// What is wrong with a text, in the order in which kinds count at one place.
#[derive(Clone, Copy, Debug, PartialEq, Eq, Error)]
pub enum LexKind {
    #[error("a byte that begins no token or is allowed nowhere")]
    BadByte,
    #[error("a line that begins with $ and is no command")]
    BadCommand,
    #[error("a string that does not end on its line")]
    OpenString,
    #[error("a comment that does not end")]
    OpenComment,
    #[error("a name of more than 15 characters")]
    NameTooLong,
    #[error("a number that is too large")]
    NumberTooLarge,
    #[error("a DEFINE that is not formed as one")]
    BadDefine,
    #[error("more than 262,144 tokens")]
    TooManyTokens,
    #[error("out of memory")]
    NoMemory,
}

impl From<AllocError> for LexKind {
    ghost from_gives = { λ _ kind. kind ≡ NoMemory };

    fn from(_e: AllocError) -> LexKind {
        LexKind::NoMemory
    }
}

impl<T: Drop> From<AllocFailed<T>> for LexKind {
    ghost from_gives = { λ _ kind. kind ≡ NoMemory };

    fn from(_e: AllocFailed<T>) -> LexKind {
        LexKind::NoMemory
    }
}

/// The first fault of a text, with its place.
#[derive(Clone, Copy, Debug, PartialEq, Eq, Error)]
#[error("line {}, column {}: {kind}", at.line, at.column)]
pub struct LexFault {
    pub kind: LexKind,
    pub at: At,
}
