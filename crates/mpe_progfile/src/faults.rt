//! What is wrong with a program file.
ghost use Rattle.std.specs.Prelude.{◌≡◌};

use std::alloc::AllocError;
use thiserror::Error;

/// The first fault of a program file, with the byte at which it stands, counted from 0.
#[derive(Clone, Copy, Debug, PartialEq, Eq, Error)]
pub enum FileFault {
    #[error("the file ends at byte {0}, where more is needed")]
    Truncated(u32),
    #[error("byte {0}: a wrong word in the head")]
    BadHead(u32),
    #[error("byte {0}: a wrong size or number of entries of a segment")]
    BadSegment(u32),
    #[error("byte {0}: more bytes after the last segment")]
    Trailing(u32),
    #[error("byte {0}: a label that leads nowhere")]
    BadLabel(u32),
    #[error("out of memory")]
    NoMemory,
}

impl From<AllocError> for FileFault {
    ghost use Rattle.mpe_progfile.specs.declared.faults.FileFault.TheVariants.{NoMemory};

    ghost from_gives = { λ _ f. f ≡ NoMemory };

    fn from(_e: AllocError) -> FileFault {
        FileFault::NoMemory
    }
}
