//! Why a text is no job.
ghost use Rattle.std.specs.Prelude.{◌≡◌};

use std::alloc::AllocError;
use thiserror::Error;

/// Why a text is not taken as a job.
#[derive(Clone, Copy, Debug, PartialEq, Eq, Error)]
pub enum JobFault {
    /// The first faulty line, counted from 1, and the least rule that it breaks.
    #[error("line {line} breaks rule {rule}")]
    Rule { line: u32, rule: u8 },
    #[error("out of memory")]
    NoMemory,
}

impl From<AllocError> for JobFault {
    ghost use Rattle.job_text.specs.declared.faults.JobFault.TheVariants.{NoMemory};

    ghost from_gives = { λ _ f. f ≡ NoMemory };

    fn from(_e: AllocError) -> JobFault {
        JobFault::NoMemory
    }
}
