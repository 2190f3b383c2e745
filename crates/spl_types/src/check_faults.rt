//! Why units are refused.
use spl_tree::At;
use std::alloc::AllocError;
use thiserror::Error;

/// Why units are refused: the first rule that they break, at its place, or want of memory.
#[derive(Clone, Copy, Debug, PartialEq, Eq, Error)]
pub enum CheckFault {
    #[error("rule {rule} is broken")]
    Rule { rule: u8, at: At },
    #[error("out of memory")]
    NoMemory,
}

impl From<AllocError> for CheckFault {
    ghost use Rattle.std.specs.Prelude.{◌≡◌};
    ghost use Rattle.spl_types.specs.declared.check_faults.CheckFault.TheVariants.{NoMemory};

    ghost from_gives = { λ _ fault. fault ≡ NoMemory };

    fn from(_: AllocError) -> CheckFault {
        CheckFault::NoMemory
    }
}
