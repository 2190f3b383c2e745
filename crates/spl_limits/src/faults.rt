//! Why a program has no places.
use spl_tree::At;
use std::alloc::AllocError;
use thiserror::Error;

/// Why a program has no places: the first limit that it passes, or want of memory.
///
/// The limits are 1, the primary area has more than 256 words; 2, the local items of a body have more than 127; 3, a
/// result and parameters have more than 59; 4, both areas of data, or the local words of a body, are more than 32,000;
/// 5, a subroutine's parameter or result is used more than 63 words beneath the top. `count` is the sum that passes it.
#[derive(Clone, Copy, Debug, PartialEq, Eq, Error)]
pub enum LimitFault {
    #[error("limit {limit} is passed by {count}")]
    Full { limit: u8, at: At, count: u64 },
    #[error("out of memory")]
    NoMemory,
}

impl From<AllocError> for LimitFault {
    ghost use Rattle.std.specs.Prelude.{◌≡◌};
    ghost use Rattle.spl_limits.specs.declared.faults.LimitFault.TheVariants.{NoMemory};

    ghost from_gives = { λ _ fault. fault ≡ NoMemory };

    fn from(_: AllocError) -> LimitFault {
        LimitFault::NoMemory
    }
}
