//! Why a monitor can't be opened.
ghost use Rattle.std.specs.Prelude.{◌≡◌};
ghost use Rattle.mpe_turns.specs.declared.fault.OpenFault.TheVariants.{NoMemory};

use std::alloc::AllocError;

/// Why a monitor can't be opened.
#[derive(Clone, Copy, Debug, PartialEq, Eq)]
pub enum OpenFault {
    /// The stack of a session, `given`, is below `need`, its program's data words and the marker's four. Sessions count from 0.
    StackTooSmall { session: u8, need: u32, given: u16 },
    /// The memory, `given`, is below `need`, all stacks and extra segments and the largest segment of any program.
    MemoryTooSmall { need: u32, given: u32 },
    /// Memory of this machine is wanting.
    NoMemory,
}

impl From<AllocError> for OpenFault {
    ghost from_gives = { λ _ e. e ≡ NoMemory };

    fn from(_e: AllocError) -> OpenFault {
        OpenFault::NoMemory
    }
}
