//! A session of the flat machine: how it opens, and one step of it.
ghost use Rattle.std.specs.Prelude.{◌≡◌};
ghost use Rattle.hp_flat.specs.declared.flat.OpenFlat.TheVariants.{NoMemory};

use hp_session::{Line, Regs};
use hp_word::Ending;
use std::alloc::AllocError;
use std::marker::Model;

/// A session with its whole stack as one list. Its room for words and bytes was reserved when it was opened.
#[derive(Drop)]
pub struct Flat {
    /// The registers.
    pub regs: Regs,
    /// That the mode is split.
    pub split: bool,
    /// The words of the stack, the lowest first.
    pub stack: Vec<u16>,
    /// The words of the extra segment.
    pub extra: Vec<u16>,
    /// The terminal lines.
    pub lines: Vec<Line>,
    /// How many lines were taken.
    pub next_line: usize,
    /// The bytes printed.
    pub printed: Vec<u8>,
    /// Where the run stands.
    pub ending: Ending,
    /// STACK, the greatest number of words on the stack.
    pub stack_limit: u16,
    /// The greatest number of bytes printed.
    pub room: u32,
}

impl Model for Flat {
    ghost use Rattle.hp_session.specs.State.{Machine};

    ghost Value = { Machine };

    ghost use Rattle.hp_flat.specs.FlatView.{machine_of, IsRoomy};

    ghost view = { machine_of };

    ghost invariant = { IsRoomy };
}

impl Flat {
    ghost use Rattle.std.specs.Prelude.{◌≤◌, length};

    /// A law of the type, for callers: never more words on the stack than STACK, nor more bytes printed than there is room for.
    pub fn keeps_its_limits(&self)
        ensures words { length self.now.stack ≤ self.now.stack_limit }
        ensures bytes { length self.now.printed ≤ self.now.room }
    {
        let _ = &self.stack;
    }
}

/// Why a session can't be opened.
#[derive(Clone, Copy, Debug, PartialEq, Eq)]
pub enum OpenFlat {
    /// STACK, `given`, is below `need`, the data words and the marker's four.
    StackTooSmall { need: u32, given: u16 },
    /// Memory is wanting.
    NoMemory,
}

impl From<AllocError> for OpenFlat {
    ghost from_gives = { λ _ e. e ≡ NoMemory };

    fn from(_e: AllocError) -> OpenFlat {
        OpenFlat::NoMemory
    }
}
