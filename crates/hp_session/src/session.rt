//! What the rows change: a session with its whole stack as one list.
use crate::registers::Regs;
use crate::terminal::Line;
use hp_word::Ending;
use std::marker::Model;

/// A session as its rows see it. Its room for words and bytes was reserved before.
#[derive(Drop)]
pub struct Session {
    /// The registers.
    pub regs: Regs,
    /// That the mode is split.
    pub split: bool,
    /// The words of the stack, the lowest first.
    pub stack: Vec<u16>,
    /// The words of the extra segment.
    pub extra: Vec<u16>,
    /// The terminal lines.
    pub lines: Vec<Line>,
    /// How many lines were taken.
    pub next_line: usize,
    /// The bytes printed.
    pub printed: Vec<u8>,
    /// Where the run stands.
    pub ending: Ending,
    /// STACK, the greatest number of words on the stack.
    pub stack_limit: u16,
    /// The greatest number of bytes printed.
    pub room: u32,
}

impl Model for Session {
    ghost use Rattle.hp_session.specs.State.{Machine};

    ghost Value = { Machine };

    ghost use Rattle.hp_session.specs.SessionView.{machine_of, IsRoomy};

    ghost view = { machine_of };

    ghost invariant = { IsRoomy };
}
