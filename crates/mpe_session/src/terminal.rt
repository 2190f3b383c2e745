//! A session's terminal. Its room is reserved when it is made, so nothing that is printed later takes memory.
ghost use Rattle.std.specs.Prelude.{◌≤◌, vec_len, vec_capacity, IfOk};

use hp_session::Line;
use std::alloc::{AllocError as NoMemory, Global};

/// A session's terminal: the lines that are typed, and the bytes that it printed.
#[derive(Debug, Drop)]
pub struct Terminal {
    /// What is typed, the first line first.
    pub lines: Vec<Line>,
    /// How many lines were taken.
    pub next_line: usize,
    /// The bytes printed.
    pub printed: Vec<u8>,
    /// The greatest number of bytes printed.
    pub room: u32,
    ghost within: { vec_len printed ≤ room },
    ghost reserved: { room ≤ vec_capacity printed },
}

impl Terminal {
    ghost use Rattle.mpe_session.specs.Terminals.{IsFresh};

    /// A terminal at which these lines will be typed, with nothing printed and room for as many bytes. Only memory may be
    /// wanting, and then the lines are dropped.
    pub fn make(alloc: Global, lines: Vec<Line>, room: u32) -> Result<Terminal, NoMemory>
        ensures { IfOk result (λ t. IsFresh t lines.items room) }
    {
        let printed = Vec::with_capacity(alloc, room as usize)?;
        Ok(Terminal {
            lines,
            next_line: 0,
            printed,
            room,
        })
    }
}
