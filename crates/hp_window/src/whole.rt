//! Whole mode: every address is one of the stack.
ghost use Rattle.std.specs.Prelude.{◌≡◌, ◌≤◌, length, OnOk, OnErr, slice_set, vec_capacity};
ghost use Rattle.hp_window.specs.Window.{bounded, read_below};

use crate::bounds::{Bounds, read_below, write_below};
use crate::split::Split;

/// The data of a session in whole mode.
#[derive(Debug, Drop, PartialEq, Eq)]
pub struct Whole {
    /// The whole room of the stack, STACK words. The first of them, up to a `top` that the caller names, are on it.
    pub stack: Vec<u16>,
    /// The extra segment, which no address reaches in this state.
    pub extra: Vec<u16>,
}

impl Whole {
    /// The word of the stack at an address. `top` is the number of words that stand in memory.
    #[inline]
    pub fn read(&self, address: u16, top: u16) -> Result<u16, Bounds>
        requires { top ≤ length self.now.stack.items }
        ensures { result ≡ read_below self.now.stack.items address top }
    {
        read_below(&self.stack, address, top as usize)
    }

    /// Puts a word at an address of the stack. `top` is the number of words that stand in memory.
    #[inline]
    pub fn write(&mut self, address: u16, top: u16, w: u16) -> Result<(), Bounds>
        requires { top ≤ length self.old.stack.items }
        ensures value { result ≡ bounded address top tt }
        ensures ok { OnOk result (self.new.stack.items ≡ slice_set self.old.stack.items address w) }
        ensures err { OnErr result (self.new ≡ self.old) }

        // What it leaves alone.
        ensures extra { self.new.extra ≡ self.old.extra }
        ensures capacity { vec_capacity self.new.stack ≡ vec_capacity self.old.stack }
    {
        write_below(&mut self.stack, address, top as usize, w)
    }

    /// The same data in split mode.
    #[inline]
    pub fn split(self) -> Split
        ensures stack { result.stack ≡ self.stack }
        ensures extra { result.extra ≡ self.extra }
    {
        Split {
            stack: self.stack,
            extra: self.extra,
        }
    }
}
