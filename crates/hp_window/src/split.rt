//! Split mode: a DB-relative address is one of the extra segment, and the stack is reached from Q and S alone.
ghost use Rattle.std.specs.Prelude.{◌≡◌, ◌≤◌, length, OnOk, OnErr, slice_set, vec_capacity};
ghost use Rattle.hp_window.specs.Window.{bounded, read_below};

use crate::bounds::{Bounds, read_below, write_below};
use crate::whole::Whole;

/// The data of a session in split mode.
#[derive(Debug, Drop, PartialEq, Eq)]
pub struct Split {
    /// The whole room of the stack, STACK words. The first of them, up to a `top` that the caller names, are on it.
    pub stack: Vec<u16>,
    /// The extra segment, all of which is in bounds.
    pub extra: Vec<u16>,
}

impl Split {
    /// The word of the extra segment at an address.
    #[inline]
    pub fn read_db(&self, address: u16) -> Result<u16, Bounds>
        ensures { result ≡ read_below self.now.extra.items address (length self.now.extra.items) }
    {
        read_below(&self.extra, address, self.extra.len())
    }

    /// Puts a word at an address of the extra segment.
    #[inline]
    pub fn write_db(&mut self, address: u16, w: u16) -> Result<(), Bounds>
        ensures value { result ≡ bounded address (length self.old.extra.items) tt }
        ensures ok { OnOk result (self.new.extra.items ≡ slice_set self.old.extra.items address w) }
        ensures err { OnErr result (self.new ≡ self.old) }

        // What it leaves alone.
        ensures stack { self.new.stack ≡ self.old.stack }
        ensures capacity { vec_capacity self.new.extra ≡ vec_capacity self.old.extra }
    {
        let top = self.extra.len();
        write_below(&mut self.extra, address, top, w)
    }

    /// The word of the stack at an address. `top` is the number of words that stand in memory.
    #[inline]
    pub fn read_stack(&self, address: u16, top: u16) -> Result<u16, Bounds>
        requires { top ≤ length self.now.stack.items }
        ensures { result ≡ read_below self.now.stack.items address top }
    {
        read_below(&self.stack, address, top as usize)
    }

    /// Puts a word at an address of the stack. `top` is the number of words that stand in memory.
    #[inline]
    pub fn write_stack(&mut self, address: u16, top: u16, w: u16) -> Result<(), Bounds>
        requires { top ≤ length self.old.stack.items }
        ensures value { result ≡ bounded address top tt }
        ensures ok { OnOk result (self.new.stack.items ≡ slice_set self.old.stack.items address w) }
        ensures err { OnErr result (self.new ≡ self.old) }

        // What it leaves alone.
        ensures extra { self.new.extra ≡ self.old.extra }
        ensures capacity { vec_capacity self.new.stack ≡ vec_capacity self.old.stack }
    {
        write_below(&mut self.stack, address, top as usize, w)
    }

    /// The same data in whole mode.
    #[inline]
    pub fn join(self) -> Whole
        ensures stack { result.stack ≡ self.stack }
        ensures extra { result.extra ≡ self.extra }
    {
        Whole {
            stack: self.stack,
            extra: self.extra,
        }
    }
}
