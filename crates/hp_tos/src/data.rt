//! A session's data in either state, with what the stack asks of it.
ghost use Rattle.std.specs.Prelude.{◌≡◌, ◌≤◌, ◌<◌, ◌+◌, length, slice_index, false, true, IsTrue, ◌↔◌, OnOk, OnErr, if◌then◌else◌};
ghost use Rattle.hp_window.specs.Window.{bounded, read_below};

use hp_window::{Bounds, Split, Whole};
use std::mem;

/// The data of a session: in which state it is, and there its two lists.
#[derive(Debug, Drop, PartialEq, Eq)]
pub enum Data {
    /// DB addresses the stack.
    Whole(Whole),
    /// DB addresses the extra segment.
    Split(Split),
}

impl Data {
    ghost use Rattle.hp_tos.specs.Lists.{lists, stored, stored_all, db_top, db_read, db_stored};

    /// How many words the room of the stack has.
    #[tactic(auto, unfolding(crate::specs::Lists::lists))]
    #[inline]
    pub(crate) fn limit(&self) -> u16
        requires { length (lists self.now).stack ≤ 32000 }
        ensures { result ≡ length (lists self.now).stack }
    {
        match self {
            Data::Whole(data) => data.stack.len() as u16,
            Data::Split(data) => data.stack.len() as u16,
        }
    }

    /// The word of the room at an address.
    #[tactic(auto, unfolding(crate::specs::Lists::lists))]
    #[inline]
    pub(crate) fn word(&self, address: u16) -> u16
        requires { address < length (lists self.now).stack }
        ensures { result ≡ slice_index (lists self.now).stack address }
    {
        match self {
            Data::Whole(data) => data.stack[address as usize],
            Data::Split(data) => data.stack[address as usize],
        }
    }

    /// Puts a word at an address of the room.
    #[tactic(auto, unfolding(crate::specs::Lists::lists))]
    #[inline]
    pub(crate) fn set_word(&mut self, address: u16, w: u16)
        requires { address < length (lists self.old).stack }
        ensures { lists self.new ≡ stored address w (lists self.old) }
    {
        match self {
            Data::Whole(data) => data.stack[address as usize] = w,
            Data::Split(data) => data.stack[address as usize] = w,
        }
    }

    /// Puts words from an address of the room upwards.
    #[tactic(auto, unfolding(crate::specs::Lists::lists))]
    #[inline]
    fn set_words(&mut self, address: u16, words: &[u16])
        requires { address + length words.now ≤ length (lists self.old).stack }
        ensures { lists self.new ≡ stored_all address words.now (lists self.old) }
    {
        let from = address as usize;
        match self {
            Data::Whole(data) => data.stack[from..from + words.len()].copy_from_slice(words),
            Data::Split(data) => data.stack[from..from + words.len()].copy_from_slice(words),
        }
    }

    /// Puts the words of registers from an address of the room upwards, the lowest first. A copy of a known length is a few
    /// moves of the host, where another calls a function of the C library.
    #[tactic(auto, using(crate::proofs::RoomLemmas::parted))]
    #[inline]
    pub(crate) fn set_registers(&mut self, address: u16, words: &[u16])
        requires few { length words.now ≤ 4 }
        requires room { address + length words.now ≤ length (lists self.old).stack }
        ensures { lists self.new ≡ stored_all address words.now (lists self.old) }
    {
        match words {
            [] => {}
            &[a] => self.set_word(address, a),
            &[a, b] => self.set_words(address, &[a, b]),
            &[a, b, c] => self.set_words(address, &[a, b, c]),
            &[a, b, c, d] => self.set_words(address, &[a, b, c, d]),
            _ => unreachable!(),
        }
    }

    /// Whether the state is split.
    #[tactic(auto, unfolding(crate::specs::Lists::lists))]
    #[inline]
    pub(crate) fn is_split(&self) -> bool
        ensures { result ≡ (lists self.now).split }
    {
        matches!(self, Data::Split(_))
    }

    /// Goes into split mode. The answer is whether the mode was whole before.
    #[tactic(auto, unfolding(crate::specs::Lists::lists))]
    pub(crate) fn split(&mut self) -> bool
        ensures value { IsTrue result ↔ ((lists self.old).split ≡ false) }
        ensures kept { lists self.new ≡ record (lists self.old) { split = true } }
    {
        let (goes, data) = match self.moved_out() {
            Data::Whole(data) => (true, Data::Split(data.split())),
            data => (false, data),
        };
        *self = data;
        goes
    }

    /// Goes into whole mode. The answer is whether the mode was split before.
    #[tactic(auto, unfolding(crate::specs::Lists::lists))]
    pub(crate) fn join(&mut self) -> bool
        ensures value { IsTrue result ↔ ((lists self.old).split ≡ true) }
        ensures kept { lists self.new ≡ record (lists self.old) { split = false } }
    {
        let (goes, data) = match self.moved_out() {
            Data::Split(data) => (true, Data::Whole(data.join())),
            data => (false, data),
        };
        *self = data;
        goes
    }

    /// The data itself, so that its state can be changed. Two empty lists, which take no memory, stay in its place.
    fn moved_out(&mut self) -> Data
        ensures { result ≡ self.old }
    {
        let alloc = match self {
            Data::Whole(data) => *data.stack.allocator(),
            Data::Split(data) => *data.stack.allocator(),
        };
        let blank = Whole {
            stack: Vec::new(alloc),
            extra: Vec::new(alloc),
        };
        mem::replace(self, Data::Whole(blank))
    }

    /// The word that DB addresses, where the stack has `top` words.
    #[tactic(auto, unfolding(crate::specs::Lists::lists))]
    #[inline]
    pub(crate) fn read_db(&self, address: u16, top: u16) -> Result<u16, Bounds>
        requires { top ≤ length (lists self.now).stack }
        ensures { result ≡ db_read address top (lists self.now) }
    {
        match self {
            Data::Whole(data) => data.read(address, top),
            Data::Split(data) => data.read_db(address),
        }
    }

    /// Puts a word where DB addresses it, where the stack has `top` words.
    #[tactic(auto, unfolding(crate::specs::Lists::lists))]
    #[inline]
    pub(crate) fn write_db(&mut self, address: u16, top: u16, w: u16) -> Result<(), Bounds>
        requires { top ≤ length (lists self.old).stack }
        ensures value { result ≡ bounded address (db_top top (lists self.old)) tt }
        ensures ok { OnOk result (lists self.new ≡ db_stored address w (lists self.old)) }
        ensures err { OnErr result (self.new ≡ self.old) }
    {
        match self {
            Data::Whole(data) => data.write(address, top, w),
            Data::Split(data) => data.write_db(address, w),
        }
    }

    /// The word of the stack at an address, where it has `top` words.
    #[tactic(auto, unfolding(crate::specs::Lists::lists))]
    #[inline]
    pub(crate) fn read_stack(&self, address: u16, top: u16) -> Result<u16, Bounds>
        requires { top ≤ length (lists self.now).stack }
        ensures { result ≡ read_below (lists self.now).stack address top }
    {
        match self {
            Data::Whole(data) => data.read(address, top),
            Data::Split(data) => data.read_stack(address, top),
        }
    }

    /// Puts a word at an address of the stack, where it has `top` words.
    #[tactic(auto, unfolding(crate::specs::Lists::lists))]
    #[inline]
    pub(crate) fn write_stack(&mut self, address: u16, top: u16, w: u16) -> Result<(), Bounds>
        requires { top ≤ length (lists self.old).stack }
        ensures value { result ≡ bounded address top tt }
        ensures ok { OnOk result (lists self.new ≡ stored address w (lists self.old)) }
        ensures err { OnErr result (self.new ≡ self.old) }
    {
        match self {
            Data::Whole(data) => data.write(address, top, w),
            Data::Split(data) => data.write_stack(address, top, w),
        }
    }
}
