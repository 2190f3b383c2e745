//! Places: how an operand is found, read and stored.
ghost use Rattle.std.specs.Prelude.{◌≡◌, ◌<◌, ◌≤◌, length};
ghost use Rattle.hp_session.specs.State.{Does};
ghost use Rattle.hp_session.specs.Places.{base, area, address, read_at, moved, index, operand, first_byte, byte_operand, word_of_byte, byte_read, put, written, byte_written};

use crate::session::Session;
use crate::word_parts::{byte_of, with_byte};
use hp_instr::Mode;
use hp_word::Trap;

/// Where a reference leads: the address of a word, or for a reference to a byte twice that, plus 1 for its right byte.
#[derive(Clone, Copy, Debug, PartialEq, Eq)]
pub enum Place {
    /// An address from DB on: in split mode of the extra segment.
    Db(u16),
    /// An address of the stack, in both modes.
    Stack(u16),
}

impl Place {
    /// The address alone.
    #[inline]
    pub fn address(self) -> u16
        ensures { result ≡ address self }
    {
        match self {
            Place::Db(a) => a,
            Place::Stack(a) => a,
        }
    }

    /// The place `by` further on.
    #[inline]
    #[tactic(auto, unfolding(crate::specs::Places::moved))]
    pub fn moved(self, by: u32) -> Place
        requires { by ≤ 131070 }
        ensures { result ≡ moved by self }
    {
        match self {
            Place::Db(a) => Place::Db(((a as u32 + by) % 65536) as u16),
            Place::Stack(a) => Place::Stack(((a as u32 + by) % 65536) as u16),
        }
    }

    /// The byte place of its left byte.
    #[inline]
    #[tactic(auto, unfolding(crate::specs::Places::first_byte))]
    fn first_byte(self) -> Place
        ensures { result ≡ first_byte self }
    {
        match self {
            Place::Db(a) => Place::Db((2 * a as u32 % 65536) as u16),
            Place::Stack(a) => Place::Stack((2 * a as u32 % 65536) as u16),
        }
    }

    /// The place of the word that holds the byte here.
    #[inline]
    #[tactic(auto, unfolding(crate::specs::Places::word_of_byte))]
    fn word_of_byte(self) -> Place
        ensures { result ≡ word_of_byte self }
    {
        match self {
            Place::Db(b) => Place::Db(b / 2),
            Place::Stack(b) => Place::Stack(b / 2),
        }
    }
}

impl Session {
    /// The place that a mode names.
    #[tactic(auto, unfolding(crate::specs::Places::base))]
    fn base(&self, mode: Mode) -> Place
        ensures { result ≡ base mode self.now }
    {
        let q = self.regs.q;
        match mode {
            Mode::DbPlus(d) => Place::Db(d as u16),
            Mode::QPlus(d) => Place::Stack(q.wrapping_add(d as u16)),
            Mode::QMinus(d) => Place::Stack(q.wrapping_sub(d as u16)),
            Mode::SMinus(d) => {
                let _limit = self.stack_limit;
                Place::Stack(((self.stack.len() as u32 + 65535 - d as u32) % 65536) as u16)
            }
        }
    }

    /// The word at a place.
    #[tactic(auto, unfolding(crate::specs::Places::read_at, crate::specs::Places::area))]
    pub fn read_at(&self, place: Place) -> Result<u16, Trap>
        ensures { result ≡ read_at place self.now }
    {
        let word = match place {
            Place::Db(a) if self.split => self.extra.get(a as usize),
            Place::Db(a) => self.stack.get(a as usize),
            Place::Stack(a) => self.stack.get(a as usize),
        };
        word.copied().ok_or(Trap::Bounds)
    }

    /// The byte at a byte place.
    #[tactic(auto, unfolding(crate::specs::Places::byte_read))]
    pub fn read_byte(&self, place: Place) -> Result<u8, Trap>
        ensures { result ≡ byte_read place self.now }
    {
        let word = self.read_at(place.word_of_byte())?;
        Ok(byte_of(place.address() as usize, word))
    }

    /// What indexing adds to an operand of `size` words.
    #[inline]
    fn index(&self, size: u8, x: bool) -> u32
        requires { size ≤ 2 }
        ensures value { result ≡ index size x self.now }
        ensures bound { result ≤ 131070 }
    {
        if x {
            size as u32 * self.regs.x as u32
        } else {
            0
        }
    }

    /// The place of an operand of `size` words.
    #[tactic(auto, unfolding(crate::specs::Places::operand))]
    pub fn operand(&self, size: u8, mode: Mode, i: bool, x: bool) -> Result<Place, Trap>
        requires { size ≤ 2 }
        ensures { result ≡ operand size mode i x self.now }
    {
        let by = self.index(size, x);
        if i {
            let cell = self.read_at(self.base(mode))?;
            Ok(Place::Db(cell).moved(by))
        } else {
            Ok(self.base(mode).moved(by))
        }
    }

    /// The byte place of an operand.
    #[tactic(auto, unfolding(crate::specs::Places::byte_operand))]
    pub fn byte_operand(&self, mode: Mode, i: bool, x: bool) -> Result<Place, Trap>
        ensures { result ≡ byte_operand mode i x self.now }
    {
        let by = self.index(1, x);
        if i {
            let cell = self.read_at(self.base(mode))?;
            Ok(Place::Db(cell).moved(by))
        } else {
            Ok(self.base(mode).first_byte().moved(by))
        }
    }

    /// Puts a word at a place; past the end nothing changes.
    #[tactic(auto, unfolding(crate::specs::Places::put), using(std::proofs::lemmas::List::set_past))]
    pub fn put(&mut self, place: Place, w: u16)
        ensures { self.new ≡ put place w self.old }
    {
        let (address, of_extra) = match place {
            Place::Db(a) => (a as usize, self.split),
            Place::Stack(a) => (a as usize, false),
        };
        if of_extra {
            if address < self.extra.len() {
                self.extra[address] = w;
            }
        } else if address < self.stack.len() {
            self.stack[address] = w;
        }
    }

    /// Stores a word at a place.
    #[tactic(auto, unfolding(crate::specs::Places::written, crate::specs::Places::put, crate::specs::Places::area))]
    pub fn write_at(&mut self, place: Place, w: u16) -> Result<(), Trap>
        ensures value { Does (written place w self.old) self.old result self.new }
        ensures kept { length self.new.stack ≡ length self.old.stack }
    {
        let (address, of_extra) = match place {
            Place::Db(a) => (a as usize, self.split),
            Place::Stack(a) => (a as usize, false),
        };
        if of_extra {
            if address < self.extra.len() {
                self.extra[address] = w;
                return Ok(());
            }
        } else if address < self.stack.len() {
            self.stack[address] = w;
            return Ok(());
        }
        Err(Trap::Bounds)
    }

    /// Stores a byte at a byte place.
    #[tactic(auto, unfolding(crate::specs::Places::byte_written))]
    pub fn write_byte(&mut self, place: Place, byte: u8) -> Result<(), Trap>
        ensures value { Does (byte_written place byte self.old) self.old result self.new }
        ensures kept { length self.new.stack ≡ length self.old.stack }
    {
        let at = place.word_of_byte();
        let word = self.read_at(at)?;
        self.write_at(at, with_byte(place.address() as usize, byte, word))
    }
}
