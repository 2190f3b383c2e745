//! A source and a sink that never fail.
ghost use Rattle.std.specs.Prelude.{◌≡◌, ◌+◌, ◌-◌, ◌%◌, ◌^◌, ◌<◌, Ok, IfOk, length, drop, Some, None};
ghost use Rattle.std.specs.Io.{ReadsAtMost, WritesAtMost};
ghost use Rattle.std.specs.Io.KnownBytes.{ReadConsumes, WriteAppends};
ghost use Rattle.hp_outside.specs.Faults.{HasCause};
ghost use Rattle.hp_outside.specs.Room.{taken_count};

use crate::memory::take_from;
use crate::streams::{Failed, Sink, Source};

/// A source that gives the bytes of a vector from a place on, tells them, and never fails.
#[derive(Debug, Drop)]
pub struct SteadySource {
    /// All the bytes, those that were given already too.
    pub bytes: Vec<u8>,
    /// The place of the next byte. At the number of bytes, and above it, nothing is left.
    pub at: usize,
}

/// A sink that takes each piece whole and never fails. It keeps no byte and tells none.
#[derive(Clone, Copy, Debug, PartialEq, Eq)]
pub struct SteadySink {
    /// The number of bytes taken so far, modulo 2 to the power 64.
    pub taken: u64,
}

impl Source for SteadySource {
    ghost left = { λ s. Some (drop s.at s.bytes.items) };

    ghost faults = { λ _. 0 };

    fn read(&mut self, room: &mut [u8]) -> Result<usize, Failed>
        ensures value { result ≡ Ok (taken_count self.old.bytes.items self.old.at (length room.old)) }
        ensures after { self.new ≡ record self.old {
          at = self.old.at + taken_count self.old.bytes.items self.old.at (length room.old);
        } }

        // As of every source.
        ensures within { ReadsAtMost result room.new }
        ensures bytes { ReadConsumes (Some (drop self.old.at self.old.bytes.items))
            (Some (drop self.new.at self.new.bytes.items)) result room.new }
        ensures cause { HasCause 0 0 result }
    {
        let count = take_from(&self.bytes, self.at, room);
        self.at += count;
        Ok(count)
    }
}

impl Sink for SteadySink {
    ghost written = { λ _. None };

    ghost faults = { λ _. 0 };

    fn write(&mut self, piece: &[u8]) -> Result<usize, Failed>
        ensures value { result ≡ Ok (length piece.now) }
        ensures after { self.new.taken ≡ (self.old.taken + length piece.now) % 2 ^ 64 }

        // As of every sink.
        ensures within { WritesAtMost result piece.now }
        ensures progress { IfOk result (λ k. 0 < length piece.now → 0 < k) }
        ensures bytes { WriteAppends None None result piece.now }
        ensures cause { HasCause 0 0 result }
    {
        self.taken = self.taken.wrapping_add(piece.len() as u64);
        Ok(piece.len())
    }
}
