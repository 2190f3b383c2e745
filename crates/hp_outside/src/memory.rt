//! A source and a sink in memory, which fail at the calls that they are told to fail at.
ghost use Rattle.std.specs.Prelude.{◌≡◌, ◌+◌, ◌-◌, ◌≤◌, ◌<◌, ◌++◌, length, take, drop, Some, IfOk, vec_len, vec_capacity};
ghost use Rattle.std.specs.Io.{ReadsAtMost, WritesAtMost};
ghost use Rattle.std.specs.Io.KnownBytes.{ReadConsumes, WriteAppends};
ghost use Rattle.hp_outside.specs.Faults.{HasCause};
ghost use Rattle.hp_outside.specs.Calls.{fails_at};
ghost use Rattle.hp_outside.specs.Room.{taken_count};

use crate::streams::{Failed, Sink, Source, one_more};
use std::alloc::{AllocError as NoMemory, Global};

/// A source that gives the bytes of a vector from a place on, and tells them.
#[derive(Debug, Drop)]
pub struct MemorySource {
    /// All the bytes, those that were given already too.
    pub bytes: Vec<u8>,
    /// The place of the next byte. At the number of bytes, and above it, nothing is left.
    pub at: usize,
    /// The numbers of the calls that fail, the first call being 0.
    pub fails: Vec<u32>,
    /// The number of the next call. At the last value of `u32` it stands still, and every call fails.
    pub calls: u32,
    /// How many calls failed. At the last value of `u64` it stands still.
    pub faults: u64,
}

/// A sink that keeps what is written, up to a number of bytes, and tells it.
#[derive(Debug, Drop)]
pub struct MemorySink {
    /// The bytes written.
    pub bytes: Vec<u8>,
    /// How many more bytes are taken. Where it is 0, every call fails.
    pub left: usize,
    /// The numbers of the calls that fail, the first call being 0.
    pub fails: Vec<u32>,
    /// The number of the next call. At the last value of `u32` it stands still, and every call fails.
    pub calls: u32,
    /// How many calls failed. At the last value of `u64` it stands still.
    pub faults: u64,
    ghost reserved: { vec_len bytes + left ≤ vec_capacity bytes },
}

impl Source for MemorySource {
    ghost use Rattle.hp_outside.specs.Memory.{read_answer, source_after};

    ghost left = { λ s. Some (drop s.at s.bytes.items) };

    ghost faults = { λ s. s.faults };

    fn read(&mut self, room: &mut [u8]) -> Result<usize, Failed>
        ensures value { result ≡ read_answer self.old (length room.old) }
        ensures after { self.new ≡ source_after self.old (length room.old) }

        // As of every source.
        ensures within { ReadsAtMost result room.new }
        ensures bytes { ReadConsumes (Some (drop self.old.at self.old.bytes.items))
            (Some (drop self.new.at self.new.bytes.items)) result room.new }
        ensures cause { HasCause self.old.faults self.new.faults result }
    {
        let fails = is_to_fail(&self.fails, self.calls);
        self.calls = self.calls.saturating_add(1);
        if fails {
            return Err(one_more(&mut self.faults));
        }
        let count = take_from(&self.bytes, self.at, room);
        self.at += count;
        Ok(count)
    }
}

impl MemorySink {
    ghost use Rattle.hp_outside.specs.Written.{IsFresh};

    /// A sink with no bytes written, which takes `left` bytes and has the room for them.
    pub fn make(alloc: Global, left: usize, fails: Vec<u32>) -> Result<MemorySink, NoMemory>
        ensures { IfOk result (λ s. IsFresh s left fails.items) }
    {
        let bytes = Vec::with_capacity(alloc, left)?;
        Ok(MemorySink {
            bytes,
            left,
            fails,
            calls: 0,
            faults: 0,
        })
    }
}

impl Sink for MemorySink {
    ghost use Rattle.hp_outside.specs.Written.{write_answer, WritesTo};

    ghost written = { λ s. Some s.bytes.items };

    ghost faults = { λ s. s.faults };

    fn write(&mut self, piece: &[u8]) -> Result<usize, Failed>
        ensures value { result ≡ write_answer self.old (length piece.now) }
        ensures after { WritesTo self.old self.new result piece.now }

        // As of every sink.
        ensures within { WritesAtMost result piece.now }
        ensures progress { IfOk result (λ k. 0 < length piece.now → 0 < k) }
        ensures bytes { WriteAppends (Some self.old.bytes.items) (Some self.new.bytes.items) result piece.now }
        ensures cause { HasCause self.old.faults self.new.faults result }
    {
        let fails = self.left == 0 || is_to_fail(&self.fails, self.calls);
        self.calls = self.calls.saturating_add(1);
        if fails {
            return Err(one_more(&mut self.faults));
        }
        let count = self.left.min(piece.len());
        self.bytes.extend_from_slice(&piece[..count]).unwrap();
        self.left -= count;
        Ok(count)
    }
}

/// Whether the call with this number is to fail.
fn is_to_fail(listed: &[u32], call: u32) -> bool
    ensures { result ≡ fails_at listed.now call }
{
    listed.contains(&call) || call == u32::MAX
}

/// Copies the bytes from a place on into the front of `room`, as many as there are and fit, and answers their number.
pub(crate) fn take_from(bytes: &[u8], at: usize, room: &mut [u8]) -> usize
    ensures count { result ≡ taken_count bytes.now at (length room.old) }
    ensures gives { drop at bytes.now ≡ take result room.new ++ drop (at + result) bytes.now }
{
    if at >= bytes.len() {
        return 0;
    }
    let rest = &bytes[at..];
    let count = rest.len().min(room.len());
    room[..count].copy_from_slice(&rest[..count]);
    count
}
