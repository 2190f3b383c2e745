//! The standard reader and writer as a source and a sink: the trusted edge.
//!
//! Which bytes come in, where they go, and when a call fails is the outside's, so they tell no bytes. What a reader
//! or a writer in memory tells is passed on by the calls' own clauses.
ghost use Rattle.std.specs.Prelude.{◌≡◌, ◌<◌, length, None, IfOk};
ghost use Rattle.std.specs.Io.{ReadsAtMost, WritesAtMost};
ghost use Rattle.std.specs.Io.KnownBytes.{ReadConsumes, WriteAppends};
ghost use Rattle.hp_outside.specs.Faults.{HasCause};
ghost use Rattle.hp_outside.specs.Calls.{faults_after};

use crate::streams::{Failed, Sink, Source, one_more};
use std::io::{Read, Write};

/// A standard reader as a source that tells no bytes.
#[derive(Debug, Drop)]
pub struct StdSource<R> {
    /// The reader.
    pub reader: R,
    /// How many calls failed. At the last value of `u64` it stands still.
    pub faults: u64,
}

/// A standard writer as a sink that tells no bytes.
#[derive(Debug, Drop)]
pub struct StdSink<W> {
    /// The writer.
    pub writer: W,
    /// How many calls failed. At the last value of `u64` it stands still.
    pub faults: u64,
}

impl<R: Read> Source for StdSource<R> {
    ghost left = { λ _. None };

    ghost faults = { λ s. s.faults };

    /// Each error of the reader is a failure, an interrupted call too.
    fn read(&mut self, room: &mut [u8]) -> Result<usize, Failed>
        ensures passed_on { ReadConsumes (R.remaining self.old.reader) (R.remaining self.new.reader) result room.new }
        ensures counted { self.new.faults ≡ faults_after self.old.faults result }

        // As of every source.
        ensures within { ReadsAtMost result room.new }
        ensures cause { HasCause self.old.faults self.new.faults result }
    {
        match self.reader.read(room) {
            Ok(count) => Ok(count),
            Err(_) => Err(one_more(&mut self.faults)),
        }
    }
}

impl<W: Write> Sink for StdSink<W> {
    ghost written = { λ _. None };

    ghost faults = { λ s. s.faults };

    /// Each error of the writer is a failure, an interrupted call too, and so is a write that takes nothing of a
    /// piece that is not empty.
    fn write(&mut self, piece: &[u8]) -> Result<usize, Failed>
        ensures passed_on { WriteAppends (W.contents self.old.writer) (W.contents self.new.writer) result piece.now }
        ensures counted { self.new.faults ≡ faults_after self.old.faults result }

        // As of every sink.
        ensures within { WritesAtMost result piece.now }
        ensures progress { IfOk result (λ k. 0 < length piece.now → 0 < k) }
        ensures cause { HasCause self.old.faults self.new.faults result }
    {
        match self.writer.write(piece) {
            Ok(count) if count > 0 || piece.is_empty() => Ok(count),
            _ => Err(one_more(&mut self.faults)),
        }
    }
}
