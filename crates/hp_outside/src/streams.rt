//! What a source and a sink of bytes are.
//!
//! Neither says when it will fail. Each keeps a count of its faults, and a call may fail only where this count rose.
//! So whoever is told of a fault can see that the outside is to blame.
ghost use Rattle.std.specs.Prelude.{◌≡◌, ℕ, ◌<◌, ◌≤◌, List, length, Option, IfOk};
ghost use Rattle.std.specs.Io.{ReadsAtMost, WritesAtMost};
ghost use Rattle.std.specs.Io.KnownBytes.{ReadConsumes, WriteAppends};
ghost use Rattle.hp_outside.specs.Faults.{Rose, HasCause};
ghost use Rattle.hp_outside.specs.Calls.{one_more_fault};

/// A read or a write that failed.
#[derive(Clone, Copy, Debug, PartialEq, Eq)]
pub struct Failed;

/// Bytes that come from outside, in order.
pub trait Source {
    // The bytes that are still to come, where the source tells them.
    ghost left: { Self → Option (List ℕ) };

    // How often the source has failed.
    ghost faults: { Self → ℕ };

    /// Puts the next bytes into the front of `room` and answers their number, at most the room's length.
    ///
    /// It answers 0 for a room that is not empty only at the end, where the source tells its bytes. It fails only
    /// where its count of faults rose, and then takes no byte; what `room` then holds is left open.
    fn read(&mut self, room: &mut [u8]) -> Result<usize, Failed>
        ensures within { ReadsAtMost result room.new }
        ensures bytes { ReadConsumes (left self.old) (left self.new) result room.new }
        ensures cause { HasCause (faults self.old) (faults self.new) result };
}

/// A place outside to which bytes go, in order.
pub trait Sink {
    // The bytes written so far, where the sink tells them.
    ghost written: { Self → Option (List ℕ) };

    // How often the sink has failed.
    ghost faults: { Self → ℕ };

    /// Appends the first bytes of `piece` and answers their number: at least 1, unless the piece is empty.
    ///
    /// It fails only where its count of faults rose, and then appends nothing. An empty piece may fail too.
    fn write(&mut self, piece: &[u8]) -> Result<usize, Failed>
        ensures within { WritesAtMost result piece.now }
        ensures progress { IfOk result (λ k. 0 < length piece.now → 0 < k) }
        ensures bytes { WriteAppends (written self.old) (written self.new) result piece.now }
        ensures cause { HasCause (faults self.old) (faults self.new) result };
}

/// Counts one more fault; at its last value the count stands still.
pub(crate) fn one_more(faults: &mut u64) -> Failed
    ensures value { faults.new ≡ one_more_fault faults.old }
    ensures rose { Rose faults.old faults.new }
    ensures never_falls { faults.old ≤ faults.new }
{
    *faults = faults.saturating_add(1);
    Failed
}
