//! A whole input read from a source, and a whole output written to a sink.
ghost use Rattle.std.specs.Prelude.{◌≡◌, ◌≤◌, IfOk, OnOk, OnErr, Err};
ghost use Rattle.std.specs.Io.KnownBytes.{Appends};
ghost use Rattle.hp_outside.specs.Faults.{Rose, HasCause};
ghost use Rattle.hp_outside.specs.declared.whole.ReadAll.TheVariants.{ReadFault, NoMemory};
ghost use Rattle.hp_outside.specs.Whole.{ReadsToEnd, IsLongerThan, LeavesRest, AppendsPrefix};

use crate::streams::{Failed, Sink, Source};
use std::alloc::{AllocError, Global};

/// The room of one read, in bytes.
const PIECE: usize = 4096;

/// Why a source was not read to its end.
#[derive(Clone, Copy, Debug, PartialEq, Eq)]
pub enum ReadAll {
    /// A read failed.
    ReadFault,
    /// More bytes came than the limit allows.
    TooLong,
    /// There is no memory for the bytes.
    NoMemory,
}

impl From<Failed> for ReadAll {
    ghost from_gives = { λ _ e. e ≡ ReadFault };

    fn from(_: Failed) -> ReadAll {
        ReadAll::ReadFault
    }
}

impl From<AllocError> for ReadAll {
    ghost from_gives = { λ _ e. e ≡ NoMemory };

    fn from(_: AllocError) -> ReadAll {
        ReadAll::NoMemory
    }
}

/// Reads a source to its end and answers all its bytes, at most `limit`.
///
/// Each read but the last takes at least one byte, so it returns after at most `limit` plus 2 reads. Where it
/// fails, some bytes may have been taken from the source, and a count of faults that rose stays so.
pub fn read_all<S: Source>(alloc: Global, source: &mut S, limit: usize) -> Result<Vec<u8>, ReadAll>
    ensures ok { IfOk result (λ v. ReadsToEnd limit (S.left source.old) (S.left source.new) v.items) }

    // Each refusal, and when it comes. Want of memory alone is free.
    ensures read_fault { result ≡ Err ReadAll.ReadFault → Rose (S.faults source.old) (S.faults source.new) }
    ensures too_long { result ≡ Err ReadAll.TooLong → IsLongerThan limit (S.left source.old) }

    ensures rest { LeavesRest (S.left source.old) (S.left source.new) }
    ensures faults { S.faults source.old ≤ S.faults source.new }
{
    let mut bytes = Vec::new(alloc);
    let mut room = [0; PIECE];
    loop {
        let count = source.read(&mut room)?;
        if count == 0 {
            return Ok(bytes);
        }
        if count > limit - bytes.len() {
            return Err(ReadAll::TooLong);
        }
        bytes.extend_from_slice(&room[..count])?;
    }
}

/// Writes all of `bytes` to a sink. It takes no memory.
///
/// Where it fails, the sink has taken some first bytes and no others.
pub fn write_all<K: Sink>(sink: &mut K, bytes: &[u8]) -> Result<(), Failed>
    ensures ok { OnOk result (Appends (K.written sink.old) (K.written sink.new) bytes.now) }
    ensures err { OnErr result (AppendsPrefix (K.written sink.old) (K.written sink.new) bytes.now) }
    ensures cause { HasCause (K.faults sink.old) (K.faults sink.new) result }
{
    let mut at = 0;
    while at < bytes.len() {
        at += sink.write(&bytes[at..])?;
    }
    Ok(())
}
