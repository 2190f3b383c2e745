//! The two programs, and a third that is as large as a segment may be.
ghost use Rattle.std.specs.Prelude.{◌≡◌};

use hp_program::Program;
use mpe_session::Seat;
use mpe_turns::Monitor;
use std::alloc::{AllocError, Global};

/// A program to be run.
#[derive(Clone, Copy)]
pub enum Job {
    /// A loop of five instructions in one segment.
    Loop,
    /// A loop of a call into another segment and its return.
    Calls,
}

/// LOAD DB+0; LDI 1; LADD, NOP; STOR DB+0; BR to the first; and a table with one entry, which leads there too.
const LOOP: [u16; 8] = [0o041000, 0o020401, 0o006100, 0o051000, 0o140404, 0, 0, 1];

/// PCAL 2; BR to the first; and two entries, the first of the other segment and offset 0.
const CALLS: [u16; 5] = [0x3002, 0o140401, 0x8101, 0, 2];

/// EXIT 0; and an entry, offset 0.
const CALLED: [u16; 3] = [0x3100, 0, 1];

/// The program of a job, with one data word.
pub fn program(alloc: Global, job: Job) -> Result<Option<Program>, AllocError> {
    let mut segments = Vec::new(alloc);
    match job {
        Job::Loop => segments.push(Vec::from_slice(alloc, &LOOP)?)?,
        Job::Calls => {
            segments.push(Vec::from_slice(alloc, &CALLS)?)?;
            segments.push(Vec::from_slice(alloc, &CALLED)?)?;
        }
    }
    Ok(Program::new(segments, 0, 1, vec![in alloc; 0; 1]?).ok())
}

/// A segment of as many words as one may have, NOPs and a table with one entry, offset 0.
pub fn large(alloc: Global) -> Result<Option<Program>, AllocError> {
    let mut words = vec![in alloc; 0; 16382]?;
    words.push(1)?;
    Ok(Program::new(vec![in alloc; words]?, 0, 1, Vec::new(alloc)).ok())
}

/// A seat of the first program, with 1,024 words of stack.
fn seat(alloc: Global) -> Seat
    ensures program { result.program ≡ 0 }
    ensures stack { result.stack ≡ 1024 }
    ensures extra { result.extra ≡ 0 }
{
    Seat {
        program: 0,
        stack: 1024,
        extra: 0,
        room: 10,
        lines: Vec::new(alloc),
    }
}

/// A monitor of one session of a program, in so many words of memory.
pub fn opened(alloc: Global, program: Program, memory: u16) -> Result<Option<Monitor>, AllocError> {
    let seats = vec![in alloc; seat(alloc)]?;
    let programs = vec![in alloc; program]?;
    Ok(Monitor::open(alloc, memory as u32, seats, programs).ok())
}
