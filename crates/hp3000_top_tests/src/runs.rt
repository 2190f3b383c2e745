//! Runs of jobs over sources and sinks in memory, with what is left of them.
use hp_outside::{MemorySink, MemorySource};
use hp_program::Program;
use hp3000_top::{Monitor, Ran, hp3000_main};
use std::alloc::Global;
use std::test::Fail;

/// A job that prints a word.
pub(crate) const HELLO: &[u8] =
    b"!JOB\n!PROGRAM A\n!UNIT\nBEGIN LOGICAL ARRAY BUF(0:35); BYTE ARRAY B(*)=BUF; INTRINSIC PRINT,TERMINATE; MOVE B:=\"HELLO\"; PRINT(BUF,-5,%40); TERMINATE END.\n!SESSION A\n!EOJ\n";

pub(crate) const HELLO_REPORT: &[u8] = b"SESSION 1 A BYTES 6\nHELLO\nEND 1 TERMINATED\n";

/// What is left of a call: its status, the calls of its source, the bytes that it wrote, and the monitor.
#[derive(Drop)]
pub(crate) struct Left {
    pub(crate) status: u8,
    pub(crate) reads: u32,
    pub(crate) bytes: Vec<u8>,
    pub(crate) monitor: Option<Monitor>,
}

/// Runs a job whose source fails at the calls with these numbers, over a sink that takes so many bytes.
pub(crate) fn run(alloc: Global, job: &[u8], fails: &[u32], left: usize) -> Result<Left, Fail> {
    let mut input = MemorySource {
        bytes: Vec::from_slice(alloc, job)?,
        at: 0,
        fails: Vec::from_slice(alloc, fails)?,
        calls: 0,
        faults: 0,
    };
    let mut output = MemorySink::make(alloc, left, Vec::new(alloc))?;
    let words = vec![in alloc; String::from_str(alloc, "run")?]?;
    let mut made: Vec<Program> = Vec::new(alloc);
    let mut ran = None;
    let exit = hp3000_main(alloc, &words, &mut input, &mut output, &mut made, &mut ran);
    let monitor = match ran {
        Some(Ran::Plain(monitor)) => Some(monitor),
        None => None,
    };
    Ok(Left {
        status: exit.status(),
        reads: input.calls,
        bytes: output.bytes,
        monitor,
    })
}
