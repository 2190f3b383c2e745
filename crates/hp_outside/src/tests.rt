//! Runs of each source and sink: whole inputs and outputs, limits met and passed by one, and faults in mid-stream.
ghost use Rattle.std.specs.Prelude.{None};

use crate::{
    Failed, MemorySink, MemorySource, ReadAll, Sink, Source, StdSink, StdSource, SteadySink,
    SteadySource, read_all, write_all,
};
use std::io::{self, ErrorKind, Read, Write};
use std::test::Fail;

/// A reader and writer of which every call is interrupted.
#[derive(Drop)]
struct Interrupted;

impl Read for Interrupted {
    fn read(&mut self, _: &mut [u8]) -> io::Result<usize> {
        Err(ErrorKind::Interrupted.into())
    }
}

/// A writer that takes nothing and reports no error.
#[derive(Drop)]
struct Stuck;

impl Write for Stuck {
    fn write(&mut self, _: &[u8]) -> io::Result<usize> {
        Ok(0)
    }

    fn flush(&mut self) -> io::Result<()> {
        Ok(())
    }
}

/// A source of zeros that gives one byte a read, and counts the reads.
#[derive(Drop)]
struct Dripping {
    left: usize,
    reads: usize,
}

impl Source for Dripping {
    ghost left = { λ _. None };

    ghost faults = { λ _. 0 };

    fn read(&mut self, room: &mut [u8]) -> Result<usize, Failed> {
        self.reads = self.reads.wrapping_add(1);
        if self.left == 0 || room.is_empty() {
            return Ok(0);
        }
        self.left -= 1;
        room[0] = 0;
        Ok(1)
    }
}

#[test]
fn reads_up_to_the_limit_and_fails_at_the_listed_calls(rt: HostRuntime) -> Result<(), Fail> {
    let alloc = rt.alloc();
    // Ten thousand bytes come in three reads, and a fourth finds the end.
    let cases = [
        (0, 0, 99, 10_000, Ok(10_000)),
        (0, 0, 99, 9_999, Err(ReadAll::TooLong)),
        (9_990, 0, 99, 10, Ok(10)),
        (9_990, 0, 99, 9, Err(ReadAll::TooLong)),
        (10_000, 0, 99, 0, Ok(0)),
        (20_000, 0, 99, 0, Ok(0)),
        (0, 0, 0, 10_000, Err(ReadAll::ReadFault)),
        (0, 0, 3, 10_000, Err(ReadAll::ReadFault)),
        (0, 0, 4, 10_000, Ok(10_000)),
        (0, u32::MAX, 99, 10_000, Err(ReadAll::ReadFault)),
    ];
    for (at, calls, failing, limit, want) in cases {
        let mut source = MemorySource {
            bytes: vec![in alloc; 7; 10_000]?,
            at,
            fails: Vec::from_slice(alloc, &[failing])?,
            calls,
            faults: 0,
        };
        let got = read_all(alloc, &mut source, limit).map(|bytes| bytes.len());
        assert_eq!(rt; got, want, "at {at}, call {failing} fails, limit {limit}");
        let faults = if want == Err(ReadAll::ReadFault) {
            1
        } else {
            0
        };
        assert_eq!(rt;
            source.faults,
            faults,
            "at {at}, call {failing} fails, limit {limit}"
        );
    }
    Ok(())
}

#[test]
fn reads_at_most_two_times_more_than_bytes_may_come(rt: HostRuntime) -> Result<(), Fail> {
    let cases = [
        (5, 5, Ok(5), 6),
        (6, 5, Err(ReadAll::TooLong), 6),
        (0, 0, Ok(0), 1),
    ];
    for (left, limit, want, reads) in cases {
        let mut source = Dripping { left, reads: 0 };
        let got = read_all(rt.alloc(), &mut source, limit).map(|bytes| bytes.len());
        assert_eq!(rt; got, want, "{left} bytes, limit {limit}");
        assert_eq!(rt; source.reads, reads, "{left} bytes, limit {limit}");
    }
    Ok(())
}

#[test]
fn writes_until_the_room_or_a_call_fails(rt: HostRuntime) -> Result<(), Fail> {
    let alloc = rt.alloc();
    let text = b"SESSION 1 A BYTES 0\n";
    let cases = [
        (20, 99, Ok(()), 20),
        (21, 99, Ok(()), 20),
        (19, 99, Err(Failed), 19),
        (10, 99, Err(Failed), 10),
        (0, 99, Err(Failed), 0),
        (20, 0, Err(Failed), 0),
        (20, u32::MAX, Ok(()), 20),
    ];
    for (left, failing, want, written) in cases {
        let fails = Vec::from_slice(alloc, &[failing])?;
        let mut sink = MemorySink::make(alloc, left, fails)?;
        let got = write_all(&mut sink, text);
        assert_eq!(rt; got, want, "room {left}, call {failing} fails");
        assert_eq!(rt;
            sink.bytes.as_slice(),
            &text[..written],
            "room {left}, call {failing} fails"
        );
        let faults = if want.is_ok() { 0 } else { 1 };
        assert_eq!(rt; sink.faults, faults, "room {left}, call {failing} fails");
    }
    Ok(())
}

#[test]
fn steady_streams_never_fail(rt: HostRuntime) -> Result<(), Fail> {
    let alloc = rt.alloc();
    let mut source = SteadySource {
        bytes: Vec::from_slice(alloc, b"BEGIN END.")?,
        at: 6,
    };
    assert_eq!(rt;
        read_all(alloc, &mut source, 4)?.as_slice(),
        b"END.".as_slice()
    );
    let mut sink = SteadySink { taken: u64::MAX };
    write_all(&mut sink, b"END.")?;
    assert_eq!(rt; sink.taken, 3);
    Ok(())
}

#[test]
fn standard_streams_pass_on_and_count_each_error(rt: HostRuntime) -> Result<(), Fail> {
    let alloc = rt.alloc();
    let mut source = StdSource {
        reader: b"!JOB\n!EOJ\n".as_slice(),
        faults: 0,
    };
    assert_eq!(rt;
        read_all(alloc, &mut source, 10)?.as_slice(),
        b"!JOB\n!EOJ\n".as_slice()
    );
    let mut sink = StdSink {
        writer: Vec::new(alloc),
        faults: 0,
    };
    write_all(&mut sink, b"END 1 QUIT 5\n")?;
    assert_eq!(rt; sink.writer.as_slice(), b"END 1 QUIT 5\n".as_slice());

    let mut broken = StdSource {
        reader: Interrupted,
        faults: u64::MAX - 1,
    };
    assert_eq!(rt; broken.read(&mut [0; 4]), Err(Failed));
    assert_eq!(rt; broken.read(&mut [0; 4]), Err(Failed));
    assert_eq!(rt; broken.faults, u64::MAX);
    let mut full = StdSink {
        writer: Stuck,
        faults: 0,
    };
    assert_eq!(rt; full.write(b""), Ok(0));
    assert_eq!(rt; full.write(b"END"), Err(Failed));
    assert_eq!(rt; full.faults, 1);
    Ok(())
}
