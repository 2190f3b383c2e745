//! The top call over sources and sinks in memory.
use hp_outside::{MemorySink, MemorySource, SteadySink, SteadySource};
use hp_program::Program;
use hp3000_top::{Exit, hp3000_main};
use std::alloc::Global;
use std::test::Fail;

/// The first job: a sum, and a QUIT with it.
const FIRST: &[u8] =
    b"!JOB\n!QUANTUM 1\n!PROGRAM A\n!UNIT\nBEGIN INTEGER I; INTRINSIC QUIT; I:=2; I:=I+3; QUIT(I) END.\n!SESSION A\n!EOJ\n";

const FIRST_REPORT: &[u8] = b"SESSION 1 A BYTES 0\nEND 1 QUIT 5\n";

/// A job to be prepared.
const PREPARED: &[u8] =
    b"!JOB\n!PROGRAM A\n!UNIT\nBEGIN INTEGER I; INTRINSIC TERMINATE; TERMINATE END.\n!EOJ\n";

/// A source in memory that fails at the calls with these numbers.
fn source(alloc: Global, bytes: &[u8], fails: &[u32]) -> Result<MemorySource, Fail> {
    Ok(MemorySource {
        bytes: Vec::from_slice(alloc, bytes)?,
        at: 0,
        fails: Vec::from_slice(alloc, fails)?,
        calls: 0,
        faults: 0,
    })
}

/// A sink in memory that takes so many bytes, and fails at the calls with these numbers.
fn sink(alloc: Global, room: usize, fails: &[u32]) -> Result<MemorySink, Fail> {
    Ok(MemorySink::make(alloc, room, Vec::from_slice(alloc, fails)?)?)
}

/// The words of a call.
fn list_of(alloc: Global, words: &[&str]) -> Result<Vec<String>, Fail> {
    let mut list = Vec::new(alloc);
    for word in words {
        list.push(String::from_str(alloc, word)?)?;
    }
    Ok(list)
}

/// The status of a call, and how many programs it makes.
fn call(
    alloc: Global,
    words: &Vec<String>,
    input: &mut MemorySource,
    output: &mut MemorySink,
) -> (u8, usize) {
    let mut made: Vec<Program> = Vec::new(alloc);
    let mut ran = None;
    let exit = hp3000_main(alloc, words, input, output, &mut made, &mut ran);
    (exit.status(), made.len())
}

/// Words that are no verb.
static NO_VERBS: [&[&str]; 11] = [
    &["run", "x"],
    &["RUN"],
    &["gen"],
    &["gen", "70000"],
    &["gen", "65536"],
    &["gen", "000007"],
    &["gen", ""],
    &["gen", "7", "7"],
    &["list", "prep"],
    &[""],
    &[],
];

/// Whether a call has status 2, and calls neither its source nor its sink.
fn is_no_verb(alloc: Global, words: &[&str]) -> Result<bool, Fail> {
    let list = list_of(alloc, words)?;
    let mut input = source(alloc, FIRST, &[])?;
    let mut output = sink(alloc, 4096, &[])?;
    let (status, made) = call(alloc, &list, &mut input, &mut output);
    Ok(status == 2 && made == 0 && input.calls == 0 && output.calls == 0)
}

#[test]
fn words_that_are_no_verb_read_and_write_nothing(rt: HostRuntime) -> Result<(), Fail> {
    for words in &NO_VERBS {
        assert!(rt; is_no_verb(rt.alloc(), words)?, "{words:?}");
    }
    Ok(())
}

/// A call over a source of the first job, and what comes of it.
struct Case {
    words: &'static [&'static str],
    /// The calls of the source that fail, and those of the sink.
    source_fails: &'static [u32],
    sink_fails: &'static [u32],
    /// How many bytes the sink takes.
    room: usize,
    status: u8,
    /// How many programs are made.
    made: usize,
    is_sink_called: bool,
    /// How many bytes are written, and what they begin with.
    written: usize,
    first: &'static [u8],
}

static CALLS: [Case; 4] = [
    Case {
        words: &["run"],
        source_fails: &[],
        sink_fails: &[],
        room: 4096,
        status: 0,
        made: 1,
        is_sink_called: true,
        written: FIRST_REPORT.len(),
        first: FIRST_REPORT,
    },
    Case {
        words: &["run"],
        source_fails: &[],
        sink_fails: &[0],
        room: 4096,
        status: 4,
        made: 0,
        is_sink_called: true,
        written: 0,
        first: b"",
    },
    // the last byte that is taken is a blank
    Case {
        words: &["run"],
        source_fails: &[],
        sink_fails: &[],
        room: 10,
        status: 4,
        made: 0,
        is_sink_called: true,
        written: 10,
        first: b"SESSION 1 ",
    },
    Case {
        words: &["run"],
        source_fails: &[0],
        sink_fails: &[],
        room: 4096,
        status: 3,
        made: 0,
        is_sink_called: false,
        written: 0,
        first: b"",
    },
];

/// Nothing is read where a job is generated: the number, how many bytes are written, and what they begin with.
static GENERATED: [(&str, usize, &[u8]); 4] = [
    ("7", 736, b"GEN 7 BYTES 55322\nSESSION 1 G1 BYTES 5\n1679\n"),
    (
        "00007",
        736,
        b"GEN 7 BYTES 55322\nSESSION 1 G1 BYTES 5\n1679\n",
    ),
    ("0", 738, b"GEN 0 BYTES 55317\n"),
    ("65535", 732, b"GEN 65535 BYTES 55327\n"),
];

/// Whether a call comes to what its case says.
fn is_answered(alloc: Global, case: &Case) -> Result<bool, Fail> {
    let list = list_of(alloc, case.words)?;
    let mut input = source(alloc, FIRST, case.source_fails)?;
    let mut output = sink(alloc, case.room, case.sink_fails)?;
    let (status, made) = call(alloc, &list, &mut input, &mut output);
    Ok(
        status == case.status
            && made == case.made
            && (output.calls > 0) == case.is_sink_called
            && output.bytes.len() == case.written
            && output.bytes.starts_with(case.first),
    )
}

/// Whether a generated job of eight programs is summed up so, without a call of the source.
fn is_summed_up(alloc: Global, number: &str, written: usize, first: &[u8]) -> Result<bool, Fail> {
    let list = list_of(alloc, &["gen", number])?;
    let mut input = source(alloc, FIRST, &[0])?;
    let mut output = sink(alloc, 4096, &[])?;
    let (status, made) = call(alloc, &list, &mut input, &mut output);
    Ok(
        status == 0
            && made == 8
            && input.calls == 0
            && output.bytes.len() == written
            && output.bytes.starts_with(first),
    )
}

#[test]
fn calls_are_answered(rt: HostRuntime) -> Result<(), Fail> {
    for (number, case) in CALLS.iter().enumerate() {
        assert!(rt; is_answered(rt.alloc(), case)?, "call {number}");
    }
    Ok(())
}

#[test]
fn generated_jobs_are_summed_up(rt: HostRuntime) -> Result<(), Fail> {
    for (number, written, first) in &GENERATED {
        assert!(rt;
            is_summed_up(rt.alloc(), number, *written, first)?,
            "{number}"
        );
    }
    Ok(())
}

#[test]
fn an_input_may_have_so_many_bytes(rt: HostRuntime) -> Result<(), Fail> {
    let alloc = rt.alloc();
    let list = list_of(alloc, &["run"])?;
    let long = vec![in alloc; b' '; 1_048_577]?;
    let mut input = source(alloc, &long, &[])?;
    let mut output = sink(alloc, 4096, &[])?;
    assert_eq!(rt; call(alloc, &list, &mut input, &mut output), (6, 0));
    assert_eq!(rt; output.calls, 0);
    Ok(())
}

#[test]
fn a_program_is_prepared_and_listed(rt: HostRuntime) -> Result<(), Fail> {
    let alloc = rt.alloc();
    let list = list_of(alloc, &["prep"])?;
    let mut input = source(alloc, PREPARED, &[])?;
    let mut file = sink(alloc, 4096, &[])?;
    assert_eq!(rt; call(alloc, &list, &mut input, &mut file), (0, 1));
    let list = list_of(alloc, &["list"])?;
    let mut input = source(alloc, &file.bytes, &[])?;
    let mut output = sink(alloc, 4096, &[])?;
    assert_eq!(rt; call(alloc, &list, &mut input, &mut output), (0, 0));
    assert!(rt;
        output
            .bytes
            .starts_with(b"PROGRAM VERSION 1 SEGMENTS 1 MAIN 0 ENTRY 1 DATA 1\n")
    );
    Ok(())
}

#[test]
fn a_job_runs_over_what_never_fails(rt: HostRuntime) -> Result<(), Fail> {
    let alloc = rt.alloc();
    let words = list_of(alloc, &["run"])?;
    let mut input = SteadySource {
        bytes: Vec::from_slice(alloc, FIRST)?,
        at: 0,
    };
    let mut output = SteadySink { taken: 0 };
    let mut made: Vec<Program> = Vec::new(alloc);
    let mut ran = None;
    let exit = hp3000_main(alloc, &words, &mut input, &mut output, &mut made, &mut ran);
    assert!(rt; exit == Exit::Done && output.taken == FIRST_REPORT.len() as u64);
    Ok(())
}
