//! Job texts worked by hand, each rule at its edges.

use hp_session::Line;
use job_text::{Job, JobFault, Text, read_job};
use mpe_session::Seat;
use std::alloc::{AllocError, Global};
use std::process::Abort;
use std::test::Fail;

/// Texts of jobs to be run, with the line and the rule that each breaks first: 0 and 0 of a job.
static RUN: [(&str, u32, u8); 75] = [
    // Rule 1: line 1 is `!JOB`.
    ("", 1, 1),
    ("\n!JOB\n", 1, 1),
    (" !JOB\n", 1, 1),
    ("!JOB X\n", 1, 1),
    ("!JOBS\n", 1, 1),
    ("!MEMORY 0\n", 1, 1),
    ("!job \t\r\n!program a\n!unit\nX\n!session a\n!eoj", 0, 0),
    // Rule 2: a command that is none, wrong words, or an option twice.
    ("!JOB\n!RUN\n", 2, 2),
    ("!JOB\n! MEMORY 1\n", 2, 2),
    ("!JOB\n!MEMORY\n", 2, 2),
    ("!JOB\n!MEMORY 1 2\n", 2, 2),
    ("!JOB\n!MEMORY 12345678901\n", 2, 2),
    ("!JOB\n!MEMORY +1\n", 2, 2),
    ("!JOB\n!STATS X\n", 2, 2),
    ("!JOB\n!PROGRAM\n", 2, 2),
    ("!JOB\n!PROGRAM A B\n", 2, 2),
    ("!JOB\n!JOB X\n", 2, 2),
    ("!JOB\n!!X\n", 2, 2),
    ("!JOB\n!PROGRAM A\n!RUN\n", 3, 2),
    ("!JOB\n!PROGRAM A\n!UNIT\n!!X\n", 4, 2),
    ("!JOB\n!PROGRAM A\n!UNIT\n!SESSION\n", 4, 2),
    (
        "!JOB\n!PROGRAM A\n!UNIT\n!SESSION A STACK=64 STACK=64\n",
        4,
        2,
    ),
    ("!JOB\n!PROGRAM A\n!UNIT\n!SESSION A STACK = 64\n", 4, 2),
    ("!JOB\n!PROGRAM A\n!UNIT\n!SESSION A STACK=\n", 4, 2),
    ("!JOB\n!PROGRAM A\n!UNIT\n!SESSION A ROOM=1\n", 4, 2),
    ("!JOB\n!PROGRAM A\n!UNIT\n!SESSION A\n!EOJ\r", 5, 2),
    // Rule 3: a number out of its limits.
    ("!JOB\n!MEMORY 0\n", 2, 3),
    ("!JOB\n!MEMORY 1048577\n", 2, 3),
    ("!JOB\n!QUANTUM 10001\n", 2, 3),
    ("!JOB\n!TURNS 1000001\n", 2, 3),
    ("!JOB\n!TURNS 9999999999\n", 2, 3),
    ("!JOB\n!PROGRAM A\n!UNIT\n!MEMORY 0\n", 4, 3),
    ("!JOB\n!PROGRAM A\n!UNIT\n!SESSION A STACK=63\n", 4, 3),
    ("!JOB\n!PROGRAM A\n!UNIT\n!SESSION A STACK=32001\n", 4, 3),
    ("!JOB\n!PROGRAM A\n!UNIT\n!SESSION A EXTRA=32001\n", 4, 3),
    ("!JOB\n!PROGRAM A\n!UNIT\n!SESSION A PRINT=0\n", 4, 3),
    ("!JOB\n!PROGRAM A\n!UNIT\n!SESSION A PRINT=1048577\n", 4, 3),
    ("!JOB\n!PROGRAM A\n!UNIT\n!SESSION B STACK=63\n", 4, 3),
    (
        "!JOB\n!MEMORY 1048576\n!QUANTUM 1\n!TURNS 1000000\n!PROGRAM A\n!UNIT\n!SESSION A STACK=64 EXTRA=0 PRINT=1\n!SESSION A PRINT=1048576 EXTRA=32000 STACK=32000\n!EOJ\n",
        0,
        0,
    ),
    // Rule 4: a setting twice or behind a program, `!JOB` twice.
    ("!JOB\n!MEMORY 1\n!MEMORY 1\n", 3, 4),
    ("!JOB\n!STATS\n!STATS\n", 3, 4),
    ("!JOB\n!JOB\n", 2, 4),
    ("!JOB\n!PROGRAM A\n!STATS\n", 3, 4),
    ("!JOB\n!PROGRAM A\n!UNIT\n!TURNS 1\n", 4, 4),
    // Rule 5: a name that is ill-formed or taken.
    ("!JOB\n!PROGRAM 1A\n", 2, 5),
    ("!JOB\n!PROGRAM A23456789\n", 2, 5),
    ("!JOB\n!PROGRAM A'B\n", 2, 5),
    ("!JOB\n!PROGRAM STACK=5\n", 2, 5),
    ("!JOB\n!PROGRAM A\n!UNIT\n!PROGRAM a\n", 4, 5),
    // Rule 7: a unit without a program, a program without a unit.
    ("!JOB\n!UNIT\n", 2, 7),
    ("!JOB\n!PROGRAM A\n!PROGRAM B\n", 3, 7),
    ("!JOB\n!PROGRAM A\n!SESSION A\n", 3, 7),
    ("!JOB\n!PROGRAM A\n!EOJ\n", 3, 7),
    // Rule 8: a session of no program of the job.
    ("!JOB\n!SESSION A\n", 2, 8),
    ("!JOB\n!PROGRAM A\n!UNIT\n!SESSION 1A\n", 4, 8),
    ("!JOB\n!PROGRAM A\n!UNIT\n!SESSION AA\n", 4, 8),
    // Rule 10: programs and units behind a session, text outside.
    ("!JOB\n!PROGRAM A\n!UNIT\n!SESSION A\n!UNIT\n", 5, 10),
    ("!JOB\n!PROGRAM A\n!UNIT\n!SESSION A\n!PROGRAM B\n", 5, 10),
    ("!JOB\nX\n!RUN\n", 2, 10),
    ("!JOB\n!PROGRAM A\n !UNIT\n", 3, 10),
    (
        "!JOB\n \t\n\n!PROGRAM A\n\n!UNIT\n!SESSION A\n\n!EOJ\n",
        0,
        0,
    ),
    // Rule 11: no session to run; to prepare not one program, or a session.
    ("!JOB\n!PROGRAM A\n!UNIT\n!EOJ\n", 4, 11),
    ("!JOB\n!EOJ\n", 2, 11),
    // Rule 12: turns times quantum, set or not.
    (
        "!JOB\n!QUANTUM 501\n!PROGRAM A\n!UNIT\n!SESSION A\n!EOJ\n",
        6,
        12,
    ),
    (
        "!JOB\n!QUANTUM 500\n!PROGRAM A\n!UNIT\n!SESSION A\n!EOJ\n",
        0,
        0,
    ),
    (
        "!JOB\n!QUANTUM 10000\n!TURNS 5001\n!PROGRAM A\n!UNIT\n!SESSION A\n!EOJ\n",
        7,
        12,
    ),
    (
        "!JOB\n!QUANTUM 10000\n!TURNS 5000\n!PROGRAM A\n!UNIT\n!SESSION A\n!EOJ\n",
        0,
        0,
    ),
    ("!JOB\n!QUANTUM 501\n!PROGRAM A\n!UNIT\n!EOJ\n", 5, 11),
    // Rule 13: no end, or something behind it.
    ("!JOB\n", 2, 13),
    ("!JOB", 2, 13),
    ("!JOB\n!PROGRAM A\n", 3, 13),
    ("!JOB\n!PROGRAM A\n!UNIT\n!SESSION A\n!EOJ\nX\n", 6, 13),
    ("!JOB\n!PROGRAM A\n!UNIT\n!SESSION A\n!EOJ\n!JOB\n", 6, 13),
    ("!JOB\n!PROGRAM A\n!UNIT\n!SESSION A\n!EOJ\n \t\n\n", 0, 0),
    ("!JOB\n!PROGRAM A\n!UNIT\n!SESSION A\n!EOJ\n\r", 6, 13),
];

/// The same of jobs to be prepared.
static PREP: [(&str, u32, u8); 4] = [
    ("!JOB\n!EOJ\n", 2, 11),
    ("!JOB\n!PROGRAM A\n!UNIT\n!SESSION A\n!EOJ\n", 5, 11),
    ("!JOB\n!PROGRAM A\n!UNIT\n!PROGRAM B\n!UNIT\n!EOJ\n", 6, 11),
    ("!JOB\n!PROGRAM A\n!UNIT\n!EOJ\n", 0, 0),
];

/// The line and the rule that a text breaks first, or 0 and 0 of a job. Of any type, since what is known of a job's type would be
/// written out here.
fn broken<T: Drop>(read: Result<T, JobFault>) -> Result<(u32, u8), AllocError> {
    match read {
        Ok(_) => Ok((0, 0)),
        Err(JobFault::Rule { line, rule }) => Ok((line, rule)),
        Err(JobFault::NoMemory) => Err(AllocError),
    }
}

/// What comes of a text.
fn outcome(alloc: Global, text: &[u8], prep: bool) -> Result<(u32, u8), AllocError> {
    if text.len() > 1_048_576 {
        return Ok((0, 0));
    }
    broken(read_job(alloc, text, prep))
}

fn all_are_so(
    rt: &impl Abort,
    alloc: Global,
    rows: &[(&str, u32, u8)],
    prep: bool,
) -> Result<(), Fail> {
    for (text, line, rule) in rows {
        let found = outcome(alloc, text.as_bytes(), prep)?;
        assert_eq!(rt; found, (*line, *rule), "{text:?}");
    }
    Ok(())
}

#[test]
fn each_rule_at_its_edges(rt: HostRuntime) -> Result<(), Fail> {
    all_are_so(&rt, rt.alloc(), &RUN, false)?;
    all_are_so(&rt, rt.alloc(), &PREP, true)
}

/// A text so many times over.
fn times(text: &mut Vec<u8>, count: u32, piece: &[u8]) -> Result<(), AllocError> {
    for _ in 0..count {
        text.extend_from_slice(piece)?;
    }
    Ok(())
}

/// The begin of a job: so many programs with so many units each.
fn add_programs(text: &mut Vec<u8>, programs: u8, units: u32) -> Result<(), AllocError> {
    text.extend_from_slice(b"!JOB\n")?;
    for name in b"ABCDEFGHIJKLMNOPQ".iter().take(programs as usize) {
        text.extend_from_slice(b"!PROGRAM ")?;
        text.push(*name)?;
        text.push(b'\n')?;
        times(text, units, b"!UNIT\n")?;
    }
    Ok(())
}

/// How many programs, units of each and sessions a job has, and the line and the rule that it breaks first.
type Counts = (u8, u32, u32, u32, u8);

static COUNTS: [Counts; 6] = [
    (16, 1, 16, 0, 0),
    (17, 1, 1, 34, 6),
    (1, 32, 1, 0, 0),
    (1, 33, 1, 35, 6),
    (2, 32, 16, 0, 0),
    (1, 1, 17, 20, 9),
];

fn add_job(text: &mut Vec<u8>, counts: &Counts) -> Result<(), AllocError> {
    add_programs(text, counts.0, counts.1)?;
    times(text, counts.2, b"!SESSION A\n")?;
    text.extend_from_slice(b"!EOJ\n")?;
    Ok(())
}

/// What comes of a job of so many parts.
fn outcome_of(alloc: Global, counts: &Counts) -> Result<(u32, u8), AllocError> {
    let mut text = Vec::new(alloc);
    match add_job(&mut text, counts) {
        Ok(()) => outcome(alloc, &text, false),
        Err(error) => Err(error),
    }
}

fn add_programs_of_one_name(text: &mut Vec<u8>) -> Result<(), AllocError> {
    add_programs(text, 16, 1)?;
    text.extend_from_slice(b"!PROGRAM A\n")?;
    Ok(())
}

/// What comes of sixteen programs and one more of the first one's name, which counts before their number.
fn outcome_of_one_name(alloc: Global) -> Result<(u32, u8), AllocError> {
    let mut text = Vec::new(alloc);
    match add_programs_of_one_name(&mut text) {
        Ok(()) => outcome(alloc, &text, false),
        Err(error) => Err(error),
    }
}

#[test]
fn programs_units_and_sessions_have_their_number(rt: HostRuntime) -> Result<(), Fail> {
    for counts in &COUNTS {
        let wanted = (counts.3, counts.4);
        assert_eq!(rt; outcome_of(rt.alloc(), counts)?, wanted, "{counts:?}");
    }
    assert!(rt; outcome_of_one_name(rt.alloc())? == (34, 5));
    Ok(())
}

static JOB: &[u8] =
    b"!JOB\n!memory 40000\r\n!STATS\n\n!PROGRAM main\n!UNIT\nBEGIN\r\n\n \tEND.\n!UNIT\n!PROGRAM B2\n!UNIT\nX\r\r\n\
!SESSION b2 STACK=100\nONE\r\n!!TWO\n\n!! \n!SESSION MAIN print=5 Extra=7\n!EOJ\n \t\n";

fn has_lines(lines: &[Line], wanted: &[&[u8]]) -> bool {
    for (line, bytes) in lines.iter().zip(wanted) {
        if line.bytes.as_slice() != *bytes {
            return false;
        }
    }
    lines.len() == wanted.len()
}

fn is_seat(seat: &Seat, wanted: (u8, u16, u16, u32), lines: &[&[u8]]) -> bool {
    (seat.program, seat.stack, seat.extra, seat.room) == wanted && has_lines(&seat.lines, lines)
}

fn is_text(text: &Text, name: &[u8], units: &[&[u8]]) -> bool {
    for (unit, bytes) in text.units.iter().zip(units) {
        if unit.bytes.as_slice() != *bytes {
            return false;
        }
    }
    text.name.text.as_slice() == name && text.units.len() == units.len()
}

fn are_texts(texts: &[Text]) -> bool {
    match texts {
        [main, other] => {
            is_text(main, b"MAIN", &[b"BEGIN\n\n \tEND.\n", b""])
                && is_text(other, b"B2", &[b"X\r\n"])
        }
        _ => false,
    }
}

fn are_seats(seats: &[Seat]) -> bool {
    match seats {
        [first, second] => {
            is_seat(first, (1, 100, 0, 16_384), &[b"ONE", b"!TWO", b"", b"! "])
                && is_seat(second, (0, 1_024, 7, 5), &[])
        }
        _ => false,
    }
}

fn has_parts(job: &Job) -> bool {
    (job.memory, job.quantum, job.turns) == (40_000, 100, 100_000)
        && job.stats
        && are_texts(&job.programs)
        && are_seats(&job.seats)
}

#[test]
fn a_job_has_its_parts(rt: HostRuntime) -> Result<(), Fail> {
    let has_parts = match read_job(rt.alloc(), JOB, false) {
        Ok(job) => has_parts(&job),
        Err(_) => false,
    };
    assert!(rt; has_parts);
    Ok(())
}
