//! Why an input is refused, and the line that tells it.
ghost use Rattle.std.specs.Prelude.{◌≡◌, ◌++◌, IfOk, OnOk};
ghost use Rattle.job_report.specs.Refusals.{unit_word, unit_number, modules_word, modules_name, file_word, job_refused, unit_refused, modules_refused, stack_refused, memory_refused, file_refused, refused};

use crate::lines::push_line;
use crate::numbers::{Digits, number};
use arrayvec::ArrayVec;
use spl_tree::{At, FaultKind, Name};
use std::alloc::{AllocError as NoMemory, Global};

/// What is wrong at a place of a unit's text.
#[derive(Clone, Copy, Debug, PartialEq, Eq)]
pub enum UnitRefusal {
    /// A fault of the text.
    Text(FaultKind),
    /// A rule of the language, by its number.
    Rule(u8),
    /// A limit of the compiler, by its number.
    Limit(u8),
}

/// Why a program's modules make no program.
#[derive(Debug, PartialEq, Eq, Drop)]
pub enum ModulesRefusal {
    NoMain,
    TwoMains,
    /// A name that is defined twice.
    Doubled(Name),
    /// A name that is wanted and defined nowhere.
    Unresolved(Name),
    SegmentsFull,
    /// The segment with too many entries.
    EntriesFull(Name),
    /// The segment with too many words.
    SegmentFull(Name),
}

/// What is wrong at a byte of a program file.
#[derive(Clone, Copy, Debug, PartialEq, Eq)]
pub enum FileRefusal {
    Truncated,
    Head,
    Segment,
    Trailing,
    Label,
}

/// Why an input is refused.
#[derive(Debug, PartialEq, Eq, Drop)]
pub enum Refusal {
    /// A line of the job, counted from 1, breaks a rule of job texts.
    Job {
        line: u32,
        rule: u8,
    },
    /// The text of a unit of a program.
    Unit {
        program: Name,
        at: At,
        fault: UnitRefusal,
    },
    /// The modules of a program.
    Modules {
        program: Name,
        fault: ModulesRefusal,
    },
    /// The stack of a session, counted from 0, is too small. Both sizes are in words.
    Stack {
        session: u8,
        need: u32,
        given: u16,
    },
    /// The memory is too small. Both sizes are in words.
    Memory {
        need: u32,
        given: u32,
    },
    /// A program file, at a byte counted from 0.
    File {
        fault: FileRefusal,
        byte: u32,
    },
}

fn unit_word(fault: &UnitRefusal) -> &[u8]
    ensures { result.now ≡ unit_word fault.now }
{
    match fault {
        UnitRefusal::Text(kind) => kind.name().as_bytes(),
        UnitRefusal::Rule(_) => b"RULE ",
        UnitRefusal::Limit(_) => b"LIMIT ",
    }
}

/// The number of a rule or a limit; nothing of what has none.
fn unit_number(fault: &UnitRefusal) -> Digits
    ensures { result.items ≡ unit_number fault.now }
{
    match fault {
        UnitRefusal::Rule(r) => number(*r as u64),
        UnitRefusal::Limit(k) => number(*k as u64),
        _ => ArrayVec::new(),
    }
}

fn modules_word(fault: &ModulesRefusal) -> &[u8]
    ensures { result.now ≡ modules_word fault.now }
{
    match fault {
        ModulesRefusal::NoMain => b"NOMAIN",
        ModulesRefusal::TwoMains => b"TWOMAINS",
        ModulesRefusal::Doubled(_) => b"DOUBLED ",
        ModulesRefusal::Unresolved(_) => b"UNRESOLVED ",
        ModulesRefusal::SegmentsFull => b"SEGMENTSFULL",
        ModulesRefusal::EntriesFull(_) => b"ENTRIESFULL ",
        ModulesRefusal::SegmentFull(_) => b"SEGMENTFULL ",
    }
}

/// The name that is told; nothing of what has none.
fn modules_name(fault: &ModulesRefusal) -> &[u8]
    ensures { result.now ≡ modules_name fault.now }
{
    match fault {
        ModulesRefusal::Doubled(name) => name.text.as_slice(),
        ModulesRefusal::Unresolved(name) => name.text.as_slice(),
        ModulesRefusal::EntriesFull(segment) => segment.text.as_slice(),
        ModulesRefusal::SegmentFull(segment) => segment.text.as_slice(),
        _ => b"",
    }
}

fn file_word(fault: FileRefusal) -> &'static str
    ensures { result.now ≡ file_word fault }
{
    match fault {
        FileRefusal::Truncated => "TRUNCATED",
        FileRefusal::Head => "HEAD",
        FileRefusal::Segment => "SEGMENT",
        FileRefusal::Trailing => "TRAILING",
        FileRefusal::Label => "LABEL",
    }
}

fn push_unit<'a>(
    text: &mut Vec<u8>,
    program: &'a [u8],
    at: At,
    fault: &'a UnitRefusal,
) -> Result<(), NoMemory>
    ensures { OnOk result (text.new.items ≡ text.old.items ++ unit_refused program.now at fault.now) }
{
    let unit = number(at.unit as u64);
    let line = number(at.line as u64);
    let column = number(at.column as u64);
    let what = unit_word(fault);
    let which = unit_number(fault);
    push_line(
        text,
        &[
            b"REFUSED PROGRAM ",
            program,
            b" UNIT ",
            &unit,
            b" LINE ",
            &line,
            b" COLUMN ",
            &column,
            b" ",
            what,
            &which,
        ],
    )
}

fn push_modules<'a>(
    text: &mut Vec<u8>,
    program: &'a [u8],
    fault: &'a ModulesRefusal,
) -> Result<(), NoMemory>
    ensures { OnOk result (text.new.items ≡ text.old.items ++ modules_refused program.now fault.now) }
{
    let what = modules_word(fault);
    let name = modules_name(fault);
    push_line(
        text,
        &[b"REFUSED PROGRAM ", program, b" SEGMENTER ", what, name],
    )
}

fn push_stack(text: &mut Vec<u8>, session: u8, need: u32, given: u16) -> Result<(), NoMemory>
    ensures { OnOk result (text.new.items ≡ text.old.items ++ stack_refused session need given) }
{
    let session = number(session as u64 + 1);
    let need = number(need as u64);
    let given = number(given as u64);
    push_line(
        text,
        &[
            b"REFUSED STACK SESSION ",
            &session,
            b" NEED ",
            &need,
            b" GIVEN ",
            &given,
        ],
    )
}

fn push_memory(text: &mut Vec<u8>, need: u32, given: u32) -> Result<(), NoMemory>
    ensures { OnOk result (text.new.items ≡ text.old.items ++ memory_refused need given) }
{
    let need = number(need as u64);
    let given = number(given as u64);
    push_line(text, &[b"REFUSED MEMORY NEED ", &need, b" GIVEN ", &given])
}

fn push_file(text: &mut Vec<u8>, fault: FileRefusal, byte: u32) -> Result<(), NoMemory>
    ensures { OnOk result (text.new.items ≡ text.old.items ++ file_refused fault byte) }
{
    let what = file_word(fault).as_bytes();
    let byte = number(byte as u64);
    push_line(text, &[b"REFUSED FILE ", what, b" ", &byte])
}

fn push_job(text: &mut Vec<u8>, line: u32, rule: u8) -> Result<(), NoMemory>
    ensures { OnOk result (text.new.items ≡ text.old.items ++ job_refused line rule) }
{
    let line = number(line as u64);
    let rule = number(rule as u64);
    push_line(text, &[b"REFUSED JOB LINE ", &line, b" RULE ", &rule])
}

/// The line that tells a refusal. Only memory may be wanting.
pub fn refusal_line(alloc: Global, refusal: &Refusal) -> Result<Vec<u8>, NoMemory>
    ensures { IfOk result (λ text. text.items ≡ refused refusal.now) }
{
    let mut text = Vec::new(alloc);
    match refusal {
        Refusal::Job { line, rule } => push_job(&mut text, *line, *rule)?,
        Refusal::Unit { program, at, fault } => {
            push_unit(&mut text, &program.text, *at, fault)?;
        }
        Refusal::Modules { program, fault } => push_modules(&mut text, &program.text, fault)?,
        Refusal::Stack {
            session,
            need,
            given,
        } => push_stack(&mut text, *session, *need, *given)?,
        Refusal::Memory { need, given } => push_memory(&mut text, *need, *given)?,
        Refusal::File { fault, byte } => push_file(&mut text, *fault, *byte)?,
    }
    Ok(text)
}
