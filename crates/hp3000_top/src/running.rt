//! A job run: its sessions open and take their turns.
ghost use Rattle.std.specs.Prelude.{◌≡◌, length, map, IfOk};
ghost use Rattle.job_gen.specs.job_text.Fits.{JobFits};
ghost use Rattle.job_gen.specs.job_text.Views.{job_value, text_value};
ghost use Rattle.job_report.specs.Refusals.{stack_refused, memory_refused};
ghost use Rattle.job_runs.specs.Reported.{names_of};
ghost use Rattle.job_runs.specs.mpe_turns.Monitors.{world_of};
ghost use Rattle.hp3000_top.specs.Causes.{account_with};
ghost use Rattle.hp3000_top.specs.Programs.{AreMade};
ghost use Rattle.hp3000_top.specs.Steps.{AreCopies, Answers, IsUnopened};

use crate::answer::Answer;
use crate::verbs::Verb;
use hp_program::Program;
use job_gen::{Job, Text};
use job_report::{Refusal, refusal_line};
use job_runs::{Monitor, OpenFault, report_on, summary_on, take_turns};
use std::alloc::{AllocError, Global};

/// Programs equal to these.
fn copies(alloc: Global, programs: &[Program]) -> Result<Vec<Program>, AllocError>
    ensures { IfOk result (λ qs. AreCopies programs.now qs.items) }
{
    let mut copies = Vec::with_capacity(alloc, programs.len())?;
    for program in programs {
        let copy = program.copy(alloc)?;
        copies.push(copy)?;
    }
    Ok(copies)
}

/// What is told of a job's sessions: the summary of a generated job, whose text has so many bytes; else the report.
fn account(
    alloc: Global,
    verb: Verb,
    bytes: usize,
    programs: &[Text],
    stats: bool,
    monitor: &Monitor,
) -> Result<Vec<u8>, AllocError>
    requires { length monitor.now.overlay.programs.items ≡ length programs.now }
    ensures { IfOk result (λ text. text.items ≡ account_with verb bytes (names_of (map text_value programs.now)) stats (world_of monitor.now)) }
{
    match verb {
        Verb::Gen(number) => summary_on(alloc, number, bytes, programs, monitor),
        Verb::Run | Verb::Prep | Verb::List => report_on(alloc, programs, stats, monitor),
    }
}

/// The line for a stack that is too small.
fn stack_line(alloc: Global, session: u8, need: u32, given: u16) -> Result<Vec<u8>, AllocError>
    ensures { IfOk result (λ line. line.items ≡ stack_refused session need given) }
{
    refusal_line(
        alloc,
        &Refusal::Stack {
            session,
            need,
            given,
        },
    )
}

/// The line for a memory that is too small.
fn memory_line(alloc: Global, need: u32, given: u32) -> Result<Vec<u8>, AllocError>
    ensures { IfOk result (λ line. line.items ≡ memory_refused need given) }
{
    refusal_line(alloc, &Refusal::Memory { need, given })
}

/// What is answered where the sessions of these programs don't open.
fn unopened(alloc: Global, made: Vec<Program>, fault: OpenFault) -> Result<Answer, AllocError>
    ensures { IfOk result (λ a. IsUnopened fault made.items a) }
{
    match fault {
        OpenFault::StackTooSmall {
            session,
            need,
            given,
        } => {
            let line = stack_line(alloc, session, need, given)?;
            Ok(Answer::Refusal { line })
        }
        OpenFault::MemoryTooSmall { need, given } => {
            let line = memory_line(alloc, need, given)?;
            Ok(Answer::Crowded { made, line })
        }
        OpenFault::NoMemory => Err(AllocError),
    }
}

/// Runs a job, whose text has so many bytes and whose programs are made.
pub fn run(
    alloc: Global,
    verb: Verb,
    bytes: usize,
    job: Job,
    made: Vec<Program>,
) -> Result<Answer, AllocError>
    requires fits { JobFits 1048576 (job_value job) }
    requires made { AreMade (job_value job).programs made.items }
    ensures { IfOk result (λ a. Answers verb bytes (job_value job) job.seats.items made.items a) }
{
    let copies = copies(alloc, &made)?;
    match Monitor::open(alloc, job.memory, job.seats, copies) {
        Ok(mut monitor) => {
            take_turns(&mut monitor, job.quantum, job.turns);
            let text = account(alloc, verb, bytes, &job.programs, job.stats, &monitor)?;
            Ok(Answer::Report {
                made,
                monitor,
                text,
            })
        }
        Err(fault) => unopened(alloc, made, fault),
    }
}
