//! What an input is answered by.
ghost use Rattle.std.specs.Prelude.{◌≡◌, ◌≤◌, length, IfOk};
ghost use Rattle.hp3000_top.specs.declared.verbs.Verb.TheVariants as verbs;
ghost use Rattle.hp3000_top.specs.Causes.{RunsJobs, file_line};
ghost use Rattle.hp3000_top.specs.Steps.{IsAnswered, IsFileOf, IsFaultOfFile, TellsJob};

use crate::answer::Answer;
use crate::programs::programs_of;
use crate::running::run;
use crate::unmade::Unmade;
use crate::verbs::Verb;
use hp_program::Program;
use job_gen::{JobFault, read_job};
use job_report::{FileRefusal, Refusal, listing, refusal_line};
use mpe_progfile::{FileFault, read, write};
use std::alloc::{AllocError, Global};

/// The line for the first faulty line of a job.
fn job_line(alloc: Global, fault: JobFault) -> Result<Vec<u8>, AllocError>
    ensures { IfOk result (λ line. TellsJob fault line.items) }
{
    match fault {
        JobFault::Rule { line, rule } => refusal_line(alloc, &Refusal::Job { line, rule }),
        JobFault::NoMemory => Err(AllocError),
    }
}

/// What the bytes are answered by as a job to be run.
fn run_answer(alloc: Global, verb: Verb, bytes: &[u8]) -> Result<Answer, AllocError>
    requires runs { RunsJobs verb }
    requires short { length bytes.now ≤ 1048576 }
    ensures { IfOk result (λ a. IsAnswered bytes.now verb a) }
{
    let job = match read_job(alloc, bytes, false) {
        Ok(job) => job,
        Err(fault) => {
            let line = job_line(alloc, fault)?;
            return Ok(Answer::Refusal { line });
        }
    };
    match programs_of(alloc, &job.programs) {
        Ok(programs) => run(alloc, verb, bytes.len(), job, programs),
        Err(Unmade::Refused { line }) => Ok(Answer::Refusal { line }),
        Err(Unmade::NoMemory) => Err(AllocError),
    }
}

/// The file of the only program of a list.
fn file_answer(alloc: Global, made: Vec<Program>) -> Result<Answer, AllocError>
    requires { length made.items ≡ 1 }
    ensures { IfOk result (λ a. IsFileOf made.items a) }
{
    let text = write(alloc, &made[0])?;
    Ok(Answer::File { made, text })
}

/// What the bytes are answered by as a job to be prepared.
fn prep_answer(alloc: Global, bytes: &[u8]) -> Result<Answer, AllocError>
    requires { length bytes.now ≤ 1048576 }
    ensures { IfOk result (λ a. IsAnswered bytes.now verbs.Prep a) }
{
    let job = match read_job(alloc, bytes, true) {
        Ok(job) => job,
        Err(fault) => {
            let line = job_line(alloc, fault)?;
            return Ok(Answer::Refusal { line });
        }
    };
    match programs_of(alloc, &job.programs) {
        Ok(programs) => file_answer(alloc, programs),
        Err(Unmade::Refused { line }) => Ok(Answer::Refusal { line }),
        Err(Unmade::NoMemory) => Err(AllocError),
    }
}

/// The line for the first fault of a program file.
fn fault_line(alloc: Global, fault: FileFault) -> Result<Vec<u8>, AllocError>
    ensures line { IfOk result (λ line. line.items ≡ file_line fault) }
    ensures told { IfOk result (λ line. IsFaultOfFile fault) }
{
    let (fault, byte) = match fault {
        FileFault::Truncated(byte) => (FileRefusal::Truncated, byte),
        FileFault::BadHead(byte) => (FileRefusal::Head, byte),
        FileFault::BadSegment(byte) => (FileRefusal::Segment, byte),
        FileFault::Trailing(byte) => (FileRefusal::Trailing, byte),
        FileFault::BadLabel(byte) => (FileRefusal::Label, byte),
        FileFault::NoMemory => return Err(AllocError),
    };
    refusal_line(alloc, &Refusal::File { fault, byte })
}

/// What the bytes are answered by as a program file.
fn list_answer(alloc: Global, bytes: &[u8]) -> Result<Answer, AllocError>
    ensures { IfOk result (λ a. IsAnswered bytes.now verbs.List a) }
{
    match read(alloc, bytes) {
        Ok(program) => {
            let text = listing(alloc, &program)?;
            Ok(Answer::Listing { text })
        }
        Err(fault) => {
            let line = fault_line(alloc, fault)?;
            Ok(Answer::Refusal { line })
        }
    }
}

/// What the bytes are answered by.
pub fn answer_of(alloc: Global, verb: Verb, bytes: &[u8]) -> Result<Answer, AllocError>
    requires { length bytes.now ≤ 1048576 }
    ensures { IfOk result (λ a. IsAnswered bytes.now verb a) }
{
    match verb {
        Verb::Run | Verb::Gen(_) => run_answer(alloc, verb, bytes),
        Verb::Prep => prep_answer(alloc, bytes),
        Verb::List => list_answer(alloc, bytes),
    }
}
