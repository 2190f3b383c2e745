//! A job read from its text, line by line.
ghost use Rattle.std.specs.Prelude.{◌≤◌, length, IfOk, IfErr, None, Some, ℕ};
ghost use Rattle.job_lines.specs.Says.{said_at};
ghost use Rattle.job_lines.specs.Views.{said_value};
ghost use Rattle.job_text.specs.Verdicts.{verdict};
ghost use Rattle.job_text.specs.Views.{state_of, job_value};
ghost use Rattle.job_text.specs.Jobs.{JobValue, JobIs, JobBreaks};
ghost use Rattle.job_text.specs.Answers.{Hears, Reads, Answers, IsFault, GivesJob, GivesFault};

use crate::faults::JobFault;
use crate::job::Job;
use crate::reading::Reading;
use job_lines::{LineKind, Said, capitals, command_said, kind_at, next_line};
use std::alloc::{AllocError, Global};

/// Takes what a line says, or tells the least rule that it breaks.
#[tactic(auto, using(crate::proofs::RuleLemmas::kept_rules))]
fn hear(
    alloc: Global,
    reading: &mut Reading,
    prep: bool,
    said: &Said<'_>,
) -> Result<Option<u8>, AllocError>
    ensures { Hears prep (said_value said.now) (state_of reading.old) result (state_of reading.new) }
{
    match reading.broken(prep, said) {
        Some(rule) => Ok(Some(rule)),
        None => {
            reading.take(alloc, said)?;
            Ok(None)
        }
    }
}

/// Takes a line, or tells the least rule that it breaks.
#[tactic(auto, unfolding(job_lines::specs::Says::command_said))]
fn hear_line(
    alloc: Global,
    reading: &mut Reading,
    prep: bool,
    line: &[u8],
) -> Result<Option<u8>, AllocError>
    ensures { Hears prep (said_at reading.old.place line.now) (state_of reading.old) result (state_of reading.new) }
{
    match kind_at(reading.place, line) {
        LineKind::Plain(said) => hear(alloc, reading, prep, &said),
        LineKind::Words(line) => {
            let capitals = capitals(alloc, line)?;
            let said = command_said(alloc, &capitals)?;
            hear(alloc, reading, prep, &said)
        }
    }
}

/// Reads all lines, and the end of the text.
#[tactic(auto, using(crate::proofs::ReadingLemmas::reading_turns))]
fn read_lines(alloc: Global, reading: &mut Reading, text: &[u8], prep: bool) -> Result<(), JobFault>
    requires { length text.now ≤ 1048576 }
    ensures { Reads prep text.now (state_of reading.old) result (state_of reading.new) }
{
    let mut left = text;
    let mut number: u32 = 1;
    while let Some((line, rest)) = next_line(left) {
        if let Some(rule) = hear_line(alloc, reading, prep, line)? {
            return Err(JobFault::Rule { line: number, rule });
        }
        left = rest;
        number += 1;
    }
    match reading.broken(prep, &Said::EndOfText) {
        Some(rule) => Err(JobFault::Rule { line: number, rule }),
        None => Ok(()),
    }
}

/// The job that a text is.
#[tactic(auto, using(crate::proofs::AnswerLemmas::answers))]
fn read_text(alloc: Global, bytes: &[u8], prep: bool) -> Result<Job, JobFault>
    requires { length bytes.now ≤ 1048576 }
    ensures { Answers result (verdict prep bytes.now) }
{
    let mut reading = Reading::start(alloc);
    read_lines(alloc, &mut reading, bytes, prep)?;
    Ok(reading.into_job())
}

/// The job that a text of at most 1,048,576 bytes is, to be prepared or to be run; or the first line that is faulty, counted
/// from 1, with the least rule that it breaks. Only memory may be wanting besides.
pub fn read_job(alloc: Global, bytes: &[u8], prep: bool) -> Result<Job, JobFault>
    requires { length bytes.now ≤ 1048576 }
    ensures ok { IfOk result (λ job. JobIs bytes.now prep (job_value job)) }
    ensures fault { IfErr result (λ f. IsFault bytes.now prep f) }

    // A text that is a job is read as that job, and one that breaks a rule first at a line has that answer.
    ensures jobs { (job : JobValue) → JobIs bytes.now prep job → GivesJob result job }
    ensures faults { (line rule : ℕ) → JobBreaks bytes.now prep line rule → GivesFault result line rule }
{
    read_text(alloc, bytes, prep)
}
