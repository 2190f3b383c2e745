//! The report of a job.
ghost use Rattle.std.specs.Prelude.{◌≡◌, ◌+◌, ◌++◌, OnOk, IfOk, map};
ghost use Rattle.job_report.specs.Reports.{reported, line_end, session_line, counts_line, totals_line, session_text, sessions_text, report_of, generated_line, summary_of};

use crate::endings::push_end;
use crate::lines::push_line;
use crate::numbers::number;
use crate::point::Point;
use std::alloc::{AllocError as NoMemory, Global};

/// The line feed behind what was printed, where that is not empty and ends in none.
fn line_end(printed: &[u8]) -> &'static [u8]
    ensures { result.now ≡ line_end printed.now }
{
    match printed.last() {
        None => b"",
        Some(10) => b"",
        Some(_) => b"\n",
    }
}

/// Appends the line of a session, with the number of bytes that it printed.
fn push_session_line(text: &mut Vec<u8>, session: u64, point: &Point) -> Result<(), NoMemory>
    ensures { OnOk result (text.new.items ≡ text.old.items ++ session_line session (reported point.now)) }
{
    let session = number(session);
    let count = number(point.printed.bytes.len() as u64);
    let name = point.name.text.as_slice();
    push_line(
        text,
        &[b"SESSION ", &session, b" ", name, b" BYTES ", &count],
    )
}

/// Appends what was counted of a session.
fn push_counts(text: &mut Vec<u8>, session: u64, point: &Point) -> Result<(), NoMemory>
    ensures { OnOk result (text.new.items ≡ text.old.items ++ counts_line session (reported point.now)) }
{
    let session = number(session);
    let steps = number(point.steps);
    let fills = number(point.fills);
    let spills = number(point.spills);
    push_line(
        text,
        &[
            b"STATS ",
            &session,
            b" STEPS ",
            &steps,
            b" FILLS ",
            &fills,
            b" SPILLS ",
            &spills,
        ],
    )
}

/// Appends all of a session.
#[tactic(auto, using(crate::proofs::LineLemmas::joined), unfolding(crate::specs::Reports::session_text))]
fn push_session(
    text: &mut Vec<u8>,
    statistics: bool,
    session: u64,
    point: &Point,
) -> Result<(), NoMemory>
    ensures { OnOk result (text.new.items ≡ text.old.items ++ session_text statistics session (reported point.now)) }
{
    let printed = point.printed.bytes.as_slice();
    push_session_line(text, session, point)?;
    text.extend_from_slice(printed)?;
    text.extend_from_slice(line_end(printed))?;
    push_end(text, session, point.ending)?;
    if statistics {
        push_counts(text, session, point)?;
    }
    Ok(())
}

/// Appends all sessions.
#[tactic(auto, using(crate::proofs::ReportLemmas::session_turns))]
fn push_sessions(text: &mut Vec<u8>, statistics: bool, points: &[Point]) -> Result<(), NoMemory>
    ensures { OnOk result (text.new.items ≡ text.old.items ++ sessions_text statistics 1 (map reported points.now)) }
{
    for (i, point) in points.iter().enumerate() {
        push_session(text, statistics, i as u64 + 1, point)?;
    }
    Ok(())
}

/// Appends what was counted of all.
fn push_totals(text: &mut Vec<u8>, turns: u64, loads: u64) -> Result<(), NoMemory>
    ensures { OnOk result (text.new.items ≡ text.old.items ++ totals_line turns loads) }
{
    let turns = number(turns);
    let loads = number(loads);
    push_line(text, &[b"STATS TURNS ", &turns, b" LOADS ", &loads])
}

/// The report of a job whose sessions stand so: with statistics where turns and loads are given. Only memory may be wanting.
#[tactic(auto, unfolding(crate::specs::Reports::report_of))]
pub fn report(
    alloc: Global,
    points: &Vec<Point>,
    stats: Option<(u64, u64)>,
) -> Result<Vec<u8>, NoMemory>
    ensures { IfOk result (λ text. text.items ≡ report_of (map reported points.now.items) stats) }
{
    let mut text = Vec::new(alloc);
    match stats {
        None => push_sessions(&mut text, false, points)?,
        Some((turns, loads)) => {
            push_sessions(&mut text, true, points)?;
            push_totals(&mut text, turns, loads)?;
        }
    }
    Ok(text)
}

/// Appends the first line of a summary.
fn push_generated(text: &mut Vec<u8>, n: u16, bytes: usize) -> Result<(), NoMemory>
    ensures { OnOk result (text.new.items ≡ text.old.items ++ generated_line n bytes) }
{
    let n = number(n as u64);
    let bytes = number(bytes as u64);
    push_line(text, &[b"GEN ", &n, b" BYTES ", &bytes])
}

/// The summary of the generated job with number `n`, whose text has so many bytes and whose sessions stand so. Only memory
/// may be wanting.
#[tactic(auto, unfolding(crate::specs::Reports::summary_of))]
pub fn summary(
    alloc: Global,
    n: u16,
    bytes: usize,
    points: &Vec<Point>,
) -> Result<Vec<u8>, NoMemory>
    ensures { IfOk result (λ text. text.items ≡ summary_of n bytes (map reported points.now.items)) }
{
    let mut text = Vec::new(alloc);
    push_generated(&mut text, n, bytes)?;
    push_sessions(&mut text, false, points)?;
    Ok(text)
}
