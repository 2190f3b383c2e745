//! The report on a monitor's sessions.
ghost use Rattle.std.specs.Prelude.{◌≡◌, ◌<◌, ℕ, List, length, map, IfOk};
ghost use Rattle.job_text.specs.Views.{text_value};
ghost use Rattle.job_report.specs.Reports.{reported};
ghost use Rattle.mpe_turns.specs.Monitors.{world_of};
ghost use Rattle.mpe_turns.specs.Stands.{run_of, runs_of};
ghost use Rattle.mpe_turns.specs.mpe_worlds.Worlds.{segments_at};
ghost use Rattle.job_runs.specs.Reported.{AreOf, names_of, reported_of, counted, report_on, summary_on};

use job_report::{Point, report, summary};
use job_text::Text;
use mpe_turns::{Monitor, Session};
use spl_tree::{Chars, Name};
use std::alloc::{AllocError, Global};

/// Where a session stands.
fn point(alloc: Global, programs: &[Text], session: &Session) -> Result<Point, AllocError>
    requires { session.now.program < length programs.now }
    ensures { IfOk result (λ p. (codes : List (List (List ℕ))) → reported p
        ≡ reported_of (names_of (map text_value programs.now)) (run_of (segments_at codes session.now.program) session.now)) }
{
    let bytes = Vec::from_slice(alloc, &session.terminal.printed)?;
    Ok(Point {
        name: Name::new(&programs[session.program as usize].name.text),
        printed: Chars { bytes },
        ending: session.ending,
        steps: session.steps,
        fills: session.cpu.stack.fills,
        spills: session.cpu.stack.spills,
    })
}

/// Where each session stands.
fn points(alloc: Global, programs: &[Text], sessions: &[Session]) -> Result<Vec<Point>, AllocError>
    requires { AreOf (length programs.now) sessions.now }
    ensures { IfOk result (λ ps. (codes : List (List (List ℕ))) → map reported ps.items
        ≡ map (reported_of (names_of (map text_value programs.now))) (runs_of codes sessions.now)) }
{
    let mut points = Vec::with_capacity(alloc, sessions.len())?;
    for session in sessions {
        let point = point(alloc, programs, session)?;
        points.push(point)?;
    }
    Ok(points)
}

/// The turns and loads, where statistics are wanted.
fn counted(stats: bool, monitor: &Monitor) -> Option<(u64, u64)>
    ensures { result ≡ counted stats (world_of monitor.now) }
{
    match stats {
        true => Some((monitor.turns, monitor.overlay.loads)),
        false => None,
    }
}

/// The report on a monitor's sessions, under the names of their programs; with statistics where they are wanted. Only memory may
/// be wanting.
pub fn report_on(
    alloc: Global,
    programs: &[Text],
    stats: bool,
    monitor: &Monitor,
) -> Result<Vec<u8>, AllocError>
    requires { length monitor.now.overlay.programs.items ≡ length programs.now }
    ensures { IfOk result (λ text. text.items ≡ report_on (names_of (map text_value programs.now)) stats (world_of monitor.now)) }
{
    let points = points(alloc, programs, &monitor.sessions)?;
    report(alloc, &points, counted(stats, monitor))
}

/// The summary of the generated job with number `n`, whose text has so many bytes, of a monitor's sessions under the names of
/// their programs. Only memory may be wanting.
pub fn summary_on(
    alloc: Global,
    n: u16,
    bytes: usize,
    programs: &[Text],
    monitor: &Monitor,
) -> Result<Vec<u8>, AllocError>
    requires { length monitor.now.overlay.programs.items ≡ length programs.now }
    ensures { IfOk result (λ text. text.items ≡ summary_on n bytes (names_of (map text_value programs.now)) (world_of monitor.now)) }
{
    let points = points(alloc, programs, &monitor.sessions)?;
    summary(alloc, n, bytes, &points)
}
