//! The steps of a turn: one step of a session, and all of them.
ghost use Rattle.std.specs.Prelude.{◌≡◌, ◌+◌, ◌-◌, ◌<◌, ◌≤◌, ◌^◌, ◌==◌, true, false, slice_get, Some, is_some};
ghost use Rattle.std.specs.Bool.{OnFalse};
ghost use Rattle.hp_word.specs.declared.endings.Ending.TheVariants.{Running};
ghost use Rattle.hp_program.specs.declared.program.Program.{Program};
ghost use Rattle.hp_program.specs.Programs.{segments_of};
ghost use Rattle.mpe_gate.specs.hp_tos.StackView.{seen};
ghost use Rattle.mpe_overlay.specs.Held.{held_by};
ghost use Rattle.mpe_worlds.specs.hp_cpu.Stood.{needed};
ghost use Rattle.mpe_worlds.specs.RunSteps.{stepping};
ghost use Rattle.mpe_turns.specs.Stands.{IsSessionOf, run_of};
ghost use Rattle.mpe_turns.specs.Answers.{answer_by};
ghost use Rattle.mpe_turns.specs.Steps.{MakesOne, RunsOver, ServesCall, area_of};

use crate::session::{Session, Turned};
use hp_word::{Ending, Intrinsic};
use mpe_gate::{Served, serve};
use mpe_overlay::{Overlay, SegmentView};
use mpe_worlds::hp_cpu::{Phase, Stepped};

/// Counts a step after which the session goes on.
#[inline(always)]
fn go_on(session: &mut Session) -> bool
    requires { session.old.steps < 2 ^ 60 }
    ensures value { result ≡ true }
    ensures session { session.new ≡ record session.old { steps = session.old.steps + 1 } }
{
    session.steps += 1;
    true
}

/// Counts a step that ends the session.
fn end(session: &mut Session, ending: Ending) -> bool
    requires { session.old.steps < 2 ^ 60 }
    ensures value { result ≡ false }
    ensures session { session.new ≡ record session.old { ending = ending; steps = session.old.steps + 1 } }
{
    session.ending = ending;
    session.steps += 1;
    false
}

/// Serves an intrinsic that the session has called. Whether the session goes on is the answer.
fn serve_call(session: &mut Session, intrinsic: Intrinsic) -> bool
    requires ready { (seen session.old.cpu.stack).in_registers ≡ 0 }
    requires running { session.old.ending ≡ Running }
    requires few { session.old.steps < 2 ^ 60 }
    ensures { ServesCall intrinsic session.old result session.new }
{
    match serve(
        intrinsic,
        &mut session.cpu.regs,
        &mut session.cpu.stack,
        &mut session.terminal,
    ) {
        Served::Went => go_on(session),
        Served::Ended(ending) => end(session, ending),
        Served::Trapped(trap) => end(session, Ending::Trapped(trap)),
    }
}

/// One step of a session that runs, unless its segment is absent. Whether the session goes on is the answer.
#[inline(always)]
fn make_step(session: &mut Session, code: &SegmentView<'_>) -> bool
    requires running { session.old.ending ≡ Running }
    requires few { session.old.steps < 2 ^ 60 }
    ensures steps { (p : Program) → RunsOver p code.now session.old → MakesOne p (area_of code.now) session.old result session.new }
    ensures on { result ≡ true → (session.new.steps ≡ session.old.steps + 1) × (session.new.ending ≡ Running) }
    ensures few { session.new.steps ≤ session.old.steps + 1 }
    ensures program { session.new.program ≡ session.old.program }
{
    match session.cpu.step(code) {
        Stepped::Went => go_on(session),
        Stepped::Absent(_) => false,
        Stepped::Gate(intrinsic) => serve_call(session, intrinsic),
        Stepped::Trapped(trap) => end(session, Ending::Trapped(trap)),
    }
}

/// Takes the segment at hand to which a transfer leads. False is the answer where it is not loaded.
///
/// Without a transfer the segment at hand is the one that is needed. No proof rests on that: a word of another would be found by
/// its region.
#[inline(always)]
fn follow(session: &Session, code: &mut SegmentView<'_>) -> bool
    ensures view { code.new.view ≡ code.old.view }
    ensures absent { OnFalse result (is_some (held_by code.old.view (needed session.now.cpu)) ≡ false) }
{
    match session.cpu.phase {
        Phase::Ready => true,
        Phase::Entering { seg, .. } | Phase::Returning { seg, .. } => code.turn_to(seg),
    }
}

/// Steps until the session has made `until` steps in all, has ended, or needs a segment that is not loaded. The segment that it
/// runs in is looked up once, and so is each that a transfer leads to.
pub(crate) fn run(session: &mut Session, overlay: &Overlay, until: u64)
    requires running { session.old.ending ≡ Running }
    requires until { until ≤ 2 ^ 60 }
    requires below { session.old.steps ≤ until }
    ensures steps { (p : Program) → slice_get overlay.now.programs.items session.old.program ≡ Some p → IsSessionOf p session.old
        → run_of (segments_of p) session.new ≡ stepping (segments_of p) overlay.now.regions.area (until - session.old.steps) (run_of (segments_of p) session.old) }
    ensures session { (p : Program) → slice_get overlay.now.programs.items session.old.program ≡ Some p → IsSessionOf p session.old → IsSessionOf p session.new }
    ensures until { session.new.steps ≤ until }
    ensures program { session.new.program ≡ session.old.program }
{
    let seg = session.cpu.needed_segment();
    let mut code = match overlay.view(session.program).segment(seg) {
        None => return,
        Some(code) => code,
    };
    // counted apart from the session's steps, so that the test of a step needs no word of memory
    let mut left = until - session.steps;
    'stepping: while left > 0 {
        if !follow(session, &mut code) {
            return;
        }
        if !make_step(session, &code) {
            return;
        }
        left -= 1;
    }
}

/// What a turn answers that was to go on until the session had made `until` steps.
pub(crate) fn answer(session: &Session, until: u64) -> Turned
    ensures { result ≡ answer_by session.now.ending (session.now.steps == until) (needed session.now.cpu) }
{
    match session.ending {
        Ending::Running => {
            if session.steps == until {
                Turned::Quantum
            } else {
                Turned::NeedsSegment(session.cpu.needed_segment())
            }
        }
        Ending::Trapped(trap) => Turned::Trapped(trap),
        ending => Turned::Ended(ending),
    }
}
