//! Sessions that lose every segment after each of their steps.
use crate::runs::run;
use hp_word::{Ending, Trap};
use hp3000_top::{Event, Monitor};
use std::alloc::Global;
use std::test::Fail;

/// A loop over calls from one segment to another. Its first turn is taken, of one step, in a memory that holds only the larger segment.
const CROSSING: &[u8] =
    b"!JOB\n!QUANTUM 1\n!TURNS 1\n!MEMORY 1042\n!PROGRAM A\n!UNIT\nBEGIN INTEGER I,K; INTRINSIC QUIT;\n$CONTROL SEGMENT=ONE\nPROCEDURE P; K:=K+1;\n$CONTROL SEGMENT=TWO\nFOR I:=1 UNTIL 100 DO P; QUIT(K) END.\n!SESSION A\n!EOJ\n";

/// Two sessions, of which the first writes into the marker of its own call.
const STRAYING: &[u8] =
    b"!JOB\n!QUANTUM 1\n!TURNS 1\n!PROGRAM A\n!UNIT\nBEGIN LOGICAL ARRAY W(0:39); INTEGER N; INTRINSIC PRINT,READ; INTEGER POINTER P; PROCEDURE BAD; BEGIN INTEGER V; @P:=@V-1; P:=0; END; N:=READ(W,-4); PRINT(W,-N,0); IF N=3 THEN BAD END.\n!SESSION A\nBAD\n!SESSION A\nGOOD\n!EOJ\n";

/// The monitor of a job after its first turn.
fn begun(alloc: Global, job: &[u8]) -> Result<Monitor, Fail> {
    let left = run(alloc, job, &[], 4096)?;
    Ok(left.monitor.ok_or("the job did not run")?)
}

/// Gives one session after the other turns of one step, and takes both segments away after each, until none is live.
fn storm(alloc: Global, monitor: &mut Monitor) -> Result<(), Fail> {
    for turn in 0..20_000_u32 {
        let who = (turn % 2) as u8;
        let events = vec![in alloc;
            Event::Turn { who, quantum: 1 },
            Event::Evict { program: 0, seg: 0 },
            Event::Evict { program: 0, seg: 1 },
        ]?;
        monitor.play(&events);
        if monitor.next().is_none() {
            return Ok(());
        }
    }
    Err(Fail::new("a session did not end"))
}

/// How a session has ended, and what it has printed.
fn ended(monitor: &Monitor, who: usize) -> Option<(Ending, &[u8])> {
    let session = monitor.sessions.get(who)?;
    Some((session.ending, session.terminal.printed.as_slice()))
}

#[test]
fn calls_between_segments_are_not_disturbed(rt: HostRuntime) -> Result<(), Fail> {
    let mut monitor = begun(rt.alloc(), CROSSING)?;
    assert_eq!(rt; monitor.next(), Some(0));
    storm(rt.alloc(), &mut monitor)?;
    assert_eq!(rt;
        ended(&monitor, 0),
        Some((Ending::Quit(100), b"".as_slice()))
    );
    // each turn brought its segment in again, but for the second: the first was taken in calm
    assert_eq!(rt; monitor.overlay.loads + 1, monitor.turns);
    Ok(())
}

#[test]
fn a_neighbour_of_a_stray_reference_is_not_disturbed(rt: HostRuntime) -> Result<(), Fail> {
    let mut monitor = begun(rt.alloc(), STRAYING)?;
    storm(rt.alloc(), &mut monitor)?;
    assert_eq!(rt;
        ended(&monitor, 0),
        Some((Ending::Trapped(Trap::StackUnderflow), b"BAD\n".as_slice()))
    );
    assert_eq!(rt;
        ended(&monitor, 1),
        Some((Ending::Terminated, b"GOOD\n".as_slice()))
    );
    Ok(())
}
