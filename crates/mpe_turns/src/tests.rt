//! Two sessions of one program in a memory that holds one segment only, with places and numbers worked out by hand; and events
//! that are passed over.

ghost use Rattle.std.specs.Prelude.{◌≡◌};

use super::*;
use hp_program::Program;
use hp_word::Ending;
use mpe_session::Seat;
use std::alloc::{AllocError, Global};
use std::test::Fail;

/// LDI 5; PCAL 2; INCA, NOP; PCAL 3; and three entries: QUIT, the first entry of the second segment, and offset 0.
const FIRST: [u16; 8] = [0x2105, 0x3002, 0o3300, 0x3003, 0x88ff, 0x8101, 0, 3];

/// EXIT 0; and an entry, offset 0.
const SECOND: [u16; 3] = [0x3100, 0, 1];

fn program(alloc: Global) -> Result<Option<Program>, AllocError> {
    let first = Vec::from_slice(alloc, &FIRST)?;
    let second = Vec::from_slice(alloc, &SECOND)?;
    let segments = vec![in alloc; first, second]?;
    Ok(Program::new(segments, 0, 1, Vec::new(alloc)).ok())
}

/// A seat of the first program, with 64 words of stack.
fn seat(alloc: Global) -> Seat
    ensures program { result.program ≡ 0 }
    ensures stack { result.stack ≡ 64 }
    ensures extra { result.extra ≡ 0 }
{
    Seat {
        program: 0,
        stack: 64,
        extra: 0,
        room: 10,
        lines: Vec::new(alloc),
    }
}

/// Two sessions, with so many words of memory.
fn opened(alloc: Global, memory: u8) -> Result<Option<Monitor>, AllocError> {
    let Some(program) = program(alloc)? else {
        return Ok(None);
    };
    let programs = vec![in alloc; program]?;
    let seats = vec![in alloc; seat(alloc), seat(alloc)]?;
    match Monitor::open(alloc, memory as u32, seats, programs) {
        Ok(monitor) => Ok(Some(monitor)),
        Err(OpenFault::NoMemory) => Err(AllocError),
        Err(_) => Ok(None),
    }
}

/// The steps of a session, its ending, SR, fills and spills.
fn told(monitor: &Monitor, who: usize) -> Option<(u64, Ending, u8, u64, u64)> {
    let session = monitor.sessions.get(who)?;
    let stack = &session.cpu.stack;
    Some((
        session.steps,
        session.ending,
        stack.top.len() as u8,
        stack.fills,
        stack.spills,
    ))
}

#[test]
fn a_storm_of_evictions_is_not_seen(rt: HostRuntime) -> Result<(), Fail> {
    let alloc = rt.alloc();
    let mut monitor = opened(alloc, 136)?.ok_or("not opened")?;
    let want = [
        // LDI; PCAL flushes one word and pushes four; EXIT flushes four; INCA fills one; QUIT flushes it
        (1, Ending::Running, 1, 0, 0, Some(128), None),
        (2, Ending::Running, 4, 0, 1, Some(128), None),
        (3, Ending::Running, 0, 0, 5, None, Some(128)),
        (4, Ending::Running, 1, 1, 5, Some(128), None),
        (5, Ending::Quit(6), 0, 1, 6, Some(128), None),
    ];
    for (steps, ending, sr, fills, spills, first, second) in want {
        for who in 0..2 {
            let turn = vec![in alloc; Event::Turn { who, quantum: 1 }]?;
            assert_eq!(rt; monitor.play(&turn), 1);
            assert_eq!(rt;
                told(&monitor, who as usize),
                Some((steps, ending, sr, fills, spills))
            );
            assert_eq!(rt; monitor.overlay.place(0, 0), first);
            assert_eq!(rt; monitor.overlay.place(0, 1), second);
            let evictions = vec![in alloc;
                Event::Evict { program: 0, seg: 0 },
                Event::Evict { program: 0, seg: 1 },
            ]?;
            assert_eq!(rt; monitor.play(&evictions), 2);
            assert_eq!(rt; monitor.overlay.place(0, 0), None);
        }
    }
    assert_eq!(rt;
        (monitor.turns, monitor.overlay.loads, monitor.spent),
        (10, 10, 10)
    );
    assert_eq!(rt; monitor.next(), None);
    Ok(())
}

#[test]
fn events_are_passed_over(rt: HostRuntime) -> Result<(), Fail> {
    let alloc = rt.alloc();
    let mut monitor = opened(alloc, 139)?.ok_or("not opened")?;
    assert_eq!(rt; monitor.next(), Some(0));
    let events = vec![in alloc;
        Event::Turn { who: 2, quantum: 1 },
        Event::Turn { who: 0, quantum: 0 },
        Event::Evict { program: 0, seg: 2 },
        Event::Evict { program: 1, seg: 0 },
    ]?;
    assert_eq!(rt; monitor.play(&events), 0);
    assert_eq!(rt;
        (monitor.turns, monitor.overlay.loads, monitor.last),
        (0, 0, 255)
    );
    // the second segment is not there yet, and then there is room for both
    let events = vec![in alloc;
        Event::Turn { who: 0, quantum: 9 },
        Event::Turn { who: 0, quantum: 9 },
        Event::Turn { who: 0, quantum: 9 },
        Event::Turn { who: 1, quantum: 9 },
        Event::Turn { who: 1, quantum: 9 },
    ]?;
    assert_eq!(rt; monitor.play(&events), 3);
    assert_eq!(rt; told(&monitor, 0), Some((5, Ending::Quit(6), 0, 1, 6)));
    assert_eq!(rt; told(&monitor, 1), Some((5, Ending::Quit(6), 0, 1, 6)));
    assert_eq!(rt;
        (monitor.overlay.place(0, 0), monitor.overlay.place(0, 1)),
        (Some(128), Some(136))
    );
    assert_eq!(rt;
        (monitor.turns, monitor.overlay.loads, monitor.spent),
        (3, 2, 27)
    );
    Ok(())
}
