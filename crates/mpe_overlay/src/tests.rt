//! Loads of two programs, with places and words worked by hand.

use super::*;
use hp_program::{CodeStore, Fetched, Program};
use std::alloc::{AllocError, Global};
use std::process::Abort;
use std::test::Fail;

/// The words of each segment. The last of them is its number of entries, and before it stand their offsets.
fn words(program: u8, seg: u8) -> &'static [u16] {
    match (program, seg) {
        (0, 0) => &[11, 12, 0, 1],
        (0, 1) => &[21, 22, 23, 24, 25, 0],
        (0, 2) => &[31, 32, 33, 34, 0],
        (1, 0) => &[41, 42, 43, 44, 45, 0, 1],
        _ => &[],
    }
}

fn program(
    rt: &impl Abort,
    alloc: Global,
    number: u8,
    count: u8,
) -> Result<Option<Program>, AllocError> {
    let mut segments = Vec::new(alloc);
    for seg in 0..count {
        segments.push(Vec::from_slice(alloc, words(number, seg))?)?;
    }
    let made = Program::new(segments, 0, 1, Vec::new(alloc));
    assert!(rt; made.is_ok());
    Ok(made.ok())
}

fn programs(rt: &impl Abort, alloc: Global) -> Result<Vec<Program>, AllocError> {
    let mut programs = Vec::new(alloc);
    for (number, count) in [(0, 3), (1, 1)] {
        if let Some(program) = program(rt, alloc, number, count)? {
            programs.push(program)?;
        }
    }
    Ok(programs)
}

/// A call with the answer that it has to give.
#[derive(Clone, Copy)]
enum Event {
    Need(u8, u8, Loaded),
    Evict(u8, u8, bool),
    Place(u8, u8, Option<u32>),
}

fn happen(rt: &impl Abort, overlay: &mut Overlay, number: usize, event: Event) {
    match event {
        Event::Need(program, seg, want) => {
            assert!(rt; overlay.fits(program, seg));
            assert_eq!(rt; overlay.need(program, seg), want, "event {number}");
        }
        Event::Evict(program, seg, want) => {
            assert_eq!(rt; overlay.evict(program, seg), want, "event {number}");
        }
        Event::Place(program, seg, want) => {
            assert_eq!(rt; overlay.place(program, seg), want, "event {number}");
        }
    }
}

/// A store holds a segment of these words, or has none of it.
fn holds(rt: &impl Abort, code: &impl CodeStore, seg: u8, words: Option<&[u16]>, number: usize) {
    assert_eq!(rt;
        code.size(seg).map(|n| n as usize),
        words.map(|w| w.len()),
        "event {number}"
    );
    for offset in 0..9 {
        let want = match words {
            None => Fetched::Absent,
            Some(words) => match words.get(offset as usize) {
                None => Fetched::Outside,
                Some(word) => Fetched::Word(*word),
            },
        };
        assert_eq!(rt;
            code.fetch(seg, offset),
            want,
            "event {number}, segment {seg}"
        );
    }
}

/// Each segment is read through a view as it is: absent, or with the words of its program.
fn read_all(rt: &impl Abort, overlay: &Overlay, number: usize) {
    for program in 0..2 {
        for seg in 0..3 {
            let want = match overlay.place(program, seg) {
                None => None,
                Some(_) => Some(words(program, seg)),
            };
            holds(rt, &overlay.view(program), seg, want, number);
            if let Some(code) = overlay.view(program).segment(seg) {
                holds(rt, &code, seg, want, number);
            } else {
                assert_eq!(rt; want, None, "event {number}");
            }
            if let Some(mut code) = overlay.view(program).segment(2 - seg) {
                holds(rt, &code, seg, want, number);
                for _ in 0..2 {
                    assert_eq!(rt; code.turn_to(seg), want.is_some(), "event {number}");
                    holds(rt, &code, seg, want, number);
                    assert!(rt; code.turn_to(2 - seg), "event {number}");
                    holds(rt, &code, seg, want, number);
                }
            }
        }
    }
}

const EVENTS: [Event; 17] = [
    Event::Need(
        0,
        0,
        Loaded::Brought {
            place: 100,
            given_up: 0,
        },
    ),
    Event::Need(
        0,
        1,
        Loaded::Brought {
            place: 104,
            given_up: 0,
        },
    ),
    Event::Need(0, 0, Loaded::There),
    Event::Need(
        0,
        2,
        Loaded::Brought {
            place: 104,
            given_up: 1,
        },
    ),
    Event::Place(0, 1, None),
    Event::Need(
        1,
        0,
        Loaded::Brought {
            place: 100,
            given_up: 2,
        },
    ),
    Event::Evict(0, 0, false),
    Event::Need(
        0,
        2,
        Loaded::Brought {
            place: 107,
            given_up: 0,
        },
    ),
    Event::Place(1, 0, Some(100)),
    Event::Evict(1, 0, true),
    Event::Place(1, 0, None),
    Event::Place(0, 2, Some(107)),
    Event::Need(
        0,
        0,
        Loaded::Brought {
            place: 100,
            given_up: 0,
        },
    ),
    Event::Need(
        0,
        1,
        Loaded::Brought {
            place: 104,
            given_up: 1,
        },
    ),
    Event::Place(0, 2, None),
    Event::Evict(0, 1, true),
    Event::Need(0, 0, Loaded::There),
];

#[test]
fn segments_are_read_after_each_event(rt: HostRuntime) -> Result<(), Fail> {
    let programs = programs(&rt, rt.alloc())?;
    assert_eq!(rt; programs.len(), 2);
    let made = Overlay::make(rt.alloc(), 100, 12, programs);
    let mut overlay = made.ok().ok_or("no memory")?;
    read_all(&rt, &overlay, 0);
    for (number, event) in EVENTS.into_iter().enumerate() {
        happen(&rt, &mut overlay, number, event);
        read_all(&rt, &overlay, number);
    }
    assert_eq!(rt; overlay.loads, 7);
    Ok(())
}

#[test]
fn what_fits_is_there_and_no_larger_than_the_area(rt: HostRuntime) -> Result<(), Fail> {
    let programs = programs(&rt, rt.alloc())?;
    assert_eq!(rt; programs.len(), 2);
    let made = Overlay::make(rt.alloc(), 0, 5, programs);
    let overlay = made.ok().ok_or("no memory")?;
    let cases = [
        (0, 0, true),
        (0, 1, false),
        (0, 2, true),
        (0, 3, false),
        (1, 0, false),
        (2, 0, false),
    ];
    for (program, seg, want) in cases {
        assert_eq!(rt; overlay.fits(program, seg), want, "{program} {seg}");
    }
    Ok(())
}
