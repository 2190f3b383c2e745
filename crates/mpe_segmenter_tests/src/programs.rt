//! Programs of units, listed, and the first fault of others.
use super::units::{Unit, modules_of, name};
use hp_program::Program;
use job_report::listing;
use mpe_progfile::{read, write};
use mpe_segmenter::{PrepFault, are_ready, prepare};
use spl_branch::Module;
use std::alloc::Global;
use std::process::Abort;
use std::test::Fail;

/// A unit with the main body and one literal, in segment S.
const MAIN: Unit = Unit {
    segment: b'S',
    defines: b"",
    more: 0,
    wants: b"",
    main: true,
    fill: 1,
};

/// A unit without the main body.
const PART: Unit = Unit {
    segment: b'S',
    defines: b"",
    more: 0,
    wants: b"",
    main: false,
    fill: 1,
};

/// What comes of modules with one data word; nothing where they are not ready.
fn prepared(
    alloc: Global,
    modules: Vec<Module>,
) -> Result<Option<Result<Program, PrepFault>>, Fail> {
    let globals = vec![in alloc; 7]?;
    if globals.len() <= 32000 && are_ready(modules.as_slice()) {
        Ok(Some(prepare(alloc, modules, globals)))
    } else {
        Ok(None)
    }
}

/// The first fault of units.
fn fault_of(alloc: Global, units: &[Unit]) -> Result<Option<PrepFault>, Fail> {
    match prepared(alloc, modules_of(alloc, units)?)? {
        None => Ok(None),
        Some(Ok(_program)) => Ok(None),
        Some(Err(fault)) => Ok(Some(fault)),
    }
}

/// The program of units.
fn program_of(alloc: Global, units: &[Unit]) -> Result<Program, Fail> {
    match prepared(alloc, modules_of(alloc, units)?)? {
        None => Err("the modules are not ready")?,
        Some(Ok(program)) => Ok(program),
        Some(Err(_fault)) => Err("there is a fault")?,
    }
}

/// Two units that share segment S, and one in segment T, which call each other's procedures, their own, and intrinsics.
static UNITS: [Unit; 3] = [
    Unit {
        defines: b"Ab",
        wants: b"C7",
        ..MAIN
    },
    Unit {
        defines: b"D",
        wants: b"AC7",
        ..PART
    },
    Unit {
        segment: b'T',
        defines: b"C",
        wants: b"AD8",
        ..PART
    },
];

const LISTING: &str = "PROGRAM VERSION 1 SEGMENTS 2 MAIN 0 ENTRY 3 DATA 1
DATA 000000 000007
SEGMENT 0 WORDS 17 ENTRIES 6
000000 030001 PCAL
000001 030002 PCAL
000002 030005 PCAL
000003 030006 PCAL
000004 000011 NOP,DADD
000005 030004 PCAL
000006 030001 PCAL
000007 030005 PCAL
000010 030006 PCAL
000011 000011 NOP,DADD
ENTRY 1 LOCAL 000000
ENTRY 2 LOCAL 000001
ENTRY 3 LOCAL 000004
ENTRY 4 LOCAL 000005
ENTRY 5 SEGMENT 1 ENTRY 1
ENTRY 6 GATE TERMINATE
SEGMENT 1 WORDS 10 ENTRIES 4
000000 030001 PCAL
000001 030002 PCAL
000002 030003 PCAL
000003 030004 PCAL
000004 000011 NOP,DADD
ENTRY 1 LOCAL 000000
ENTRY 2 SEGMENT 0 ENTRY 1
ENTRY 3 SEGMENT 0 ENTRY 4
ENTRY 4 GATE QUIT
";

#[test]
fn units_call_across_segments(rt: HostRuntime) -> Result<(), Fail> {
    let alloc = rt.alloc();
    let program = program_of(alloc, &UNITS)?;
    assert_eq!(rt; listing(alloc, &program)?.as_slice(), LISTING.as_bytes());
    let file = write(alloc, &program)?;
    match read(alloc, file.as_slice()) {
        Ok(again) => {
            assert_eq!(rt; listing(alloc, &again)?.as_slice(), LISTING.as_bytes());
            assert_eq!(rt; write(alloc, &again)?.as_slice(), file.as_slice());
        }
        Err(_) => assert!(rt; false),
    }
    Ok(())
}

/// The first fault of units is this one.
fn expect(rt: &impl Abort, alloc: Global, units: &[Unit], fault: PrepFault) -> Result<(), Fail> {
    assert_eq!(rt; fault_of(alloc, units)?, Some(fault));
    Ok(())
}

#[test]
fn faults_of_main_bodies_and_names(rt: HostRuntime) -> Result<(), Fail> {
    let alloc = rt.alloc();
    let doubled = Unit {
        defines: b"AB",
        ..PART
    };
    let again = Unit {
        segment: b'T',
        defines: b"BA",
        ..PART
    };
    let wanting = Unit {
        wants: b"AYX",
        fill: 16383,
        ..PART
    };
    expect(&rt, alloc, &[], PrepFault::NoMain)?;
    expect(&rt, alloc, &[doubled, again, wanting], PrepFault::NoMain)?;
    expect(
        &rt,
        alloc,
        &[MAIN, MAIN, doubled, again],
        PrepFault::TwoMains,
    )?;
    expect(
        &rt,
        alloc,
        &[MAIN, doubled, again, wanting],
        PrepFault::Doubled(name(b'B')),
    )?;
    expect(
        &rt,
        alloc,
        &[MAIN, wanting, doubled],
        PrepFault::Unresolved(name(b'Y')),
    )?;
    // a subroutine meets no want
    let inner = Unit {
        defines: b"x",
        ..PART
    };
    let calling = Unit {
        wants: b"x",
        ..PART
    };
    expect(
        &rt,
        alloc,
        &[MAIN, inner, calling],
        PrepFault::Unresolved(name(b'x')),
    )
}

/// So many units, each in a segment of its own, the main body in the last.
fn spread(alloc: Global, count: u8, more: u8) -> Result<Vec<Unit>, Fail> {
    let mut units = Vec::new(alloc);
    for k in 0..count {
        units.push(Unit {
            segment: b'A'.saturating_add(k),
            more,
            main: k + 1 == count,
            ..PART
        })?;
    }
    Ok(units)
}

#[test]
fn counts_of_segments_and_entries(rt: HostRuntime) -> Result<(), Fail> {
    let alloc = rt.alloc();
    let program = program_of(alloc, spread(alloc, 62, 126)?.as_slice())?;
    assert_eq!(rt; program.segments.len(), 62);
    assert_eq!(rt; (program.main, program.entry), (61, 127));
    expect(
        &rt,
        alloc,
        spread(alloc, 63, 127)?.as_slice(),
        PrepFault::SegmentsFull { count: 63 },
    )?;
    expect(
        &rt,
        alloc,
        spread(alloc, 62, 127)?.as_slice(),
        PrepFault::EntriesFull {
            segment: name(b'A' + 61),
            count: 128,
        },
    )?;
    // entries before words
    let wide = Unit {
        segment: b'T',
        more: 127,
        wants: b"8",
        fill: 16000,
        ..PART
    };
    let long = Unit {
        fill: 16383,
        ..MAIN
    };
    expect(
        &rt,
        alloc,
        &[long, wide],
        PrepFault::EntriesFull {
            segment: name(b'T'),
            count: 128,
        },
    )
}

#[test]
fn counts_of_words(rt: HostRuntime) -> Result<(), Fail> {
    let alloc = rt.alloc();
    let cases: [(u16, u16, u32); 4] = [
        (16380, 1, 0),
        (16381, 1, 16384),
        (16382, 9, 16384),
        (16384, 9, 16386),
    ];
    for (first, second, words) in cases {
        let units = [
            Unit {
                fill: first,
                ..MAIN
            },
            Unit {
                fill: second,
                ..PART
            },
        ];
        if words == 0 {
            let program = program_of(alloc, &units)?;
            assert_eq!(rt; program.segments.iter().map(|s| s.len()).max(), Some(16383));
        } else {
            let segment = name(b'S');
            expect(
                &rt,
                alloc,
                &units,
                PrepFault::SegmentFull { segment, words },
            )?;
        }
    }
    Ok(())
}
