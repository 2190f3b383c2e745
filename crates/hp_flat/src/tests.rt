//! Programs, openings and runs worked by hand.

use super::*;
use hp_word::{Ending, Trap};
use std::alloc::Global;
use std::test::Fail;

/// A program of one segment.
fn program(
    alloc: Global,
    words: &[u16],
    entry: u8,
    globals: &[u16],
) -> Result<Result<Program, Defect>, Fail> {
    let segment = Vec::from_slice(alloc, words)?;
    let globals = Vec::from_slice(alloc, globals)?;
    Ok(Program::new(vec![in alloc; segment]?, 0, entry, globals))
}

#[test]
fn the_first_defect_of_a_program(rt: HostRuntime) -> Result<(), Fail> {
    let alloc = rt.alloc();
    let cases: [(&[u16], u8, Option<Defect>); 8] = [
        (&[0, 0, 1], 1, None),
        (&[0], 1, Some(Defect::Segment(0))),
        (&[0, 0, 3], 1, Some(Defect::Segment(0))),
        (&[0, 0, 1], 0, Some(Defect::Main)),
        (&[0, 0, 1], 2, Some(Defect::Main)),
        (&[0, 1, 1], 1, Some(Defect::Main)),
        (
            &[0, 0o106377, 0, 2],
            1,
            Some(Defect::Label { seg: 0, entry: 2 }),
        ),
        (&[0, 0o102377, 0, 2], 1, None),
    ];
    for (words, entry, defect) in cases {
        assert_eq!(rt; program(alloc, words, entry, &[])?.err(), defect);
    }
    let none: Vec<Vec<u16>> = Vec::new(alloc);
    assert_eq!(rt;
        Program::new(none, 0, 1, Vec::new(alloc)).err(),
        Some(Defect::Head)
    );
    Ok(())
}

#[test]
fn runs_and_what_they_leave(rt: HostRuntime) -> Result<(), Fail> {
    let alloc = rt.alloc();
    // each run: code, the label's offset 0, its steps, the stack above the data word and the marker, the ending
    let cases: [(&[u16], u32, &[u16], Ending); 6] = [
        // LDI 2; LDI 3; ADD
        (
            &[0o020402, 0o020403, 0o002000, 0, 1],
            3,
            &[5],
            Ending::Running,
        ),
        // LDI 2; LDI 3; SUB
        (
            &[0o020402, 0o020403, 0o002100, 0, 1],
            3,
            &[65535],
            Ending::Running,
        ),
        // LOAD DB+0; LOAD DB+0; ADD
        (
            &[0o041000, 0o041000, 0o002000, 0, 1],
            3,
            &[32767, 32767],
            Ending::Trapped(Trap::IntegerOverflow),
        ),
        // LDI 7; STOR DB+0; LOAD DB+0
        (
            &[0o020407, 0o051000, 0o041000, 0, 1],
            3,
            &[7],
            Ending::Running,
        ),
        // BR P+2; LDI 1; LDI 9
        (
            &[0o140002, 0o020401, 0o020411, 0, 1],
            2,
            &[9],
            Ending::Running,
        ),
        // LOAD DB+5: no such word
        (&[0o041005, 0, 1], 1, &[], Ending::Trapped(Trap::Bounds)),
    ];
    for (words, steps, stack, ending) in cases {
        let program = program(alloc, words, 1, &[32767])??;
        let mut session = Flat::open(alloc, &program, &Vec::new(alloc), 16, 0, 0)?;
        for _ in 0..steps {
            assert!(rt; matches!(session.ending, Ending::Running));
            assert!(rt; (session.regs.seg as usize) < program.segments.len());
            session.step(&program);
        }
        assert_eq!(rt; session.ending, ending);
        assert!(rt; session.stack.len() >= 5);
        assert_eq!(rt; &session.stack[5..], stack);
    }
    Ok(())
}

#[test]
fn openings(rt: HostRuntime) -> Result<(), Fail> {
    let alloc = rt.alloc();
    let program = program(alloc, &[0, 0, 1], 1, &[7, 8])??.copy(alloc)?;
    let lines = vec![in alloc;
        Line {
            bytes: Vec::from_slice(alloc, b"A LINE")?
        },
    ]?;
    let small = Flat::open(alloc, &program, &lines, 5, 0, 0);
    assert_eq!(rt;
        small.err(),
        Some(OpenFlat::StackTooSmall { need: 6, given: 5 })
    );
    let session = Flat::open(alloc, &program, &lines, 6, 3, 100)?;
    assert_eq!(rt; session.stack.as_slice(), [7, 8, 0, 0, 0, 0].as_slice());
    assert_eq!(rt; session.extra.as_slice(), [0, 0, 0].as_slice());
    assert_eq!(rt; (session.regs.q, session.regs.p, session.regs.x), (5, 0, 0));
    assert_eq!(rt; session.lines.len(), 1);
    Ok(())
}
