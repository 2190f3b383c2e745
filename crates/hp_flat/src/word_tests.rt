//! One step of every word, from three sessions, against sums worked out apart from this program.

ghost use Rattle.std.specs.Prelude.{◌≤◌, length};

use super::*;
use crate::step_tests::{registers, roomy};
use hp_word::{Code, Ending, Trap};
use std::alloc::Global;
use std::test::Fail;

/// A sum into which another field has gone.
fn mixed(sum: u32, field: u32) -> u32 {
    sum.wrapping_mul(1_000_003).wrapping_add(field)
}

/// A number for each ending that a step of these sessions can leave.
fn ending_number(ending: Ending) -> u32 {
    match ending {
        Ending::Running => 0,
        Ending::Terminated => 1,
        Ending::Quit(_) => 2,
        Ending::Trapped(trap) => match trap {
            Trap::IntegerOverflow => 11,
            Trap::DivideByZero => 12,
            Trap::Bounds => 13,
            Trap::StackOverflow => 14,
            Trap::StackUnderflow => 15,
            Trap::Illegal => 16,
            Trap::CodeBounds => 17,
            Trap::BadEntry => 18,
            Trap::OutputLimit => 19,
            Trap::Mode => 20,
        },
    }
}

/// A sum into which all of a session's registers and words have gone.
fn with_session(sum: u32, session: &Flat) -> u32 {
    let regs = session.regs;
    let code = match regs.code {
        Code::Greater => 0,
        Code::Less => 1,
        Code::Equal => 2,
    };
    let mut sum = sum;
    for field in [
        regs.seg as u32,
        regs.p as u32,
        regs.right as u32,
        regs.x as u32,
        regs.q as u32,
        regs.traps as u32,
        regs.overflow as u32,
        regs.carry as u32,
        code,
        session.split as u32,
        ending_number(session.ending),
    ] {
        sum = mixed(sum, field);
    }
    for words in [&session.stack, &session.extra] {
        sum = mixed(sum, (words.len() % 65536) as u32);
        for &word in words {
            sum = mixed(sum, word as u32);
        }
    }
    sum
}

/// A session before its step: the registers, the mode, the words of stack and extra segment, and STACK.
#[derive(Drop)]
struct Prepared<'a> {
    regs: Regs,
    split: bool,
    stack: &'a [u16],
    extra: &'a [u16],
    limit: u16,
}

/// The sum over what one step leaves, for each word of a major as the first of a segment of two words.
fn sum_of_major(alloc: Global, prepared: &Prepared, major: u16) -> Result<u32, Fail>
    requires { length prepared.now.stack.now ≤ prepared.now.limit }
{
    let mut sum = 0;
    for low in 0..4096u16 {
        let word = major % 16 * 4096 + low % 4096;
        let first = vec![in alloc; word, 0]?;
        let other = vec![in alloc; 0, 0, 1]?;
        let program = Program::new(vec![in alloc; first, other]?, 1, 1, Vec::new(alloc))?;
        let mut session = Flat {
            regs: prepared.regs,
            split: prepared.split,
            stack: roomy(alloc, prepared.stack, prepared.limit as usize)?,
            extra: Vec::from_slice(alloc, prepared.extra)?,
            lines: Vec::new(alloc),
            next_line: 0,
            printed: Vec::new(alloc),
            ending: Ending::Running,
            stack_limit: prepared.limit,
            room: 0,
        };
        if (session.regs.seg as usize) < program.segments.len() {
            session.step(&program);
        }
        sum = with_session(sum, &session);
    }
    Ok(sum)
}

/// The sums for each major, worked out by another program from the instruction table.
#[test]
fn one_step_of_every_word(rt: HostRuntime) -> Result<(), Fail> {
    let alloc = rt.alloc();
    let regs = Regs {
        x: 3,
        q: 9,
        overflow: false,
        carry: false,
        code: Code::Equal,
        ..registers(0)
    };
    // a marker at 6 to 9, with room left; in split mode with R at 1, both flags on and no room; an empty stack
    let states = [
        Prepared {
            regs,
            split: false,
            stack: &[
                5, 32767, 40000, 7, 1, 2, 65535, 300, 10241, 6, 24930, 12594, 3, 2,
            ],
            extra: &[7, 24930, 65535],
            limit: 20,
        },
        Prepared {
            regs: Regs {
                x: 65535,
                q: 5,
                right: true,
                overflow: true,
                carry: true,
                code: Code::Less,
                ..regs
            },
            split: true,
            stack: &[2, 1, 9, 4, 0, 4],
            extra: &[12849, 16706, 3, 0, 65535],
            limit: 6,
        },
        Prepared {
            regs: Regs {
                x: 0,
                q: 65535,
                traps: false,
                code: Code::Greater,
                ..regs
            },
            split: false,
            stack: &[],
            extra: &[],
            limit: 1,
        },
    ];
    let wanted: [[u32; 16]; 3] = [
        [
            59203680, 431606455, 4171598694, 4113214111, 2176268115, 1591363022, 1835273095,
            7266698, 4141637001, 4032619087, 1378871351, 527015254, 643095168, 3002897467,
            1213655010, 2693346847,
        ],
        [
            3450014583, 3966271483, 2544570594, 3913594426, 320868163, 430520573, 406054833,
            1770240061, 3938730242, 2433303158, 2644977858, 2618923531, 680844599, 3805662334,
            2332094055, 4281637420,
        ],
        [
            4145451098, 3401688192, 1211856434, 2466027230, 4069589111, 946931712, 1152733184,
            1152733184, 1152733184, 1152733184, 3851059200, 3047436288, 3222073612, 3851059200,
            1420607488, 2337630976,
        ],
    ];
    for (prepared, sums) in states.iter().zip(wanted) {
        assert!(rt; prepared.stack.len() <= prepared.limit as usize);
        for (major, sum) in sums.iter().enumerate() {
            assert_eq!(rt;
                sum_of_major(alloc, prepared, (major % 16) as u16)?,
                *sum,
                "major {major}"
            );
        }
    }
    Ok(())
}
