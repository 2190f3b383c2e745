//! Each call and return once over the register stack, with what it leaves worked by hand from the rules; each trap; and a
//! transfer to a segment that is absent three times before it is there.

use super::stacks::{self, Lacking, has_words, numbers};
use Phase::{Entering, Ready, Returning};
use Step::{
    CallAtOnce, Change, Exit, ExitAtOnce, Finish, FinishWithout, Numbers, Pcal, PcalWithout, Scal,
    Stands, Sxit, Words,
};
use hp_cpu::hp_calls::{
    Called, Phase, call_at_once, exit, exit_at_once, finish_transfer, pcal, scal, sxit,
};
use hp_program::Program;
use hp_session::Regs;
use hp_tos::Stack;
use hp_word::{Code, Intrinsic, Trap};
use std::alloc::{AllocError, Global};
use std::process::Abort;
use std::test::Fail;

/// Registers with X 7, Q 1, P 5 and segment 0, user traps and carry on, and CCE: the status is %23000.
const REGS: Regs = Regs {
    x: 7,
    q: 1,
    p: 5,
    seg: 0,
    traps: true,
    right: false,
    overflow: false,
    carry: true,
    code: Code::Equal,
};

/// A stack with room for twelve words, these on it, so many of them in registers.
fn stack_with(alloc: Global, words: &[u16], in_registers: u8) -> Result<Stack, AllocError> {
    stacks::stack_with(alloc, 12, words, in_registers, &[500])
}

/// Two segments. The first has the entries 2, entry 1 of the second, the intrinsic QUIT; the second has the entry 3.
fn program(alloc: Global) -> Result<Option<Program>, AllocError> {
    let first = vec![in alloc; 0, 0, 0, 0, 0o104377, 0o100401, 2, 3]?;
    let second = vec![in alloc; 0, 0, 0, 0, 0, 3, 1]?;
    let segments = vec![in alloc; first, second]?;
    Ok(Program::new(segments, 0, 1, Vec::new(alloc)).ok())
}

/// An instruction with its number, or the end of a transfer, and its answer; or what there is afterwards.
enum Step {
    Pcal(u8, Result<Called, Trap>),
    /// PCAL where a segment is absent, whose number comes first.
    PcalWithout(u8, u8, Result<Called, Trap>),
    Exit(u8, Result<Phase, Trap>),
    Scal(u8, Result<(), Trap>),
    Sxit(u8, Result<(), Trap>),
    CallAtOnce(u8, Result<Called, Trap>),
    ExitAtOnce(u8, Result<Phase, Trap>),
    Finish(Phase),
    /// The end of a transfer that asks for the absent segment with that number.
    FinishWithout(u8, Phase),
    /// What a procedure does to X and the flags.
    Change,
    /// Q, P and the segment, with all other registers as at first.
    Stands(u16, u16, u8),
    Words(&'static [u16]),
    /// How many words stand in registers, and the fills and spills since the first step.
    Numbers(u8, u64, u64),
}

/// What steps are done on, and the fills and spills before the first.
#[derive(Drop)]
struct Session<'a> {
    program: &'a Program,
    regs: Regs,
    stack: Stack,
    fills: u64,
    spills: u64,
}

/// A session with these words on its stack, so many of them in registers, and whether it is in split mode.
fn session_with<'a>(
    alloc: Global,
    program: &'a Program,
    words: &[u16],
    in_registers: u8,
    split: bool,
) -> Result<Session<'a>, AllocError> {
    let mut stack = stack_with(alloc, words, in_registers)?;
    if split {
        stack.split();
    }
    Ok(Session {
        program,
        regs: REGS,
        fills: stack.fills,
        spills: stack.spills,
        stack,
    })
}

/// Does a step, and tells whether it is answered so.
fn is_answered(session: &mut Session, step: &Step) -> bool {
    let program = session.program;
    let (regs, stack) = (&mut session.regs, &mut session.stack);
    match step {
        Pcal(n, answer) => pcal(*n, regs, stack, program) == *answer,
        PcalWithout(seg, n, answer) => {
            pcal(*n, regs, stack, &Lacking { program, seg: *seg }) == *answer
        }
        Exit(n, answer) => exit(*n, 2, regs, stack) == *answer,
        Scal(n, answer) => scal(*n, regs, stack, program) == *answer,
        Sxit(n, answer) => sxit(*n, regs, stack) == *answer,
        CallAtOnce(n, answer) => call_at_once(*n, regs, stack, program) == *answer,
        ExitAtOnce(n, answer) => exit_at_once(*n, 2, regs, stack, program) == *answer,
        Finish(phase) => finish_transfer(*phase, regs, program) == Ok(()),
        FinishWithout(seg, phase) => {
            finish_transfer(*phase, regs, &Lacking { program, seg: *seg }) == Err(*seg)
        }
        Change => {
            regs.x = 9;
            regs.carry = false;
            regs.code = Code::Less;
            true
        }
        Stands(q, p, seg) => {
            *regs
                == Regs {
                    q: *q,
                    p: *p,
                    seg: *seg,
                    ..REGS
                }
        }
        Words(words) => has_words(stack, words),
        Numbers(in_registers, fills, spills) => {
            numbers(stack, session.fills, session.spills) == (*in_registers, *fills, *spills)
        }
    }
}

/// The words of a stack, how many of them stand in registers, whether the mode is split, and the steps that are done.
type Sequence = (&'static [u16], u8, bool, &'static [Step]);

/// Each step is answered so.
fn all_are_answered(rt: &impl Abort, alloc: Global, sequence: &Sequence) -> Result<(), Fail> {
    let program = program(alloc)?.expect(rt, "a valid program");
    let &(words, in_registers, split, steps) = sequence;
    let mut session = session_with(alloc, &program, words, in_registers, split)?;
    for (number, step) in steps.iter().enumerate() {
        assert!(rt; is_answered(&mut session, step), "step {number}");
    }
    Ok(())
}

static LOCAL_CALL: Sequence = (
    &[10, 20, 30],
    2,
    false,
    &[
        Pcal(1, Ok(Called::Went(Ready))),
        Words(&[10, 20, 30, 7, 6, 0o23000, 5]),
        Stands(6, 2, 0),
        Numbers(4, 0, 2),
        // the procedure changes X and the flags, and returns over one word beneath its marker
        Change,
        Exit(1, Ok(Returning { seg: 0, offset: 6 })),
        Words(&[10, 20]),
        Stands(1, 2, 0),
        Numbers(0, 0, 6),
        Finish(Returning { seg: 0, offset: 6 }),
        Stands(1, 6, 0),
    ],
);

#[test]
fn a_local_call_and_its_return(rt: HostRuntime) -> Result<(), Fail> {
    all_are_answered(&rt, rt.alloc(), &LOCAL_CALL)
}

static CALL_OF_ABSENT: Sequence = (
    &[10, 20],
    0,
    false,
    &[
        PcalWithout(1, 2, Ok(Called::Went(Entering { seg: 1, entry: 1 }))),
        Stands(5, 5, 0),
        FinishWithout(1, Entering { seg: 1, entry: 1 }),
        Stands(5, 5, 0),
        FinishWithout(1, Entering { seg: 1, entry: 1 }),
        Stands(5, 5, 0),
        FinishWithout(1, Entering { seg: 1, entry: 1 }),
        Stands(5, 5, 0),
        Finish(Entering { seg: 1, entry: 1 }),
        Stands(5, 3, 1),
        Words(&[10, 20, 7, 6, 0o23000, 4]),
        // the way back, from the second segment into the first
        Exit(0, Ok(Returning { seg: 0, offset: 6 })),
        FinishWithout(0, Returning { seg: 0, offset: 6 }),
        Stands(1, 3, 1),
        FinishWithout(0, Returning { seg: 0, offset: 6 }),
        Stands(1, 3, 1),
        FinishWithout(0, Returning { seg: 0, offset: 6 }),
        Stands(1, 3, 1),
        Finish(Returning { seg: 0, offset: 6 }),
        Stands(1, 6, 0),
        Words(&[10, 20]),
    ],
);

#[test]
fn a_transfer_to_an_absent_segment_is_begun_once(rt: HostRuntime) -> Result<(), Fail> {
    all_are_answered(&rt, rt.alloc(), &CALL_OF_ABSENT)
}

static AT_ONCE: Sequence = (
    &[10, 20],
    1,
    false,
    &[
        CallAtOnce(2, Ok(Called::Went(Ready))),
        Stands(5, 3, 1),
        ExitAtOnce(0, Ok(Ready)),
        Stands(1, 6, 0),
    ],
);

#[test]
fn both_parts_at_once(rt: HostRuntime) -> Result<(), Fail> {
    all_are_answered(&rt, rt.alloc(), &AT_ONCE)
}

static INTRINSIC: Sequence = (
    &[10, 20, 30],
    3,
    false,
    &[
        Pcal(3, Ok(Called::Gate(Intrinsic::Quit))),
        Stands(1, 5, 0),
        Words(&[10, 20, 30]),
        Numbers(0, 0, 3),
    ],
);

#[test]
fn an_intrinsic_is_handed_on(rt: HostRuntime) -> Result<(), Fail> {
    all_are_answered(&rt, rt.alloc(), &INTRINSIC)
}

static SUBROUTINE: Sequence = (
    &[10, 20, 30],
    3,
    true,
    &[
        Scal(1, Ok(())),
        Words(&[10, 20, 30, 6]),
        Stands(1, 2, 0),
        Numbers(1, 0, 3),
        Sxit(2, Ok(())),
        Words(&[10]),
        Stands(1, 6, 0),
        Numbers(0, 0, 4),
    ],
);

#[test]
fn a_subroutine_and_its_return(rt: HostRuntime) -> Result<(), Fail> {
    all_are_answered(&rt, rt.alloc(), &SUBROUTINE)
}

/// The words of a stack, three of them in registers, whether the mode is split, Q, and an instruction that traps.
type Trapped = (&'static [u16], bool, u16, Step);

static TRAPS: [Trapped; 16] = [
    (&[10, 20, 30], false, 1, Pcal(0, Err(Trap::BadEntry))),
    (&[10, 20, 30], false, 1, Pcal(4, Err(Trap::BadEntry))),
    (&[10, 20, 30], true, 1, Pcal(3, Err(Trap::Mode))),
    (&[10, 20, 30], true, 1, Pcal(0, Err(Trap::Mode))),
    (
        &[1, 2, 3, 4, 5, 6, 7, 8, 9],
        false,
        1,
        Pcal(1, Err(Trap::StackOverflow)),
    ),
    (
        &[1, 2, 3, 4, 7, 6, 512, 4],
        true,
        7,
        Exit(0, Err(Trap::Mode)),
    ),
    (
        &[1, 2, 3, 4, 7, 6, 512, 4],
        false,
        8,
        Exit(0, Err(Trap::Bounds)),
    ),
    (
        &[1, 2, 3, 4, 7, 6, 512, 4],
        false,
        2,
        Exit(0, Err(Trap::Bounds)),
    ),
    (
        &[1, 2, 3, 4, 7, 6, 514, 4],
        false,
        7,
        Exit(0, Err(Trap::BadEntry)),
    ),
    (
        &[1, 2, 3, 4, 7, 6, 512, 4],
        false,
        7,
        Exit(5, Err(Trap::StackUnderflow)),
    ),
    (
        &[1, 2, 3, 4, 7, 6, 512, 3],
        false,
        7,
        Exit(0, Err(Trap::StackUnderflow)),
    ),
    (&[10, 20, 30], false, 1, Scal(0, Err(Trap::BadEntry))),
    (&[10, 20, 30], false, 1, Scal(2, Err(Trap::BadEntry))),
    (&[10, 20, 30], false, 1, Scal(3, Err(Trap::BadEntry))),
    (
        &[1, 2, 3, 4, 5, 6, 7, 8, 9, 10, 11, 12],
        false,
        1,
        Scal(1, Err(Trap::StackOverflow)),
    ),
    (&[10, 20, 30], false, 1, Sxit(3, Err(Trap::StackUnderflow))),
];

/// Whether an instruction traps so, leaves the words and all registers, R too, and counts the flush.
fn is_trapped(alloc: Global, program: &Program, trapped: &Trapped) -> Result<bool, AllocError> {
    let (words, split, q, step) = trapped;
    let mut session = session_with(alloc, program, words, 3, *split)?;
    let regs = Regs {
        q: *q,
        right: true,
        ..REGS
    };
    session.regs = regs;
    Ok(
        is_answered(&mut session, step)
            && session.regs == regs
            && has_words(&session.stack, words)
            && numbers(&session.stack, session.fills, session.spills) == (0, 0, 3),
    )
}

#[test]
fn traps_leave_the_words_and_count_the_flush(rt: HostRuntime) -> Result<(), Fail> {
    let program = program(rt.alloc())?.expect(&rt, "a valid program");
    for (number, trapped) in TRAPS.iter().enumerate() {
        assert!(rt; is_trapped(rt.alloc(), &program, trapped)?, "trap {number}");
    }
    Ok(())
}
