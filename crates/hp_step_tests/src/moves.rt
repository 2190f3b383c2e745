//! Steps of each move over the register stack, with what they leave worked by hand from the rules; each trap; and a move that is
//! cut after each element.
use super::stacks::{self, has_words, numbers};
use hp_cpu::hp_moves::{MoveStep, move_op};
use hp_instr::{Group, decode, group_of};
use hp_program::Program;
use hp_session::Regs;
use hp_tos::Stack;
use hp_word::{Code, Trap};
use std::alloc::{AllocError, Global};
use std::process::Abort;
use std::test::Fail;

/// Registers with P 4, all flags off, and CCE.
const REGS: Regs = Regs {
    x: 3,
    q: 1,
    p: 4,
    seg: 0,
    traps: true,
    right: false,
    overflow: false,
    carry: false,
    code: Code::Equal,
};

/// A stack with room for twelve words, these on it, so many of them in registers.
fn stack_with(alloc: Global, words: &[u16], in_registers: u8) -> Result<Stack, AllocError> {
    stacks::stack_with(alloc, 12, words, in_registers, &[0x5152])
}

/// A program of one segment, whose first words have the bytes `ABCD`.
fn program(alloc: Global) -> Result<Option<Program>, AllocError> {
    let words = vec![in alloc; 0x4142, 0x4344, 0, 0, 1]?;
    let segments = vec![in alloc; words]?;
    Ok(Program::new(segments, 0, 1, Vec::new(alloc)).ok())
}

/// Does a step of the instruction of a word; none where it is none of the group.
fn done(
    word: u16,
    regs: &mut Regs,
    stack: &mut Stack,
    program: &Program,
) -> Option<Result<MoveStep, Trap>> {
    let instruction = decode(word);
    if group_of(instruction) == Group::Move {
        Some(move_op(instruction, regs, stack, program))
    } else {
        None
    }
}

/// A word, the words of a stack before it and how many of them stand in registers; the words afterwards, whether the move is
/// over, the numbers, and carry and code.
type Done = (
    u16,
    &'static [u16],
    u8,
    &'static [u16],
    MoveStep,
    (u8, u64, u64),
    (bool, Code),
);

/// Whether a step leaves what its line says.
fn is_done(alloc: Global, program: &Program, case: &Done) -> Result<bool, AllocError> {
    let &(word, before, in_registers, after, step, wanted, (carry, code)) = case;
    let mut stack = stack_with(alloc, before, in_registers)?;
    let mut regs = REGS;
    let (fills, spills) = (stack.fills, stack.spills);
    let answer = done(word, &mut regs, &mut stack, program);
    let p = if step == MoveStep::Moved { 5 } else { 4 };
    Ok(
        answer == Some(Ok(step))
            && has_words(&stack, after)
            && regs
                == (Regs {
                    p,
                    carry,
                    code,
                    ..REGS
                })
            && numbers(&stack, fills, spills) == wanted,
    )
}

static MOVES: [Done; 12] = [
    // MOVE from data: onward, with count 0, and downwards
    (
        0o034400,
        &[10, 20, 30, 0, 2, 2],
        0,
        &[30, 20, 30, 1, 3, 1],
        MoveStep::Moving,
        (3, 3, 0),
        (false, Code::Equal),
    ),
    (
        0o034400,
        &[10, 5, 900, 0],
        0,
        &[10, 5],
        MoveStep::Moved,
        (1, 3, 0),
        (false, Code::Equal),
    ),
    (
        0o034400,
        &[10, 20, 5, 900, 0],
        4,
        &[10, 20, 5],
        MoveStep::Moved,
        (2, 0, 0),
        (false, Code::Equal),
    ),
    (
        0o034400,
        &[10, 20, 30, 1, 2, 65535],
        4,
        &[10, 30, 30, 0, 1, 0],
        MoveStep::Moving,
        (4, 0, 0),
        (false, Code::Equal),
    ),
    // MOVE from code
    (
        0o034401,
        &[10, 20, 1, 1, 1],
        1,
        &[10, 0x4344, 2, 2, 0],
        MoveStep::Moving,
        (3, 2, 0),
        (false, Code::Equal),
    ),
    // MVB from data and from code
    (
        0o035000,
        &[0x4142, 0, 3, 0, 1],
        2,
        &[0x4142, 0x41, 4, 1, 0],
        MoveStep::Moving,
        (3, 1, 0),
        (false, Code::Equal),
    ),
    (
        0o035001,
        &[0x2020, 0, 3, 1],
        3,
        &[0x4420, 1, 4, 0],
        MoveStep::Moving,
        (3, 0, 0),
        (false, Code::Equal),
    ),
    // MVBW: a letter as it stands, one that becomes a capital, a byte of another class, one before a bad target
    (
        0o035402,
        &[0x4162, 0, 2, 1],
        0,
        &[0x4162, 0x6200, 3, 2],
        MoveStep::Moving,
        (2, 2, 0),
        (false, Code::Equal),
    ),
    (
        0o035406,
        &[0x4162, 0, 2, 1],
        1,
        &[0x4162, 0x4200, 3, 2],
        MoveStep::Moving,
        (2, 1, 0),
        (false, Code::Equal),
    ),
    (
        0o035402,
        &[0x3162, 0, 2, 0],
        3,
        &[0x3162, 0, 2],
        MoveStep::Moved,
        (2, 0, 0),
        (false, Code::Equal),
    ),
    (
        0o035401,
        &[0x4162, 40000, 0],
        0,
        &[0x4162, 40000],
        MoveStep::Moved,
        (1, 2, 0),
        (false, Code::Equal),
    ),
    (
        0o035403,
        &[0x3162, 0, 2, 0],
        0,
        &[0x3162, 0x3100, 3, 1],
        MoveStep::Moving,
        (2, 2, 0),
        (false, Code::Equal),
    ),
];

static SCANS: [Done; 13] = [
    // SCW: a byte passed, one that is the left half, and another
    (
        0o036000,
        &[0x2020, 0, 0x4120],
        0,
        &[0x2020, 1, 0x4120],
        MoveStep::Moving,
        (2, 2, 0),
        (false, Code::Equal),
    ),
    (
        0o036000,
        &[0x4120, 0, 0x4120],
        1,
        &[0x4120, 0],
        MoveStep::Moved,
        (1, 1, 0),
        (true, Code::Equal),
    ),
    (
        0o036000,
        &[0x4220, 0, 0x4120],
        2,
        &[0x4220, 0],
        MoveStep::Moved,
        (1, 0, 0),
        (false, Code::Equal),
    ),
    // SCU: a byte passed, the left half, the right one, and equal halves
    (
        0o036400,
        &[0x2020, 1, 0x4142],
        0,
        &[0x2020, 2, 0x4142],
        MoveStep::Moving,
        (2, 2, 0),
        (false, Code::Equal),
    ),
    (
        0o036400,
        &[0x4120, 0, 0x4142],
        0,
        &[0x4120, 0],
        MoveStep::Moved,
        (1, 2, 0),
        (true, Code::Equal),
    ),
    (
        0o036400,
        &[0x4220, 0, 0x4142],
        0,
        &[0x4220, 0],
        MoveStep::Moved,
        (1, 2, 0),
        (false, Code::Equal),
    ),
    (
        0o036400,
        &[0x4120, 0, 0x4141],
        0,
        &[0x4120, 0],
        MoveStep::Moved,
        (1, 2, 0),
        (false, Code::Equal),
    ),
    // CMPB: equal bytes upwards and downwards, unequal ones, unsigned, and count 0
    (
        0o037000,
        &[0x4100, 0x4100, 0, 2, 2],
        0,
        &[0x4100, 0x4100, 1, 3, 1],
        MoveStep::Moving,
        (3, 3, 0),
        (false, Code::Equal),
    ),
    (
        0o037000,
        &[0x4100, 0x4100, 1, 3, 65534],
        3,
        &[0x4100, 0x4100, 0, 2, 65535],
        MoveStep::Moving,
        (3, 0, 0),
        (false, Code::Equal),
    ),
    (
        0o037000,
        &[0x8000, 0x7f00, 0, 2, 1],
        0,
        &[0x8000, 0x7f00],
        MoveStep::Moved,
        (0, 3, 0),
        (false, Code::Greater),
    ),
    (
        0o037000,
        &[0x8000, 0x7f00, 2, 0, 1],
        4,
        &[0x8000, 0x7f00],
        MoveStep::Moved,
        (1, 0, 0),
        (false, Code::Less),
    ),
    (
        0o037001,
        &[0x4100, 0, 1, 1],
        0,
        &[0x4100],
        MoveStep::Moved,
        (0, 3, 0),
        (false, Code::Less),
    ),
    (
        0o037000,
        &[7, 900, 900, 0],
        0,
        &[7],
        MoveStep::Moved,
        (0, 3, 0),
        (false, Code::Equal),
    ),
];

/// Each step leaves what its line says.
fn all_are_done(rt: &impl Abort, alloc: Global, cases: &[Done]) -> Result<(), Fail> {
    let program = program(alloc)?.expect(rt, "a valid program");
    for case in cases {
        assert!(rt; is_done(alloc, &program, case)?, "{:o}", case.0);
    }
    Ok(())
}

#[test]
fn words_and_bytes_are_moved(rt: HostRuntime) -> Result<(), Fail> {
    all_are_done(&rt, rt.alloc(), &MOVES)
}

#[test]
fn bytes_are_passed_and_compared(rt: HostRuntime) -> Result<(), Fail> {
    all_are_done(&rt, rt.alloc(), &SCANS)
}

/// A word, the words of a stack, how many stand in registers, the trap, and the numbers.
type Trapped = (u16, &'static [u16], u8, Trap, (u8, u64, u64));

static TRAPS: [Trapped; 10] = [
    (0o034400, &[1, 2], 1, Trap::StackUnderflow, (1, 0, 0)),
    (0o036000, &[1], 0, Trap::StackUnderflow, (0, 0, 0)),
    (0o034400, &[10, 0, 9, 1], 1, Trap::Bounds, (3, 2, 0)),
    (0o034400, &[10, 9, 0, 1], 4, Trap::Bounds, (4, 0, 0)),
    // code before target in a move, the first byte before the code in a comparison
    (0o034401, &[10, 9, 5, 1], 0, Trap::CodeBounds, (3, 3, 0)),
    (0o037001, &[10, 900, 10, 1], 0, Trap::Bounds, (3, 3, 0)),
    (0o037001, &[10, 0, 10, 1], 0, Trap::CodeBounds, (3, 3, 0)),
    (0o035001, &[10, 0, 10, 1], 2, Trap::CodeBounds, (3, 1, 0)),
    (0o035402, &[0x4162, 40000, 0], 2, Trap::Bounds, (2, 0, 0)),
    (0o036400, &[10, 900, 10], 0, Trap::Bounds, (2, 2, 0)),
];

/// Whether an instruction traps so, and leaves the words and all registers.
fn is_trapped(alloc: Global, program: &Program, trapped: &Trapped) -> Result<bool, AllocError> {
    let &(word, words, in_registers, trap, wanted) = trapped;
    let mut stack = stack_with(alloc, words, in_registers)?;
    let mut regs = REGS;
    let (fills, spills) = (stack.fills, stack.spills);
    let answer = done(word, &mut regs, &mut stack, program);
    Ok(
        answer == Some(Err(trap))
            && regs == REGS
            && has_words(&stack, words)
            && numbers(&stack, fills, spills) == wanted,
    )
}

#[test]
fn traps_leave_the_words(rt: HostRuntime) -> Result<(), Fail> {
    let program = program(rt.alloc())?.expect(&rt, "a valid program");
    for trapped in &TRAPS {
        assert!(rt;
            is_trapped(rt.alloc(), &program, trapped)?,
            "{:o}",
            trapped.0
        );
    }
    Ok(())
}

/// The words of a move of three, after each of its steps.
static CUTS: [&[u16]; 5] = [
    &[11, 12, 13, 0, 0, 0, 3, 0, 3],
    &[11, 12, 13, 11, 0, 0, 4, 1, 2],
    &[11, 12, 13, 11, 12, 0, 5, 2, 1],
    &[11, 12, 13, 11, 12, 13, 6, 3, 0],
    &[11, 12, 13, 11, 12, 13, 6],
];

/// Whether a step of a move of three, of which so many elements were moved, comes from these words to those. As many words stand in
/// registers as elements were moved.
fn goes_on(
    alloc: Global,
    program: &Program,
    before: &[u16],
    moved: u8,
    after: &[u16],
) -> Result<bool, AllocError> {
    let mut stack = stack_with(alloc, before, moved)?;
    let mut regs = REGS;
    let (step, p) = if moved < 3 {
        (MoveStep::Moving, 4)
    } else {
        (MoveStep::Moved, 5)
    };
    let answer = done(0o034400, &mut regs, &mut stack, program);
    Ok(answer == Some(Ok(step)) && has_words(&stack, after) && regs == (Regs { p, ..REGS }))
}

#[test]
fn a_move_goes_on_after_each_element_from_its_stack_alone(rt: HostRuntime) -> Result<(), Fail> {
    let program = program(rt.alloc())?.expect(&rt, "a valid program");
    for k in 0..4usize {
        let (before, after) = (CUTS[k], CUTS[k + 1]);
        assert!(rt;
            goes_on(rt.alloc(), &program, before, k as u8, after)?,
            "{k}"
        );
    }
    Ok(())
}

#[test]
fn data_are_the_extra_segment_in_split_mode(rt: HostRuntime) -> Result<(), Fail> {
    let program = program(rt.alloc())?.expect(&rt, "a valid program");
    let mut stack = stack_with(rt.alloc(), &[1, 0, 1], 0)?;
    stack.split();
    let mut regs = REGS;
    // MVB from byte 0 to byte 1
    let answer = done(0o035000, &mut regs, &mut stack, &program);
    assert!(rt; answer == Some(Ok(MoveStep::Moving)));
    assert!(rt; stack.read_db(0) == Ok(0x5151));
    assert!(rt; has_words(&stack, &[2, 1, 0]));
    assert!(rt; done(0o020401, &mut regs, &mut stack, &program).is_none());
    Ok(())
}
