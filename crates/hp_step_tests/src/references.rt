//! Each instruction once over the register stack, with what it leaves worked by hand from the rules; each mode, and each trap.
use super::stacks::{self, has_words, numbers};
use hp_cpu::hp_memref::memory_op;
use hp_instr::{Group, decode, group_of};
use hp_program::Program;
use hp_session::Regs;
use hp_tos::Stack;
use hp_word::{Code, Trap};
use std::alloc::{AllocError, Global};
use std::process::Abort;
use std::test::Fail;

/// Registers with X 3, Q 1, P 4, all flags off, and CCE.
const REGS: Regs = Regs {
    x: 3,
    q: 1,
    p: 4,
    seg: 0,
    traps: true,
    right: false,
    overflow: false,
    carry: false,
    code: Code::Equal,
};

/// A stack with room for eight words, these on it, so many of them in registers; the extra segment has the words 500 and 501.
fn stack_with(alloc: Global, words: &[u16], in_registers: u8) -> Result<Stack, AllocError> {
    stacks::stack_with(alloc, 8, words, in_registers, &[500, 501])
}

/// A program of one segment, whose words at the offsets 2 and 6 are 3 and 668.
fn program(alloc: Global) -> Result<Option<Program>, AllocError> {
    let words = vec![in alloc; 0, 0, 3, 0, 0, 0, 668, 0, 0, 1]?;
    let segments = vec![in alloc; words]?;
    Ok(Program::new(segments, 0, 1, Vec::new(alloc)).ok())
}

/// Does the instruction of a word; none where it is none of the group.
fn done(
    word: u16,
    regs: &mut Regs,
    stack: &mut Stack,
    program: &Program,
) -> Option<Result<(), Trap>> {
    let instruction = decode(word);
    if group_of(instruction) == Group::Reference {
        Some(memory_op(instruction, regs, stack, program))
    } else {
        None
    }
}

/// A word, the words of a stack before it and how many of them stand in registers; the words afterwards, X and P, the numbers,
/// and the code.
type Done = (
    u16,
    &'static [u16],
    u8,
    &'static [u16],
    (u16, u16),
    (u8, u64, u64),
    Code,
);

static REFERENCES: [Done; 26] = [
    (
        0o041001,
        &[10, 20],
        0,
        &[10, 20, 20],
        (3, 5),
        (1, 0, 0),
        Code::Equal,
    ),
    (
        0o041002,
        &[10, 20, 30],
        2,
        &[10, 20, 30, 30],
        (3, 5),
        (3, 0, 0),
        Code::Equal,
    ),
    (
        0o041701,
        &[10, 20],
        0,
        &[10, 20, 10],
        (3, 5),
        (1, 0, 0),
        Code::Equal,
    ),
    (
        0o041401,
        &[10, 20, 30],
        0,
        &[10, 20, 30, 30],
        (3, 5),
        (1, 0, 0),
        Code::Equal,
    ),
    (
        0o041601,
        &[10, 20],
        0,
        &[10, 20, 10],
        (3, 5),
        (1, 0, 0),
        Code::Equal,
    ),
    (
        0o043000,
        &[1, 20],
        0,
        &[1, 20, 20],
        (3, 5),
        (1, 0, 0),
        Code::Equal,
    ),
    (
        0o045000,
        &[1, 2, 3, 44],
        4,
        &[1, 2, 3, 44, 44],
        (3, 5),
        (4, 0, 1),
        Code::Equal,
    ),
    (
        0o047000,
        &[65535, 20, 30],
        0,
        &[65535, 20, 30, 30],
        (3, 5),
        (1, 0, 0),
        Code::Equal,
    ),
    (
        0o051000,
        &[10, 20],
        0,
        &[20],
        (3, 5),
        (0, 1, 0),
        Code::Equal,
    ),
    (
        0o051700,
        &[10, 20],
        1,
        &[10],
        (3, 5),
        (0, 0, 0),
        Code::Equal,
    ),
    (0o061000, &[5, 4], 0, &[5], (3, 5), (0, 1, 0), Code::Less),
    (
        0o071000,
        &[5, 4],
        0,
        &[5, 9],
        (3, 5),
        (1, 1, 0),
        Code::Greater,
    ),
    (
        0o101000,
        &[5, 4],
        0,
        &[5, 65535],
        (3, 5),
        (1, 1, 0),
        Code::Less,
    ),
    (
        0o111000,
        &[5, 4],
        0,
        &[5, 20],
        (3, 5),
        (1, 1, 0),
        Code::Greater,
    ),
    (0o120000, &[65535], 0, &[0], (3, 5), (0, 0, 0), Code::Equal),
    (0o121000, &[0], 1, &[65535], (3, 5), (1, 0, 0), Code::Less),
    (
        0o131001,
        &[10, 20],
        0,
        &[10, 20],
        (20, 5),
        (0, 0, 0),
        Code::Equal,
    ),
    (
        0o150000,
        &[16706],
        0,
        &[16706, 65],
        (3, 5),
        (1, 0, 0),
        Code::Equal,
    ),
    (
        0o154000,
        &[0, 258],
        0,
        &[0, 258, 2],
        (3, 5),
        (1, 0, 0),
        Code::Equal,
    ),
    (
        0o162000,
        &[3, 256, 375],
        0,
        &[3, 375],
        (3, 5),
        (0, 1, 0),
        Code::Equal,
    ),
    (
        0o151000,
        &[1, 2],
        0,
        &[1, 2, 1, 2],
        (3, 5),
        (2, 0, 0),
        Code::Equal,
    ),
    (
        0o157000,
        &[65532, 7, 8, 9],
        4,
        &[65532, 7, 8, 9, 8, 9],
        (3, 5),
        (4, 0, 2),
        Code::Equal,
    ),
    (
        0o161000,
        &[1, 2, 3, 4],
        1,
        &[3, 4],
        (3, 5),
        (0, 1, 0),
        Code::Equal,
    ),
    (
        0o171701,
        &[10, 20],
        0,
        &[10, 20, 0],
        (3, 5),
        (1, 0, 0),
        Code::Equal,
    ),
    (0o171310, &[], 0, &[200], (3, 5), (1, 0, 0), Code::Equal),
    (0o040002, &[], 0, &[668], (3, 5), (1, 0, 0), Code::Equal),
];

static BRANCHES: [Done; 24] = [
    (0o040402, &[], 0, &[3], (3, 5), (1, 0, 0), Code::Equal),
    (0o140003, &[], 0, &[], (3, 7), (0, 0, 0), Code::Equal),
    (0o140405, &[], 0, &[], (3, 65535), (0, 0, 0), Code::Equal),
    (0o142402, &[], 0, &[], (3, 5), (0, 0, 0), Code::Equal),
    (0o142002, &[], 0, &[], (3, 674), (0, 0, 0), Code::Equal),
    (0o141203, &[], 0, &[], (3, 7), (0, 0, 0), Code::Equal),
    (0o141503, &[], 0, &[], (3, 5), (0, 0, 0), Code::Equal),
    (0o011002, &[65535], 0, &[0], (3, 6), (1, 1, 0), Code::Equal),
    (0o011142, &[1], 0, &[0], (3, 2), (1, 1, 0), Code::Equal),
    (0o011202, &[], 0, &[], (4, 5), (0, 0, 0), Code::Equal),
    (0o011302, &[], 0, &[], (2, 5), (0, 0, 0), Code::Equal),
    (0o011403, &[1, 5], 0, &[], (3, 7), (0, 2, 0), Code::Equal),
    (0o011403, &[4, 5], 2, &[], (3, 5), (0, 0, 0), Code::Less),
    (0o011503, &[3], 0, &[], (3, 7), (0, 1, 0), Code::Equal),
    (0o011603, &[3], 1, &[], (3, 5), (0, 0, 0), Code::Equal),
    (0o011703, &[], 0, &[], (3, 5), (0, 0, 0), Code::Equal),
    (0o012003, &[], 0, &[], (3, 7), (0, 0, 0), Code::Equal),
    (0o012103, &[], 0, &[], (3, 5), (0, 0, 0), Code::Equal),
    (0o012203, &[], 0, &[], (3, 7), (0, 0, 0), Code::Equal),
    (
        0o050402,
        &[5, 0, 1, 5],
        0,
        &[5, 0, 1, 5],
        (3, 2),
        (3, 3, 0),
        Code::Equal,
    ),
    (
        0o050402,
        &[6, 0, 1, 5],
        3,
        &[6],
        (3, 5),
        (0, 0, 0),
        Code::Equal,
    ),
    (
        0o054402,
        &[5, 0, 1, 5],
        0,
        &[6],
        (3, 5),
        (0, 3, 0),
        Code::Equal,
    ),
    (
        0o054402,
        &[4, 0, 1, 5],
        1,
        &[5, 0, 1, 5],
        (3, 2),
        (3, 2, 0),
        Code::Equal,
    ),
    (
        0o054402,
        &[2, 0, 65535, 1],
        0,
        &[1, 0, 65535, 1],
        (3, 2),
        (3, 3, 0),
        Code::Equal,
    ),
];

/// Whether an instruction leaves what its line says.
fn is_done(alloc: Global, program: &Program, case: &Done) -> Result<bool, AllocError> {
    let &(word, before, in_registers, after, places, wanted, code) = case;
    let mut stack = stack_with(alloc, before, in_registers)?;
    let mut regs = REGS;
    let (fills, spills) = (stack.fills, stack.spills);
    let answer = done(word, &mut regs, &mut stack, program);
    Ok(
        answer == Some(Ok(()))
            && has_words(&stack, after)
            && (regs.x, regs.p) == places
            && regs.code == code
            && numbers(&stack, fills, spills) == wanted,
    )
}

/// Each instruction leaves what its line says.
fn all_are_done(rt: &impl Abort, alloc: Global, cases: &[Done]) -> Result<(), Fail> {
    let program = program(alloc)?.expect(rt, "a valid program");
    for case in cases {
        assert!(rt; is_done(alloc, &program, case)?, "{:o}", case.0);
    }
    Ok(())
}

#[test]
fn references_in_each_mode(rt: HostRuntime) -> Result<(), Fail> {
    all_are_done(&rt, rt.alloc(), &REFERENCES)
}

#[test]
fn branches_forward_and_back(rt: HostRuntime) -> Result<(), Fail> {
    all_are_done(&rt, rt.alloc(), &BRANCHES)
}

/// A word, the words of a stack and how many of them stand in registers, the trap, and the numbers.
type Trapped = (u16, &'static [u16], u8, Trap, (u8, u64, u64));

static TRAPS: [Trapped; 12] = [
    (0o041002, &[10, 20], 0, Trap::Bounds, (0, 0, 0)),
    (0o041705, &[10], 1, Trap::Bounds, (1, 0, 0)),
    (0o051007, &[10, 20], 0, Trap::Bounds, (1, 1, 0)),
    (0o051000, &[], 0, Trap::StackUnderflow, (0, 0, 0)),
    (0o071000, &[32767, 1], 0, Trap::IntegerOverflow, (1, 1, 0)),
    (0o120000, &[32767], 0, Trap::IntegerOverflow, (0, 0, 0)),
    (
        0o041000,
        &[1, 2, 3, 4, 5, 6, 7, 8],
        2,
        Trap::StackOverflow,
        (2, 0, 0),
    ),
    (0o040310, &[], 0, Trap::CodeBounds, (0, 0, 0)),
    (0o161001, &[1, 2], 0, Trap::Bounds, (2, 2, 0)),
    (0o050402, &[9, 1, 5], 0, Trap::Bounds, (3, 3, 0)),
    (
        0o054402,
        &[32767, 0, 1, 5],
        1,
        Trap::IntegerOverflow,
        (3, 2, 0),
    ),
    (0o011403, &[1], 0, Trap::StackUnderflow, (0, 0, 0)),
];

/// Whether an instruction traps so, and leaves the words and all registers.
fn is_trapped(alloc: Global, program: &Program, trapped: &Trapped) -> Result<bool, AllocError> {
    let &(word, words, in_registers, trap, wanted) = trapped;
    let mut stack = stack_with(alloc, words, in_registers)?;
    let mut regs = REGS;
    let (fills, spills) = (stack.fills, stack.spills);
    let answer = done(word, &mut regs, &mut stack, program);
    Ok(
        answer == Some(Err(trap))
            && regs == REGS
            && has_words(&stack, words)
            && numbers(&stack, fills, spills) == wanted,
    )
}

#[test]
fn traps_leave_the_words(rt: HostRuntime) -> Result<(), Fail> {
    let program = program(rt.alloc())?.expect(&rt, "a valid program");
    for trapped in &TRAPS {
        assert!(rt;
            is_trapped(rt.alloc(), &program, trapped)?,
            "{:o}",
            trapped.0
        );
    }
    Ok(())
}

/// LOAD DB+1, LOAD Q-1, LOAD Q-1 with indirection, STOR DB+0.
static SPLIT: [u16; 4] = [0o041001, 0o041601, 0o043601, 0o051000];

#[test]
fn split_mode_refers_to_the_extra_segment_from_db(rt: HostRuntime) -> Result<(), Fail> {
    let program = program(rt.alloc())?.expect(&rt, "a valid program");
    let mut stack = stack_with(rt.alloc(), &[1, 20], 0)?;
    stack.split();
    let mut regs = REGS;
    for word in &SPLIT {
        let answer = done(*word, &mut regs, &mut stack, &program);
        assert!(rt; answer == Some(Ok(())), "{word:o}");
    }
    assert!(rt; has_words(&stack, &[1, 20, 501, 1]));
    assert!(rt; (stack.read_db(0), stack.read_db(1)) == (Ok(501), Ok(501)));
    // a cell of 501 leads past the extra segment
    let answer = done(0o043000, &mut regs, &mut stack, &program);
    assert!(rt; answer == Some(Err(Trap::Bounds)));
    assert!(rt; (regs.p, stack.top.len()) == (8, 2));
    assert!(rt; done(0o020401, &mut regs, &mut stack, &program).is_none());
    Ok(())
}
