//! Each instruction once over the register stack, with what it leaves worked by hand from the rules; and each trap.
use super::stacks::{self, has_words, numbers};
use hp_cpu::hp_fields::field_op;
use hp_instr::{Group, decode, group_of};
use hp_session::Regs;
use hp_tos::Stack;
use hp_word::{Code, Trap};
use std::alloc::{AllocError, Global};
use std::test::Fail;

/// Registers with X 3, P 10, all flags off, and CCE.
const REGS: Regs = Regs {
    x: 3,
    q: 0,
    p: 10,
    seg: 1,
    traps: true,
    right: false,
    overflow: false,
    carry: false,
    code: Code::Equal,
};

/// A stack with room for eight words, these on it, so many of them in registers.
fn stack_with(alloc: Global, words: &[u16], in_registers: u8) -> Result<Stack, AllocError> {
    stacks::stack_with(alloc, 8, words, in_registers, &[])
}

/// Does the instruction of a word; none where it is none of the group.
fn done(word: u16, regs: &mut Regs, stack: &mut Stack) -> Option<Result<(), Trap>> {
    let instruction = decode(word);
    if group_of(instruction) == Group::Field {
        Some(field_op(instruction, regs, stack))
    } else {
        None
    }
}

/// A word, the words of a stack before it and how many of them stand in registers; the words afterwards, X, the numbers, and
/// the code.
type Done = (
    u16,
    &'static [u16],
    u8,
    &'static [u16],
    u16,
    (u8, u64, u64),
    Code,
);

static CASES: [Done; 27] = [
    (0o010001, &[1], 0, &[2], 3, (1, 1, 0), Code::Greater),
    (0o010101, &[32768], 1, &[49152], 3, (1, 0, 0), Code::Less),
    (0o010204, &[4097], 0, &[16], 3, (1, 1, 0), Code::Greater),
    (0o010301, &[32768], 0, &[16384], 3, (1, 1, 0), Code::Greater),
    (0o010401, &[32769], 0, &[3], 3, (1, 1, 0), Code::Greater),
    (0o010501, &[1], 0, &[32768], 3, (1, 1, 0), Code::Less),
    (
        0o020407,
        &[1, 2, 3, 4],
        4,
        &[1, 2, 3, 4, 7],
        3,
        (4, 0, 1),
        Code::Equal,
    ),
    (0o021011, &[], 0, &[], 9, (0, 0, 0), Code::Equal),
    (0o021405, &[4], 0, &[], 3, (0, 1, 0), Code::Less),
    (0o022002, &[5], 0, &[7], 3, (1, 1, 0), Code::Greater),
    (0o022406, &[5], 0, &[65535], 3, (1, 1, 0), Code::Less),
    (0o023003, &[65535], 0, &[65533], 3, (1, 1, 0), Code::Less),
    (0o023402, &[7], 0, &[3], 3, (1, 1, 0), Code::Greater),
    (0o024001, &[], 0, &[65535], 3, (1, 0, 0), Code::Equal),
    (0o024401, &[], 0, &[], 65535, (0, 0, 0), Code::Equal),
    (0o025001, &[0], 1, &[], 3, (0, 0, 0), Code::Greater),
    (0o025504, &[4660], 0, &[2], 3, (1, 1, 0), Code::Greater),
    (
        0o026104,
        &[4660, 15],
        1,
        &[7988],
        3,
        (1, 1, 0),
        Code::Greater,
    ),
    (0o026414, &[10], 0, &[8], 3, (1, 1, 0), Code::Greater),
    (0o027001, &[2], 0, &[3], 3, (1, 1, 0), Code::Greater),
    (0o027777, &[65535], 0, &[65280], 3, (1, 1, 0), Code::Less),
    (0o032002, &[], 0, &[], 5, (0, 0, 0), Code::Equal),
    (0o032404, &[], 0, &[], 65535, (0, 0, 0), Code::Equal),
    (0o033006, &[1, 2], 0, &[1, 2], 3, (0, 0, 0), Code::Equal),
    (0o033000, &[1, 7], 0, &[1], 3, (0, 1, 0), Code::Equal),
    (
        0o033403,
        &[1, 2, 3],
        3,
        &[1, 2, 3, 0, 0, 0],
        3,
        (4, 0, 2),
        Code::Equal,
    ),
    (0o034003, &[1, 2, 3, 4], 2, &[1], 3, (0, 0, 0), Code::Equal),
];

/// Whether an instruction passes P, and leaves what its line says.
fn is_done(alloc: Global, case: &Done) -> Result<bool, AllocError> {
    let &(word, before, in_registers, after, x, wanted, code) = case;
    let mut stack = stack_with(alloc, before, in_registers)?;
    let mut regs = REGS;
    let (fills, spills) = (stack.fills, stack.spills);
    let answer = done(word, &mut regs, &mut stack);
    Ok(
        answer == Some(Ok(()))
            && (regs.x, regs.code, regs.p) == (x, code, 11)
            && has_words(&stack, after)
            && numbers(&stack, fills, spills) == wanted,
    )
}

#[test]
fn each_instruction_passes_p_and_moves_its_words(rt: HostRuntime) -> Result<(), Fail> {
    for case in &CASES {
        assert!(rt; is_done(rt.alloc(), case)?, "{:o}", case.0);
    }
    Ok(())
}

/// A word, the words of a stack and how many of them stand in registers, the trap, and the numbers.
type Trapped = (u16, &'static [u16], u8, Trap, (u8, u64, u64));

static TRAPS: [Trapped; 9] = [
    (0o022001, &[32767], 0, Trap::IntegerOverflow, (1, 1, 0)),
    (0o023400, &[1], 0, Trap::DivideByZero, (1, 1, 0)),
    (0o033000, &[1, 8], 0, Trap::StackOverflow, (1, 1, 0)),
    (0o033007, &[1, 2], 1, Trap::StackOverflow, (1, 0, 0)),
    (0o033406, &[1, 2, 3], 1, Trap::StackOverflow, (1, 0, 0)),
    (
        0o020401,
        &[1, 2, 3, 4, 5, 6, 7, 8],
        3,
        Trap::StackOverflow,
        (3, 0, 0),
    ),
    (0o034002, &[1], 1, Trap::StackUnderflow, (1, 0, 0)),
    (0o026104, &[1], 0, Trap::StackUnderflow, (0, 0, 0)),
    (0o020002, &[1], 1, Trap::Mode, (1, 0, 0)),
];

/// Whether an instruction traps so, and leaves the words and all registers.
fn is_trapped(alloc: Global, trapped: &Trapped) -> Result<bool, AllocError> {
    let &(word, words, in_registers, trap, wanted) = trapped;
    let mut stack = stack_with(alloc, words, in_registers)?;
    let mut regs = REGS;
    let (fills, spills) = (stack.fills, stack.spills);
    let answer = done(word, &mut regs, &mut stack);
    Ok(
        answer == Some(Err(trap))
            && regs == REGS
            && has_words(&stack, words)
            && numbers(&stack, fills, spills) == wanted,
    )
}

#[test]
fn each_trap_leaves_the_words(rt: HostRuntime) -> Result<(), Fail> {
    for trapped in &TRAPS {
        assert!(rt; is_trapped(rt.alloc(), trapped)?, "{:o}", trapped.0);
    }
    Ok(())
}

/// A word, what is answered to it, and whether the mode is split afterwards.
type Moded = (u16, Option<Result<(), Trap>>, bool);

/// Instructions one after another: SPLT twice, JOIN, LDI 5, and a pair, which is none of the group.
static MODES: [Moded; 5] = [
    (0o020001, Some(Ok(())), true),
    (0o020001, Some(Err(Trap::Mode)), true),
    (0o020002, Some(Ok(())), false),
    (0o020405, Some(Ok(())), false),
    (0o000000, None, false),
];

#[test]
fn the_mode_is_split_once_and_joined_once(rt: HostRuntime) -> Result<(), Fail> {
    let mut stack = stack_with(rt.alloc(), &[1, 2], 1)?;
    let mut regs = REGS;
    for (word, answer, split) in &MODES {
        let answered = done(*word, &mut regs, &mut stack) == *answer;
        assert!(rt; answered && stack.is_split() == *split, "{word:o}");
    }
    assert!(rt; (regs.p, stack.words(), stack.top.len()) == (13, 3, 2));
    Ok(())
}
