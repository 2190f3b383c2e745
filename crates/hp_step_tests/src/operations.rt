//! Each operation once over the register stack, with what it leaves worked by hand from the rules; and each trap.
use super::stacks::{self, has_words, numbers};
use hp_cpu::hp_stackops::stack_op;
use hp_instr::Op;
use hp_session::Regs;
use hp_tos::Stack;
use hp_word::{Code, Trap};
use std::alloc::{AllocError, Global};
use std::test::Fail;

/// Registers with X 3, all flags off, and CCE.
const REGS: Regs = Regs {
    x: 3,
    q: 0,
    p: 10,
    seg: 1,
    traps: true,
    right: false,
    overflow: false,
    carry: false,
    code: Code::Equal,
};

/// A stack with room for eight words, these on it, so many of them in registers.
fn stack_with(alloc: Global, words: &[u16], in_registers: u8) -> Result<Stack, AllocError> {
    stacks::stack_with(alloc, 8, words, in_registers, &[])
}

/// An operation on these words, of which so many stand in registers; the words afterwards, X, the numbers, and the code.
type Done = (
    Op,
    &'static [u16],
    u8,
    &'static [u16],
    u16,
    (u8, u64, u64),
    Code,
);

static PLACED: [Done; 26] = [
    (Op::NOP, &[1, 2], 1, &[1, 2], 3, (1, 0, 0), Code::Equal),
    (Op::DELB, &[1, 2, 3], 0, &[1, 3], 3, (1, 2, 0), Code::Equal),
    (Op::DDEL, &[1, 2, 3], 1, &[1], 3, (0, 1, 0), Code::Equal),
    (Op::ZROX, &[1], 1, &[1], 0, (1, 0, 0), Code::Equal),
    (Op::INCX, &[1], 0, &[1], 4, (0, 0, 0), Code::Equal),
    (Op::DECX, &[1], 0, &[1], 2, (0, 0, 0), Code::Equal),
    (
        Op::ZERO,
        &[1, 2, 3, 4, 5],
        4,
        &[1, 2, 3, 4, 5, 0],
        3,
        (4, 0, 1),
        Code::Equal,
    ),
    (
        Op::DZRO,
        &[1, 2, 3, 4],
        3,
        &[1, 2, 3, 4, 0, 0],
        3,
        (4, 0, 1),
        Code::Equal,
    ),
    (
        Op::DXCH,
        &[1, 2, 3, 4],
        1,
        &[3, 4, 1, 2],
        3,
        (4, 3, 0),
        Code::Equal,
    ),
    (Op::STBX, &[8, 9], 1, &[8, 9], 8, (2, 1, 0), Code::Equal),
    (
        Op::XCH,
        &[1, 2, 3],
        1,
        &[1, 3, 2],
        3,
        (2, 1, 0),
        Code::Equal,
    ),
    (Op::XAX, &[9], 0, &[3], 9, (1, 1, 0), Code::Equal),
    (Op::ADAX, &[1, 65535], 2, &[1], 2, (1, 0, 0), Code::Equal),
    (Op::ADXA, &[65535], 0, &[2], 3, (1, 1, 0), Code::Equal),
    (Op::DEL, &[1, 2], 0, &[1], 3, (0, 1, 0), Code::Equal),
    (
        Op::ZROB,
        &[1, 2, 3],
        3,
        &[1, 0, 3],
        3,
        (3, 0, 0),
        Code::Equal,
    ),
    (Op::LDXB, &[1, 2], 0, &[3, 2], 3, (2, 2, 0), Code::Equal),
    (Op::STAX, &[1, 2], 1, &[1], 2, (0, 0, 0), Code::Equal),
    (Op::LDXA, &[1], 0, &[1, 3], 3, (1, 0, 0), Code::Equal),
    (Op::DUP, &[1, 2], 0, &[1, 2, 2], 3, (2, 1, 0), Code::Equal),
    (
        Op::DDUP,
        &[1, 2, 3, 4],
        4,
        &[1, 2, 3, 4, 3, 4],
        3,
        (4, 0, 2),
        Code::Equal,
    ),
    (
        Op::CAB,
        &[1, 2, 3],
        0,
        &[2, 3, 1],
        3,
        (3, 3, 0),
        Code::Equal,
    ),
    (Op::XBX, &[7, 8], 0, &[3, 8], 7, (2, 2, 0), Code::Equal),
    (
        Op::TEST,
        &[4, 32768],
        0,
        &[4, 32768],
        3,
        (1, 1, 0),
        Code::Less,
    ),
    (
        Op::DTST,
        &[0, 32768],
        0,
        &[0, 32768],
        3,
        (2, 2, 0),
        Code::Greater,
    ),
    (Op::BTST, &[16693], 0, &[16693], 3, (1, 1, 0), Code::Greater),
];

static RECKONED: [Done; 23] = [
    (
        Op::DCMP,
        &[0, 1, 65535, 65535],
        2,
        &[],
        3,
        (0, 2, 0),
        Code::Greater,
    ),
    (
        Op::DADD,
        &[0, 65535, 0, 1],
        4,
        &[1, 0],
        3,
        (2, 0, 0),
        Code::Greater,
    ),
    (
        Op::DSUB,
        &[0, 0, 0, 1],
        0,
        &[65535, 65535],
        3,
        (2, 4, 0),
        Code::Less,
    ),
    (
        Op::DNEG,
        &[0, 1],
        1,
        &[65535, 65535],
        3,
        (2, 1, 0),
        Code::Less,
    ),
    (Op::CMP, &[65535, 1], 0, &[], 3, (0, 2, 0), Code::Less),
    (Op::ADD, &[5, 7], 0, &[12], 3, (1, 2, 0), Code::Greater),
    (Op::SUB, &[5, 7], 2, &[65534], 3, (1, 0, 0), Code::Less),
    (Op::MPY, &[65535, 3], 1, &[65533], 3, (1, 1, 0), Code::Less),
    (Op::DIV, &[7, 2], 0, &[3, 1], 3, (2, 2, 0), Code::Greater),
    (Op::NEG, &[1], 0, &[65535], 3, (1, 1, 0), Code::Less),
    (Op::INCA, &[65535], 1, &[0], 3, (1, 0, 0), Code::Equal),
    (Op::DECA, &[0], 0, &[65535], 3, (1, 1, 0), Code::Less),
    (Op::LCMP, &[65535, 1], 2, &[], 3, (0, 0, 0), Code::Greater),
    (Op::LADD, &[65535, 2], 1, &[1], 3, (1, 1, 0), Code::Greater),
    (Op::LSUB, &[1, 2], 0, &[65535], 3, (1, 2, 0), Code::Less),
    (
        Op::LMPY,
        &[256, 256],
        0,
        &[1, 0],
        3,
        (2, 2, 0),
        Code::Greater,
    ),
    (
        Op::LDIV,
        &[1, 0, 3],
        0,
        &[21845, 1],
        3,
        (2, 3, 0),
        Code::Greater,
    ),
    (Op::NOT, &[0], 0, &[65535], 3, (1, 1, 0), Code::Less),
    (Op::OR, &[1, 2], 1, &[3], 3, (1, 1, 0), Code::Greater),
    (Op::XOR, &[3, 1], 0, &[2], 3, (1, 2, 0), Code::Greater),
    (Op::AND, &[6, 3], 2, &[2], 3, (1, 0, 0), Code::Greater),
    (Op::INCB, &[5, 9], 0, &[6, 9], 3, (2, 2, 0), Code::Greater),
    (Op::DECB, &[0, 9], 1, &[65535, 9], 3, (2, 1, 0), Code::Less),
];

/// Whether an operation leaves what its line says.
fn is_done(alloc: Global, done: &Done) -> Result<bool, AllocError> {
    let &(op, before, in_registers, after, x, wanted, code) = done;
    let mut stack = stack_with(alloc, before, in_registers)?;
    let mut regs = REGS;
    let (fills, spills) = (stack.fills, stack.spills);
    let answer = stack_op(op, &mut regs, &mut stack);
    Ok(
        answer == Ok(())
            && has_words(&stack, after)
            && (regs.x, regs.code) == (x, code)
            && numbers(&stack, fills, spills) == wanted,
    )
}

#[test]
fn operations_that_place_words(rt: HostRuntime) -> Result<(), Fail> {
    for done in &PLACED {
        assert!(rt; is_done(rt.alloc(), done)?, "code {}", done.0.code);
    }
    Ok(())
}

#[test]
fn operations_that_reckon(rt: HostRuntime) -> Result<(), Fail> {
    for done in &RECKONED {
        assert!(rt; is_done(rt.alloc(), done)?, "code {}", done.0.code);
    }
    Ok(())
}

/// The code of an operation, the words of a stack and how many of them stand in registers, the trap, and the numbers.
type Trapped = (u8, &'static [u16], u8, Trap, (u8, u64, u64));

static TRAPS: [Trapped; 8] = [
    (0o20, &[32767, 1], 1, Trap::IntegerOverflow, (2, 1, 0)),
    (0o15, &[32768, 0], 2, Trap::IntegerOverflow, (2, 0, 0)),
    (0o23, &[1, 0], 0, Trap::DivideByZero, (2, 2, 0)),
    (0o64, &[0, 1, 0], 0, Trap::DivideByZero, (3, 3, 0)),
    (0o11, &[1, 2, 3], 1, Trap::StackUnderflow, (1, 0, 0)),
    (
        0o06,
        &[1, 2, 3, 4, 5, 6, 7, 8],
        2,
        Trap::StackOverflow,
        (2, 0, 0),
    ),
    (
        0o46,
        &[1, 2, 3, 4, 5, 6, 7],
        0,
        Trap::StackOverflow,
        (2, 2, 0),
    ),
    (0o13, &[1, 2], 1, Trap::Illegal, (1, 0, 0)),
];

/// Whether an operation traps so, and leaves the words and all registers.
fn is_trapped(alloc: Global, trapped: &Trapped) -> Result<bool, AllocError> {
    let &(code, words, in_registers, trap, wanted) = trapped;
    let mut stack = stack_with(alloc, words, in_registers)?;
    let mut regs = REGS;
    let (fills, spills) = (stack.fills, stack.spills);
    let answer = stack_op(Op { code }, &mut regs, &mut stack);
    Ok(
        answer == Err(trap)
            && regs == REGS
            && has_words(&stack, words)
            && numbers(&stack, fills, spills) == wanted,
    )
}

#[test]
fn traps_come_after_fills_and_before_pushes(rt: HostRuntime) -> Result<(), Fail> {
    for trapped in &TRAPS {
        assert!(rt; is_trapped(rt.alloc(), trapped)?, "code {}", trapped.0);
    }
    Ok(())
}
