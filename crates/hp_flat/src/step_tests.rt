//! Single steps worked by hand from the instruction table.

ghost use Rattle.std.specs.Prelude.{◌≤◌, ◌≡◌, IfOk, length, vec_len, vec_capacity};

use super::*;
use hp_word::{Code, Ending, Trap};
use std::alloc::{AllocError, Global};
use std::test::Fail;

const CCG: Code = Code::Greater;

const CCL: Code = Code::Less;

const CCE: Code = Code::Equal;

/// Equal items in a vector with room for `limit`.
pub(crate) fn roomy<T: Copy>(alloc: Global, items: &[T], limit: usize) -> Result<Vec<T>, AllocError>
    requires { length items.now ≤ limit }
    ensures within { IfOk result (λ v. vec_len v ≤ limit) }
    ensures reserved { IfOk result (λ v. limit ≤ vec_capacity v) }
{
    let mut copies = Vec::with_capacity(alloc, limit)?;
    copies.extend_from_slice(items).unwrap();
    Ok(copies)
}

/// The registers of a session that begins a step, with Q at address 1, both flags on and CCG.
pub(crate) fn registers(x: u16) -> Regs {
    Regs {
        x,
        q: 1,
        p: 0,
        seg: 0,
        traps: true,
        right: false,
        overflow: true,
        carry: true,
        code: CCG,
    }
}

/// A program of one segment: a word, then A and B as characters, and a table with one local entry.
fn program_of(alloc: Global, words: &[u16]) -> Result<Result<Program, Defect>, AllocError> {
    let segment = Vec::from_slice(alloc, words)?;
    Ok(Program::new(vec![in alloc; segment]?, 0, 1, Vec::new(alloc)))
}

/// A step: the word, X and the stack before it; then the stack, X, P, code, carry and overflow behind it, or its trap.
type Step = (u16, u16, &'static [u16], Result<Left, Trap>);

type Left = (&'static [u16], u16, u16, Code, bool, bool);

static STEPS: [Step; 74] = [
    // ADD
    (0o002000, 0, &[32767, 1], Err(Trap::IntegerOverflow)),
    (0o002000, 0, &[65535, 2], Ok((&[1], 0, 1, CCG, true, false))),
    // SUB
    (
        0o002100,
        0,
        &[2, 3],
        Ok((&[65535], 0, 1, CCL, false, false)),
    ),
    // MPY
    (
        0o002200,
        0,
        &[300, 65436],
        Ok((&[35536], 0, 1, CCL, true, false)),
    ),
    (0o002200, 0, &[300, 300], Err(Trap::IntegerOverflow)),
    // DIV
    (
        0o002300,
        0,
        &[65529, 2],
        Ok((&[65533, 65535], 0, 1, CCL, true, false)),
    ),
    (0o002300, 0, &[7, 0], Err(Trap::DivideByZero)),
    (0o002300, 0, &[32768, 65535], Err(Trap::IntegerOverflow)),
    // NEG
    (0o002400, 0, &[32768], Err(Trap::IntegerOverflow)),
    // LADD
    (0o006100, 0, &[65535, 1], Ok((&[0], 0, 1, CCE, true, true))),
    // LSUB
    (0o006200, 0, &[1, 2], Ok((&[65535], 0, 1, CCL, false, true))),
    // LMPY
    (
        0o006300,
        0,
        &[65535, 65535],
        Ok((&[65534, 1], 0, 1, CCL, true, true)),
    ),
    // LDIV
    (
        0o006400,
        0,
        &[1, 5, 65535],
        Ok((&[1, 6], 0, 1, CCG, true, true)),
    ),
    (
        0o006400,
        0,
        &[2, 0, 2],
        Ok((&[0, 0], 0, 1, CCE, true, true)),
    ),
    // DADD
    (
        0o001100,
        0,
        &[32767, 65535, 0, 1],
        Err(Trap::IntegerOverflow),
    ),
    // DSUB
    (
        0o001200,
        0,
        &[0, 0, 0, 1],
        Ok((&[65535, 65535], 0, 1, CCL, false, false)),
    ),
    // DNEG
    (
        0o001500,
        0,
        &[0, 5],
        Ok((&[65535, 65531], 0, 1, CCL, true, false)),
    ),
    // DCMP
    (
        0o001000,
        0,
        &[65535, 0, 0, 1],
        Ok((&[], 0, 1, CCL, true, true)),
    ),
    // LCMP
    (0o006000, 0, &[65535, 1], Ok((&[], 0, 1, CCG, true, true))),
    // CMP
    (0o001700, 0, &[65535, 1], Ok((&[], 0, 1, CCL, true, true))),
    // NOT
    (0o006500, 0, &[0], Ok((&[65535], 0, 1, CCL, true, true))),
    // AND
    (0o007000, 0, &[12, 10], Ok((&[8], 0, 1, CCG, true, true))),
    // XOR
    (0o006700, 0, &[12, 12], Ok((&[0], 0, 1, CCE, true, true))),
    // BTST
    (0o003100, 0, &[48], Ok((&[48], 0, 1, CCG, true, true))),
    // DTST
    (0o002700, 0, &[0, 0], Ok((&[0, 0], 0, 1, CCE, true, true))),
    // XCH
    (0o003200, 0, &[1, 2], Ok((&[2, 1], 0, 1, CCG, true, true))),
    // DXCH
    (
        0o001600,
        0,
        &[1, 2, 3, 4],
        Ok((&[3, 4, 1, 2], 0, 1, CCG, true, true)),
    ),
    // CAB
    (
        0o005600,
        0,
        &[1, 2, 3],
        Ok((&[2, 3, 1], 0, 1, CCG, true, true)),
    ),
    // XAX
    (0o003500, 5, &[9], Ok((&[5], 9, 1, CCG, true, true))),
    // DDUP
    (
        0o004600,
        0,
        &[1, 2, 3, 4, 5, 6, 7],
        Err(Trap::StackOverflow),
    ),
    // INCB
    (0o007400, 0, &[32767, 0], Err(Trap::IntegerOverflow)),
    // DEL
    (0o004000, 0, &[], Err(Trap::StackUnderflow)),
    // INCX
    (
        0o000420,
        65535,
        &[1, 2],
        Ok((&[1, 2], 0, 0, CCG, true, true)),
    ),
    // ASL
    (0o010001, 0, &[49153], Ok((&[32770], 0, 1, CCL, true, true))),
    // ASR
    (0o010117, 0, &[32768], Ok((&[65535], 0, 1, CCL, true, true))),
    // CSL
    (0o010420, 0, &[42798], Ok((&[42798], 0, 1, CCL, true, true))),
    // IABZ
    (0o011001, 0, &[65535], Ok((&[0], 0, 1, CCG, true, true))),
    // DXBZ
    (0o011341, 1, &[], Ok((&[], 0, 65535, CCG, true, true))),
    // CPRB
    (0o011402, 5, &[4, 6], Ok((&[], 5, 2, CCE, true, true))),
    // BRE
    (0o011602, 0, &[4], Ok((&[], 0, 2, CCG, true, true))),
    // BNCY
    (0o012003, 0, &[], Ok((&[], 0, 1, CCG, true, true))),
    // LDNI
    (0o024001, 0, &[], Ok((&[65535], 0, 1, CCG, true, true))),
    // DIVI
    (0o023402, 0, &[65535], Ok((&[0], 0, 1, CCE, true, false))),
    // EXF
    (0o025504, 0, &[3840], Ok((&[15], 0, 1, CCG, true, true))),
    // DPF
    (
        0o026210,
        0,
        &[42496, 255],
        Ok((&[42751], 0, 1, CCL, true, true)),
    ),
    // SPLT
    (0o020001, 0, &[], Ok((&[], 0, 1, CCG, true, true))),
    // JOIN
    (0o020002, 0, &[], Err(Trap::Mode)),
    // CMPN
    (0o025001, 0, &[65535], Ok((&[], 0, 1, CCE, true, true))),
    // SXIT
    (0o031001, 0, &[1, 2, 3], Ok((&[1], 0, 3, CCG, true, true))),
    // SCAL
    (0o031401, 0, &[], Ok((&[1], 0, 0, CCG, true, true))),
    // ADDS
    (0o033402, 0, &[1], Ok((&[1, 0, 0], 0, 1, CCG, true, true))),
    // SUBS
    (0o034003, 0, &[1, 2], Err(Trap::StackUnderflow)),
    // ROOM
    (0o033000, 0, &[1, 7], Ok((&[1], 0, 1, CCG, true, true))),
    // PCAL
    (
        0o030001,
        9,
        &[1, 2],
        Ok((&[1, 2, 9, 1, 11264, 4], 9, 0, CCG, true, true)),
    ),
    (0o030000, 0, &[], Err(Trap::BadEntry)),
    // EXIT
    (0o030400, 0, &[1, 2], Err(Trap::Bounds)),
    // MOVE
    (
        0o034400,
        0,
        &[7, 8, 0, 1, 2],
        Ok((&[8, 8, 1, 2, 1], 0, 0, CCG, true, true)),
    ),
    (
        0o034401,
        0,
        &[7, 0, 1, 1],
        Ok((&[16706, 1, 2, 0], 0, 0, CCG, true, true)),
    ),
    // MVB
    (
        0o035000,
        0,
        &[16706, 1, 0, 65535],
        Ok((&[16705, 0, 65535, 0], 0, 0, CCG, true, true)),
    ),
    // CMPB
    (
        0o037000,
        0,
        &[16706, 0, 1, 2],
        Ok((&[16706], 0, 1, CCL, true, true)),
    ),
    // SCU
    (
        0o036400,
        0,
        &[16706, 0, 16672],
        Ok((&[16706, 0], 0, 1, CCG, true, true)),
    ),
    // LOAD
    (
        0o041001,
        0,
        &[5, 6],
        Ok((&[5, 6, 6], 0, 1, CCG, true, true)),
    ),
    (0o040001, 0, &[], Ok((&[16706], 0, 1, CCG, true, true))),
    // STOR
    (
        0o051701,
        0,
        &[5, 6, 7],
        Ok((&[5, 7], 0, 1, CCG, true, true)),
    ),
    // LOAD
    (
        0o043601,
        0,
        &[1, 9],
        Ok((&[1, 9, 9], 0, 1, CCG, true, true)),
    ),
    // LDB
    (
        0o150001,
        1,
        &[0, 16706],
        Ok((&[0, 16706, 65], 1, 1, CCG, true, true)),
    ),
    // STD
    (
        0o161001,
        0,
        &[0, 1, 2, 3],
        Ok((&[0, 2], 0, 1, CCG, true, true)),
    ),
    // LRA
    (
        0o171700,
        0,
        &[1, 2],
        Ok((&[1, 2, 1], 0, 1, CCG, true, true)),
    ),
    // INCM
    (0o120000, 0, &[32767], Err(Trap::IntegerOverflow)),
    // ADDM
    (
        0o071000,
        0,
        &[3, 65535],
        Ok((&[3, 2], 0, 1, CCG, true, false)),
    ),
    // BR
    (0o142001, 0, &[], Ok((&[], 0, 16707, CCG, true, true))),
    // BCC
    (0o141403, 0, &[], Ok((&[], 0, 3, CCG, true, true))),
    // MTBA
    (
        0o054002,
        0,
        &[1, 0, 1, 2],
        Ok((&[2, 0, 1, 2], 0, 2, CCG, true, false)),
    ),
    // Illegal
    (0o001300, 0, &[], Err(Trap::Illegal)),
];

#[test]
fn steps_of_each_group(rt: HostRuntime) -> Result<(), Fail> {
    let alloc = rt.alloc();
    for &(word, x, before, left) in STEPS.iter() {
        let program = program_of(alloc, &[word, 0o040502, 0, 1])??;
        assert!(rt; before.len() <= 8);
        let mut session = Flat {
            regs: registers(x),
            split: false,
            stack: roomy(alloc, before, 8)?,
            extra: vec![in alloc; 7, 9]?,
            lines: Vec::new(alloc),
            next_line: 0,
            printed: Vec::new(alloc),
            ending: Ending::Running,
            stack_limit: 8,
            room: 0,
        };
        assert!(rt; (session.regs.seg as usize) < program.segments.len());
        session.step(&program);
        let ending = match left {
            Ok(_) => Ending::Running,
            Err(trap) => Ending::Trapped(trap),
        };
        // a trap changes nothing else
        let (after, x, p, code, carry, overflow) = left.unwrap_or((before, x, 0, CCG, true, true));
        let regs = session.regs;
        assert_eq!(rt; session.ending, ending, "{word:06o}");
        assert_eq!(rt; session.stack.as_slice(), after, "{word:06o}");
        assert_eq!(rt; (regs.x, regs.p), (x, p), "{word:06o}");
        assert_eq!(rt;
            (regs.code, regs.carry, regs.overflow),
            (code, carry, overflow),
            "{word:06o}"
        );
    }
    Ok(())
}

/// A call of an intrinsic: its number, the lines taken and the stack before it; then the stack, the code, what was printed and
/// where the session stands behind it, or its trap.
type Call = (u16, usize, &'static [u16], Result<Called, Trap>);

type Called = (&'static [u16], Code, &'static [u8], Ending);

const RUNS: Ending = Ending::Running;

static CALLS: [Call; 22] = [
    // PRINT: two bytes and a line feed; one byte alone; past the stack; past the room
    (
        1,
        0,
        &[0o044111, 0, 1, 0],
        Ok((&[0o044111], CCE, b"HI\n", RUNS)),
    ),
    (
        1,
        0,
        &[0o044111, 0, 65535, 0o320],
        Ok((&[0o044111], CCE, b"H", RUNS)),
    ),
    (1, 0, &[0o044111, 3, 2, 0], Err(Trap::Bounds)),
    (1, 0, &[0o044111, 0, 2, 0], Err(Trap::OutputLimit)),
    // PRINT of no byte, wherever; its words are wanting
    (1, 0, &[65535, 0, 0o320], Ok((&[], CCE, b"", RUNS))),
    (1, 0, &[0, 0], Err(Trap::StackUnderflow)),
    // READ: three bytes into two words, the answer over the second; one byte; no line; past the stack
    (2, 0, &[0, 0, 0, 2], Ok((&[0o040502, 2], CCE, b"", RUNS))),
    (
        2,
        0,
        &[7, 0, 0, 65535],
        Ok((&[0o040407, 1], CCE, b"", RUNS)),
    ),
    (2, 1, &[7, 0, 0, 2], Ok((&[7, 0], CCG, b"", RUNS))),
    (2, 0, &[7, 0, 4, 2], Err(Trap::Bounds)),
    // ASCII of minus one, in base ten, eight and seven; past the stack
    (
        3,
        0,
        &[0, 0, 65535, 10, 0],
        Ok((&[0o026461, 2], CCE, b"", RUNS)),
    ),
    (
        3,
        0,
        &[0, 0, 0, 0, 65535, 8, 0],
        Ok((&[0o030467, 0o033467, 0o033467, 6], CCE, b"", RUNS)),
    ),
    (3, 0, &[0, 65535, 7, 0], Ok((&[0], CCL, b"", RUNS))),
    (3, 0, &[0, 65535, 10, 8], Err(Trap::Bounds)),
    // DASCII of minus one in base ten
    (
        4,
        0,
        &[0, 0, 65535, 65535, 10, 0],
        Ok((&[0o026461, 2], CCE, b"", RUNS)),
    ),
    // BINARY of 12, of 99, of a blank, of nothing, of a negative length
    (
        5,
        0,
        &[0o030462, 7, 0, 2],
        Ok((&[0o030462, 12], CCE, b"", RUNS)),
    ),
    (
        5,
        0,
        &[0o034471, 0o034471, 0o034400, 7, 0, 5],
        Ok((&[0o034471, 0o034471, 0o034400, 0], CCG, b"", RUNS)),
    ),
    (
        5,
        0,
        &[0o020040, 7, 0, 1],
        Ok((&[0o020040, 0], CCL, b"", RUNS)),
    ),
    (5, 0, &[7, 65535, 0], Ok((&[0], CCE, b"", RUNS))),
    // DBINARY of minus two
    (
        6,
        0,
        &[0o026462, 7, 7, 0, 2],
        Ok((&[0o026462, 65535, 65534], CCE, b"", RUNS)),
    ),
    // TERMINATE, and QUIT of minus one
    (7, 0, &[1], Ok((&[1], CCG, b"", Ending::Terminated))),
    (8, 0, &[1, 65535], Ok((&[1], CCG, b"", Ending::Quit(-1)))),
];

#[test]
fn calls_of_each_intrinsic(rt: HostRuntime) -> Result<(), Fail> {
    let alloc = rt.alloc();
    for &(number, next_line, before, called) in CALLS.iter() {
        // PCAL 2, and the label of the gate as entry 2
        let program = program_of(alloc, &[0o030002, 0o100377 + 256 * (number % 9), 0, 2])??;
        assert!(rt; before.len() <= 8);
        let line = Line {
            bytes: Vec::from_slice(alloc, b"ABC")?,
        };
        let mut session = Flat {
            regs: registers(0),
            split: false,
            stack: roomy(alloc, before, 8)?,
            extra: Vec::new(alloc),
            lines: vec![in alloc; line]?,
            next_line,
            printed: roomy(alloc, b"", 4)?,
            ending: Ending::Running,
            stack_limit: 8,
            room: 4,
        };
        assert!(rt; (session.regs.seg as usize) < program.segments.len());
        session.step(&program);
        let (after, code, printed, ending) = match called {
            Ok(left) => left,
            Err(trap) => (before, CCG, b"".as_slice(), Ending::Trapped(trap)),
        };
        assert_eq!(rt; session.ending, ending, "intrinsic {number}");
        assert_eq!(rt; session.stack.as_slice(), after, "intrinsic {number}");
        assert_eq!(rt; session.printed.as_slice(), printed, "intrinsic {number}");
        assert_eq!(rt; session.regs.code, code, "intrinsic {number}");
    }
    Ok(())
}
