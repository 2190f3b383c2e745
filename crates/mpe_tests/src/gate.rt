//! Each intrinsic over words worked by hand from the rules: the stack before, the lines and the room, and then the stack, what
//! was printed and taken, the condition code, and how many words stand in registers. Bytes of texts are written as words: "HI" is
//! 18505.

use hp_session::{Line, Regs};
use hp_tos::Stack;
use hp_word::Intrinsic::{Ascii, Binary, Dascii, Dbinary, Print, Quit, Read, Terminate};
use hp_word::{Code, Ending, Intrinsic, Trap};
use mpe_gate::{Served, serve};
use mpe_session::Terminal;
use std::alloc::{AllocError, Global};
use std::process::Abort;
use std::test::Fail;

/// Registers with R and all flags on, but for the condition code.
static REGS: Regs = Regs {
    x: 7,
    q: 3,
    p: 65535,
    seg: 2,
    traps: true,
    right: true,
    overflow: true,
    carry: true,
    code: Code::Greater,
};

fn regs_with(code: Code) -> Regs {
    Regs { code, ..REGS }
}

/// Registers behind a call, whose program goes on at the left half of its first word.
fn regs_behind(code: Code) -> Regs {
    Regs {
        p: 0,
        right: false,
        code,
        ..REGS
    }
}

/// A stack with these words, all in memory, with room for sixteen.
fn stack_with(alloc: Global, words: &[u16]) -> Result<Stack, AllocError> {
    let room = vec![in alloc; 0; 16]?;
    let memory = vec![in alloc; 500]?;
    let mut stack = Stack::make(room, memory, 0);
    for &w in words {
        let _ = stack.push(w);
    }
    stack.flush();
    Ok(stack)
}

/// Whether a stack has these words, the lowest first.
fn has_words(stack: &Stack, words: &[u16]) -> bool {
    let mut address: u16 = 0;
    for word in words {
        if stack.read_stack(address) != Ok(*word) {
            return false;
        }
        address = address.wrapping_add(1);
    }
    stack.words() == address
}

fn add_lines(lines: &mut Vec<Line>, alloc: Global, texts: &[&str]) -> Result<(), AllocError> {
    for text in texts {
        lines.push(Line {
            bytes: Vec::from_slice(alloc, text.as_bytes())?,
        })?;
    }
    Ok(())
}

/// A terminal at which these lines will be typed.
fn terminal_with(alloc: Global, texts: &[&str], room: u32) -> Result<Terminal, AllocError> {
    let mut lines = Vec::new(alloc);
    match add_lines(&mut lines, alloc, texts) {
        Ok(()) => Terminal::make(alloc, lines, room),
        Err(error) => Err(error),
    }
}

/// What a call is to leave.
#[derive(Drop)]
struct Left<'a> {
    answer: Served,
    regs: Regs,
    words: &'a [u16],
    /// How many of the words stand in registers. None is filled or spilled.
    in_registers: usize,
    printed: &'a [u8],
    /// How many lines are taken.
    taken: usize,
}

fn is_left(
    call: Intrinsic,
    code: Code,
    stack: &mut Stack,
    terminal: &mut Terminal,
    wanted: &Left<'_>,
) -> bool {
    stack.flush();
    let (fills, spills) = (stack.fills, stack.spills);
    let mut regs = regs_with(code);
    let answer = serve(call, &mut regs, stack, terminal);
    answer == wanted.answer
        && regs == wanted.regs
        && has_words(stack, wanted.words)
        && stack.top.len() == wanted.in_registers
        && (stack.fills, stack.spills) == (fills, spills)
        && terminal.printed.as_slice() == wanted.printed
        && terminal.next_line == wanted.taken
}

/// Whether a call in a session of its own leaves this.
fn leaves(
    alloc: Global,
    call: (Intrinsic, Code, &[u16]),
    texts: &[&str],
    room: u32,
    wanted: &Left<'_>,
) -> Result<bool, AllocError> {
    let (call, code, words) = call;
    let mut terminal = terminal_with(alloc, texts, room)?;
    match stack_with(alloc, words) {
        Ok(mut stack) => Ok(is_left(call, code, &mut stack, &mut terminal, wanted)),
        Err(error) => Err(error),
    }
}

/// Whether a call goes on so, with this code and these words, the topmost of which stand in registers.
fn goes(
    alloc: Global,
    call: Intrinsic,
    words: &[u16],
    texts: &[&str],
    wanted: (&[u16], usize, Code, &[u8], usize),
) -> Result<bool, AllocError> {
    let (left, in_registers, code, printed, taken) = wanted;
    let before = if code == Code::Greater {
        Code::Less
    } else {
        Code::Greater
    };
    let wanted = Left {
        answer: Served::Went,
        regs: regs_behind(code),
        words: left,
        in_registers,
        printed,
        taken,
    };
    leaves(alloc, (call, before, words), texts, 8, &wanted)
}

/// Words, what is left of them, and what is printed.
static PRINTS: [(&[u16], &[u16], &[u8]); 8] = [
    (&[18505, 8511, 0, 2, 0], &[18505, 8511], b"HI!?\n"),
    (&[18505, 8511, 0, 65533, 0], &[18505, 8511], b"HI!\n"),
    (&[18505, 8511, 1, 1, 0], &[18505, 8511], b"!?\n"),
    // the control %320 alone prints no line feed: not another one, nor one whose right byte is %320
    (&[18505, 0, 1, 0o320], &[18505], b"HI"),
    (&[18505, 0, 1, 0o321], &[18505], b"HI\n"),
    (&[18505, 0, 1, 0o720], &[18505], b"HI\n"),
    // no byte is in bounds everywhere; and the words of the call are on the stack
    (&[40000, 0, 0], &[], b"\n"),
    (&[1, 2, 0o320], &[], &[0, 2, 0, 0o320]),
];

#[test]
fn prints_bytes_and_a_line_feed(rt: HostRuntime) -> Result<(), Fail> {
    for (words, left, printed) in &PRINTS {
        let wanted = (*left, 0, Code::Equal, *printed, 0);
        assert!(rt;
            goes(rt.alloc(), Print, words, &["A"], wanted)?,
            "{words:?}"
        );
    }
    Ok(())
}

/// Words, the lines that are typed, the words that are left, the code, and how many lines are taken.
static READS: [(&[u16], &[&str], &[u16], Code, usize); 9] = [
    (
        &[0, 0, 0, 9, 0, 3],
        &["GOOD", "A"],
        &[18255, 20292, 0, 2],
        Code::Equal,
        1,
    ),
    // the rest of a longer line is lost
    (&[0, 0, 9, 0, 1], &["GOOD"], &[18255, 0, 1], Code::Equal, 1),
    // of three bytes the last is the left one of its word, whose right one stays
    (
        &[0, 65, 9, 0, 65533],
        &["GOOD"],
        &[18255, 20289, 3],
        Code::Equal,
        1,
    ),
    (
        &[0, 7, 9, 0, 4],
        &["ABC"],
        &[16706, 17159, 2],
        Code::Equal,
        1,
    ),
    (
        &[0, 7, 9, 0, 65528],
        &["ABC"],
        &[16706, 17159, 3],
        Code::Equal,
        1,
    ),
    // no byte is in bounds everywhere
    (&[9, 40000, 5], &["", "A"], &[0], Code::Equal, 1),
    (&[9, 40000, 0], &["GOOD"], &[0], Code::Equal, 1),
    // no line is left
    (&[5, 9, 0, 3], &[], &[5, 0], Code::Greater, 0),
    // bytes are stored before the answer takes its place
    (&[9, 0, 2], &["GOOD"], &[2], Code::Equal, 1),
];

#[test]
fn reads_the_first_bytes_of_a_line(rt: HostRuntime) -> Result<(), Fail> {
    for (words, texts, left, code, taken) in &READS {
        let wanted = (*left, 1, *code, b"".as_slice(), *taken);
        assert!(rt; goes(rt.alloc(), Read, words, texts, wanted)?, "{words:?}");
    }
    Ok(())
}

/// Calls with their words, the words that are left, and the code.
type Answer = (Intrinsic, &'static [u16], &'static [u16], Code);

/// Each answer stands in so many registers.
fn answers(
    rt: &impl Abort,
    alloc: Global,
    rows: &[Answer],
    in_registers: usize,
) -> Result<(), Fail> {
    for (call, words, left, code) in rows {
        let wanted = (*left, in_registers, *code, b"".as_slice(), 0);
        assert!(rt;
            goes(alloc, *call, words, &["A"], wanted)?,
            "{call:?} {words:?}"
        );
    }
    Ok(())
}

static TEXTS: [Answer; 10] = [
    // -124 from the right byte of a word to the left one of another
    (
        Ascii,
        &[16640, 0, 66, 9, 65412, 10, 1],
        &[16685, 12594, 13378, 4],
        Code::Equal,
    ),
    (Ascii, &[16706, 9, 0, 10, 0], &[12354, 1], Code::Equal),
    (
        Ascii,
        &[0, 0, 0, 9, 32768, 10, 0],
        &[11571, 12855, 13880, 6],
        Code::Equal,
    ),
    (
        Ascii,
        &[0, 0, 0, 9, 511, 8, 0],
        &[12336, 12343, 14135, 6],
        Code::Equal,
    ),
    (
        Ascii,
        &[0, 0, 0, 9, 65535, 8, 0],
        &[12599, 14135, 14135, 6],
        Code::Equal,
    ),
    (Ascii, &[9, 5, 2, 0], &[0], Code::Less),
    // the last byte of the stack
    (Ascii, &[9, 5, 10, 7], &[1], Code::Equal),
    (
        Dascii,
        &[0, 0, 0, 0, 0, 0, 9, 32768, 0, 10, 0],
        &[11570, 12596, 14132, 14387, 13876, 14336, 11],
        Code::Equal,
    ),
    (
        Dascii,
        &[0, 0, 0, 0, 0, 0, 9, 0, 8, 8, 0],
        &[12336, 12336, 12336, 12336, 12337, 12288, 11],
        Code::Equal,
    ),
    (Dascii, &[1, 9, 0, 5, 16, 0], &[1, 0], Code::Less),
];

#[test]
fn answers_texts_of_words_and_doubles(rt: HostRuntime) -> Result<(), Fail> {
    answers(&rt, rt.alloc(), &TEXTS, 1)
}

static NUMBERS: [Answer; 13] = [
    (
        Binary,
        &[11057, 12800, 9, 0, 3],
        &[11057, 12800, 12],
        Code::Equal,
    ), // +12
    (Binary, &[11569, 9, 0, 2], &[11569, 65535], Code::Equal), // -1
    (
        Binary,
        &[9521, 14080, 9, 0, 3],
        &[9521, 14080, 15],
        Code::Equal,
    ), // %17
    (Binary, &[49, 12800, 9, 1, 2], &[49, 12800, 12], Code::Equal), // 12 from an odd byte on
    (
        Binary,
        &[13877, 13619, 13568, 9, 0, 5],
        &[13877, 13619, 13568, 65535],
        Code::Equal,
    ), // 65535
    (
        Binary,
        &[13877, 13619, 13824, 9, 0, 5],
        &[13877, 13619, 13824, 0],
        Code::Greater,
    ), // 65536
    (
        Binary,
        &[11571, 12855, 13880, 9, 0, 6],
        &[11571, 12855, 13880, 32768],
        Code::Equal,
    ), // -32768
    (
        Binary,
        &[11571, 12855, 13881, 9, 0, 6],
        &[11571, 12855, 13881, 0],
        Code::Greater,
    ), // -32769
    (
        Binary,
        &[9522, 12336, 12336, 12288, 9, 0, 7],
        &[9522, 12336, 12336, 12288, 0],
        Code::Greater,
    ), // %200000
    (Binary, &[9, 40000, 0], &[0], Code::Equal), // no byte
    (Binary, &[12609, 9, 0, 2], &[12609, 0], Code::Less), // 1A
    (Binary, &[11008, 9, 0, 1], &[11008, 0], Code::Less), // a sign alone
    (Binary, &[5, 9, 40000, 65535], &[5, 0], Code::Less), // a negative length
];

#[test]
fn answers_numbers_of_texts(rt: HostRuntime) -> Result<(), Fail> {
    answers(&rt, rt.alloc(), &NUMBERS, 1)
}

static DOUBLES: [Answer; 6] = [
    (
        Dbinary,
        &[13877, 13619, 13824, 9, 9, 0, 5],
        &[13877, 13619, 13824, 1, 0],
        Code::Equal,
    ), // 65536
    (
        Dbinary,
        &[11569, 9, 9, 0, 2],
        &[11569, 65535, 65535],
        Code::Equal,
    ), // -1
    // 2147483648
    (
        Dbinary,
        &[12849, 13367, 13368, 13110, 13368, 9, 9, 0, 10],
        &[12849, 13367, 13368, 13110, 13368, 0, 0],
        Code::Greater,
    ),
    // %37777777777
    (
        Dbinary,
        &[9523, 14135, 14135, 14135, 14135, 14135, 9, 9, 0, 12],
        &[9523, 14135, 14135, 14135, 14135, 14135, 65535, 65535],
        Code::Equal,
    ),
    (Dbinary, &[5, 9, 9, 0, 0], &[5, 0, 0], Code::Equal), // no byte
    (Dbinary, &[9, 9, 0, 65535], &[0, 0], Code::Less), // a negative length
];

#[test]
fn answers_doubles_of_texts(rt: HostRuntime) -> Result<(), Fail> {
    answers(&rt, rt.alloc(), &DOUBLES, 2)
}

/// Calls with their words, the words that are left, and the ending.
static ENDS: [(Intrinsic, &[u16], &[u16], Ending); 5] = [
    (Terminate, &[], &[], Ending::Terminated),
    (Terminate, &[5, 6], &[5, 6], Ending::Terminated),
    (Quit, &[5, 65534], &[5], Ending::Quit(-2)),
    (Quit, &[32767], &[], Ending::Quit(32767)),
    (Quit, &[32768], &[], Ending::Quit(-32768)),
];

fn is_ended(
    alloc: Global,
    call: Intrinsic,
    words: &[u16],
    left: &[u16],
    ending: Ending,
) -> Result<bool, AllocError> {
    let wanted = Left {
        answer: Served::Ended(ending),
        regs: regs_behind(Code::Less),
        words: left,
        in_registers: 0,
        printed: b"",
        taken: 0,
    };
    leaves(alloc, (call, Code::Less, words), &["A"], 8, &wanted)
}

#[test]
fn ends_a_session(rt: HostRuntime) -> Result<(), Fail> {
    for (call, words, left, ending) in &ENDS {
        assert!(rt;
            is_ended(rt.alloc(), *call, words, left, *ending)?,
            "{call:?} {words:?}"
        );
    }
    Ok(())
}

/// Calls with their words, the room for what is printed, and the trap.
static TRAPS: [(Intrinsic, &[u16], u32, Trap); 19] = [
    (Print, &[40000, 1], 0, Trap::StackUnderflow),
    (Read, &[40000, 1], 8, Trap::StackUnderflow),
    (Ascii, &[5, 10, 0], 8, Trap::StackUnderflow),
    (Dascii, &[0, 5, 10, 0], 8, Trap::StackUnderflow),
    (Binary, &[0, 1], 8, Trap::StackUnderflow),
    (Dbinary, &[9, 0, 1], 8, Trap::StackUnderflow),
    (Quit, &[], 8, Trap::StackUnderflow),
    // byte 80,000 is none of the stack's, whatever it is modulo 65,536
    (Print, &[40000, 1, 0], 8, Trap::Bounds),
    (Print, &[32768, 1, 0], 8, Trap::Bounds),
    (Print, &[0, 4, 0], 0, Trap::Bounds),
    (Print, &[0, 65529, 0], 8, Trap::Bounds),
    (Read, &[9, 32768, 1], 8, Trap::Bounds),
    (Read, &[9, 2, 2], 8, Trap::Bounds),
    (Ascii, &[9, 10, 10, 7], 8, Trap::Bounds),
    (Dascii, &[9, 0, 5, 10, 10], 8, Trap::Bounds),
    (Binary, &[9, 4, 3], 8, Trap::Bounds),
    (Dbinary, &[9, 9, 8, 1], 8, Trap::Bounds),
    (Print, &[18505, 0, 1, 0], 2, Trap::OutputLimit),
    (Print, &[18505, 0, 1, 0o320], 1, Trap::OutputLimit),
];

fn is_trapped(
    alloc: Global,
    call: Intrinsic,
    words: &[u16],
    room: u32,
    trap: Trap,
) -> Result<bool, AllocError> {
    let wanted = Left {
        answer: Served::Trapped(trap),
        regs: regs_with(Code::Less),
        words,
        in_registers: 0,
        printed: b"",
        taken: 0,
    };
    leaves(alloc, (call, Code::Less, words), &["GOOD"], room, &wanted)
}

#[test]
fn a_trap_comes_before_anything_is_done(rt: HostRuntime) -> Result<(), Fail> {
    for (call, words, room, trap) in &TRAPS {
        assert!(rt;
            is_trapped(rt.alloc(), *call, words, *room, *trap)?,
            "{call:?} {words:?}"
        );
    }
    Ok(())
}

/// Words of PRINT, what comes of it at a terminal with room for five bytes, and what is printed so far.
static PRINTED: [(&[u16], Served, &[u8]); 4] = [
    (&[18505, 0, 1, 0], Served::Went, b"HI\n"),
    (
        &[18505, 0, 1, 0],
        Served::Trapped(Trap::OutputLimit),
        b"HI\n",
    ),
    (&[18505, 0, 1, 0o320], Served::Went, b"HI\nHI"),
    (&[0, 0, 0o320], Served::Went, b"HI\nHI"),
];

fn print(
    alloc: Global,
    words: &[u16],
    regs: &mut Regs,
    terminal: &mut Terminal,
) -> Result<Served, AllocError> {
    let mut stack = stack_with(alloc, words)?;
    stack.flush();
    Ok(serve(Print, regs, &mut stack, terminal))
}

fn fill(rt: &impl Abort, alloc: Global, terminal: &mut Terminal) -> Result<(), Fail> {
    let mut regs = REGS;
    for (words, wanted, printed) in &PRINTED {
        let answer = print(alloc, words, &mut regs, terminal)?;
        let is_so = answer == *wanted && terminal.printed.as_slice() == *printed;
        assert!(rt; is_so, "{printed:?}");
    }
    Ok(())
}

#[test]
fn a_room_can_be_filled_to_its_last_byte(rt: HostRuntime) -> Result<(), Fail> {
    let mut terminal = terminal_with(rt.alloc(), &[], 5)?;
    fill(&rt, rt.alloc(), &mut terminal)
}

/// READs of at most eight bytes one after the other: how many each takes, the code, and how many lines are taken so far.
static TAKEN: [(u16, Code, usize); 4] = [
    (3, Code::Equal, 1),
    (0, Code::Equal, 2),
    (4, Code::Equal, 3),
    (0, Code::Greater, 3),
];

fn takes(
    regs: &mut Regs,
    stack: &mut Stack,
    terminal: &mut Terminal,
    wanted: &(u16, Code, usize),
) -> bool {
    let (count, code, taken) = *wanted;
    let pushed = stack.push(9).is_ok() && stack.push(0).is_ok() && stack.push(65528).is_ok();
    stack.flush();
    let answer = serve(Read, regs, stack, terminal);
    pushed
        && (answer, regs.code, terminal.next_line) == (Served::Went, code, taken)
        && stack.pop() == Ok(count)
}

fn take_all(rt: &impl Abort, stack: &mut Stack, terminal: &mut Terminal) {
    let mut regs = REGS;
    for wanted in &TAKEN {
        assert!(rt; takes(&mut regs, stack, terminal, wanted), "{wanted:?}");
    }
    assert!(rt; has_words(stack, &[18255, 20292]));
}

#[test]
fn lines_are_taken_one_after_the_other(rt: HostRuntime) -> Result<(), Fail> {
    let mut terminal = terminal_with(rt.alloc(), &["ABC", "", "GOOD"], 0)?;
    match stack_with(rt.alloc(), &[9, 9]) {
        Ok(mut stack) => {
            take_all(&rt, &mut stack, &mut terminal);
            Ok(())
        }
        Err(error) => Err(error.into()),
    }
}
