//! Sequences of calls on a stack with registers, with the answers and the numbers that follow from the rules, worked by hand, and each
//! refusal with what it shows.
use Call::{
    At, Delete, Flush, IsSplit, Join, Limit, Need, Numbers, Pop, Push, Read, ReadDb, Split, Stands,
    Write, WriteDb,
};
use hp_tos::{Overflow, Stack, Underflow};
use hp_window::Bounds;
use std::alloc::{AllocError, Global};
use std::process::Abort;
use std::test::Fail;

/// How many words were asked for in vain, and how many there are.
type Wanted = (u8, u16);

/// An address that is not in bounds, and the first that is above all in bounds.
type Outside = (u16, u16);

/// A call with its answer, or what a stack has.
enum Call {
    /// A word, and STACK where no more fit.
    Push(u16, Result<(), u16>),
    Need(u8, Result<(), Wanted>),
    Pop(Result<u16, Wanted>),
    At(u16, Result<u16, Wanted>),
    Delete(u16, Result<(), Wanted>),
    Flush,
    Read(u16, Result<u16, Outside>),
    Write(u16, u16, Result<(), Outside>),
    ReadDb(u16, Result<u16, Outside>),
    WriteDb(u16, u16, Result<(), Outside>),
    Split(bool),
    Join(bool),
    IsSplit(bool),
    Limit(u16),
    /// How many words stand in memory, and those in registers.
    Stands(u16, &'static [u16]),
    /// How many words there are, how many of them in registers, the fills and the spills.
    Numbers(u16, u8, u64, u64),
}

/// What a fault of too few words shows.
fn wanted<T>(answer: Result<T, Underflow>) -> Result<T, Wanted> {
    answer.map_err(|fault| (fault.wanted, fault.there))
}

/// What a fault of an address shows.
fn outside<T>(answer: Result<T, Bounds>) -> Result<T, Outside> {
    answer.map_err(|fault| (fault.address, fault.top))
}

/// What a fault of too many words shows.
fn limited(answer: Result<(), Overflow>) -> Result<(), u16> {
    answer.map_err(|fault| fault.limit)
}

/// Whether so many words stand in memory, and these in registers.
fn stands(stack: &Stack, in_memory: u16, registers: &[u16]) -> bool {
    stack.sm == in_memory && stack.top.as_slice() == registers
}

/// Makes a call, and tells whether it is answered so.
fn is_answered(stack: &mut Stack, call: &Call) -> bool {
    match call {
        Push(w, answer) => limited(stack.push(*w)) == *answer,
        Need(n, answer) => *n <= 4 && wanted(stack.need(*n)) == *answer,
        Pop(answer) => wanted(stack.pop()) == *answer,
        At(depth, answer) => wanted(stack.at(*depth)) == *answer,
        Delete(n, answer) => wanted(stack.drop_words(*n)) == *answer,
        Flush => {
            stack.flush();
            true
        }
        Read(address, answer) => outside(stack.read_stack(*address)) == *answer,
        Write(address, w, answer) => outside(stack.write_stack(*address, *w)) == *answer,
        ReadDb(address, answer) => outside(stack.read_db(*address)) == *answer,
        WriteDb(address, w, answer) => outside(stack.write_db(*address, *w)) == *answer,
        Split(answer) => stack.split() == *answer,
        Join(answer) => stack.join() == *answer,
        IsSplit(answer) => stack.is_split() == *answer,
        Limit(limit) => stack.limit() == *limit,
        Stands(in_memory, registers) => stands(stack, *in_memory, registers),
        Numbers(words, in_registers, fills, spills) => {
            stack.words() == *words
                && stack.top.len() == *in_registers as usize
                && stack.fills == *fills
                && stack.spills == *spills
        }
    }
}

/// A stack with room for seven words, on which so many were pushed, the first being 1, and an extra segment of two.
fn pushed(alloc: Global, pushes: u16) -> Result<Stack, AllocError> {
    let room = vec![in alloc; 0; 7]?;
    let extra = vec![in alloc; 50, 51]?;
    let mut stack = Stack::make(room, extra, 0);
    for w in 1..=pushes {
        let _ = stack.push(w);
    }
    Ok(stack)
}

/// So many words are pushed, the first being 1, and then the calls are made.
static CASES: [(u16, &[Call]); 19] = [
    (
        0,
        &[
            Need(0, Ok(())),
            Delete(0, Ok(())),
            Flush,
            Numbers(0, 0, 0, 0),
        ],
    ),
    (4, &[Numbers(4, 4, 0, 0)]),
    (6, &[Numbers(6, 4, 0, 2)]),
    (
        6,
        &[
            Pop(Ok(6)),
            Pop(Ok(5)),
            Pop(Ok(4)),
            Pop(Ok(3)),
            Numbers(2, 0, 0, 2),
            Need(2, Ok(())),
            Numbers(2, 2, 2, 2),
        ],
    ),
    (
        6,
        &[
            Pop(Ok(6)),
            Pop(Ok(5)),
            Pop(Ok(4)),
            Pop(Ok(3)),
            Pop(Ok(2)),
            Numbers(1, 0, 1, 2),
        ],
    ),
    (6, &[Delete(3, Ok(())), Numbers(3, 1, 0, 2)]),
    (6, &[Delete(5, Ok(())), At(0, Ok(1)), Numbers(1, 0, 0, 2)]),
    (7, &[Delete(7, Ok(())), Numbers(0, 0, 0, 3)]),
    (6, &[Flush, Numbers(6, 0, 0, 6)]),
    (3, &[Flush, Flush, Numbers(3, 0, 0, 3)]),
    (
        6,
        &[
            Flush,
            At(0, Ok(6)),
            At(5, Ok(1)),
            Need(3, Ok(())),
            Push(7, Ok(())),
            Numbers(7, 4, 3, 6),
        ],
    ),
    (2, &[Need(1, Ok(())), Need(2, Ok(())), Numbers(2, 2, 0, 0)]),
    (
        3,
        &[
            Flush,
            Push(4, Ok(())),
            Need(3, Ok(())),
            Pop(Ok(4)),
            Pop(Ok(3)),
            Pop(Ok(2)),
            Numbers(1, 0, 2, 3),
        ],
    ),
    (
        5,
        &[
            Need(4, Ok(())),
            Pop(Ok(5)),
            Push(8, Ok(())),
            Push(9, Ok(())),
            Numbers(6, 4, 0, 2),
        ],
    ),
    // A word in a register is newer than the one beneath it: in memory 44 stands at address 3 once it is spilled, and stays there when it
    // is filled and written again.
    (
        6,
        &[
            Stands(2, &[3, 4, 5, 6]),
            Write(3, 44, Ok(())),
            Stands(2, &[3, 44, 5, 6]),
            Read(3, Ok(44)),
            Flush,
            Need(3, Ok(())),
            Stands(3, &[44, 5, 6]),
            WriteDb(3, 45, Ok(())),
            Read(3, Ok(45)),
            ReadDb(3, Ok(45)),
            Split(true),
            Join(true),
            Read(3, Ok(45)),
            At(2, Ok(45)),
            Numbers(6, 3, 3, 6),
        ],
    ),
    // Refusals show both numbers and change nothing.
    (0, &[Pop(Err((1, 0))), Numbers(0, 0, 0, 0)]),
    (
        3,
        &[
            Need(4, Err((4, 3))),
            At(3, Err((4, 3))),
            At(253, Err((254, 3))),
            At(254, Err((255, 3))),
            At(255, Err((255, 3))),
            At(65535, Err((255, 3))),
            Delete(4, Err((4, 3))),
            Delete(255, Err((255, 3))),
            Delete(256, Err((255, 3))),
            Delete(65535, Err((255, 3))),
            ReadDb(3, Err((3, 3))),
            WriteDb(3, 9, Err((3, 3))),
            Read(3, Err((3, 3))),
            Write(3, 9, Err((3, 3))),
            Stands(0, &[1, 2, 3]),
            Numbers(3, 3, 0, 0),
        ],
    ),
    (
        7,
        &[
            Push(8, Err(7)),
            Stands(3, &[4, 5, 6, 7]),
            Numbers(7, 4, 0, 3),
            Limit(7),
        ],
    ),
    // Each mode has its own DB.
    (
        6,
        &[
            Join(false),
            ReadDb(0, Ok(1)),
            ReadDb(5, Ok(6)),
            WriteDb(4, 95, Ok(())),
            Split(true),
            IsSplit(true),
            Split(false),
            ReadDb(1, Ok(51)),
            ReadDb(2, Err((2, 2))),
            WriteDb(0, 90, Ok(())),
            WriteDb(65535, 9, Err((65535, 2))),
            Read(4, Ok(95)),
            Read(0, Ok(1)),
            Write(3, 94, Ok(())),
            Join(true),
            IsSplit(false),
            At(2, Ok(94)),
            At(1, Ok(95)),
            At(0, Ok(6)),
            Split(true),
            ReadDb(0, Ok(90)),
            Numbers(6, 4, 0, 2),
        ],
    ),
];

/// Makes the calls of a case, each of which has to be answered so.
fn make_calls(rt: &impl Abort, number: usize, stack: &mut Stack, calls: &[Call]) {
    for (step, call) in calls.iter().enumerate() {
        assert!(rt; is_answered(stack, call), "call {step} of case {number}");
    }
}

#[test]
fn calls_are_answered_and_counted(rt: HostRuntime) -> Result<(), Fail> {
    for (number, (pushes, calls)) in CASES.iter().enumerate() {
        let mut stack = pushed(rt.alloc(), *pushes)?;
        make_calls(&rt, number, &mut stack, calls);
    }
    Ok(())
}

/// Calls on a stack that begins with three words, the last being 13, in a room of five.
static BEGUN: [Call; 5] = [
    Numbers(3, 0, 0, 0),
    Limit(5),
    IsSplit(false),
    Pop(Ok(13)),
    Numbers(2, 0, 1, 0),
];

#[test]
fn a_stack_begins_with_the_first_words_of_its_room(rt: HostRuntime) -> Result<(), Fail> {
    let room = vec![in rt.alloc(); 11, 12, 13, 14, 15]?;
    let mut stack = Stack::make(room, Vec::new(rt.alloc()), 3);
    for (step, call) in BEGUN.iter().enumerate() {
        assert!(rt; is_answered(&mut stack, call), "call {step}");
    }
    Ok(())
}
