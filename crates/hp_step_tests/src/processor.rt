//! Steps over the register stack with what they leave worked by hand from the rules; one step of every word beside the flat
//! machine's; stores that hold a segment later, or with another word.
ghost use Rattle.std.specs.Prelude.{◌≡◌, ◌==◌, ◌≤◌, None, Some, length, vec_len, vec_capacity, IfOk, if◌then◌else◌};
ghost use Rattle.hp_word.specs.declared.endings.Ending.TheVariants.{Running};

use super::stacks::{Lacking, has_words, numbers, stack_with};
use hp_cpu::hp_calls::finish_transfer;
use hp_cpu::hp_flat::Flat;
use hp_cpu::{Cpu, Phase, Regs, Stack, Stepped};
use hp_program::{CodeStore, Fetched, Program};
use hp_word::{Code, Ending, Intrinsic, Trap};
use std::alloc::{AllocError, Global};
use std::test::Fail;

/// Registers with X 7, Q 1, P 0 and segment 0, user traps and carry on, and CCE: the status is %23000.
const REGS: Regs = Regs {
    x: 7,
    q: 1,
    p: 0,
    seg: 0,
    traps: true,
    right: false,
    overflow: false,
    carry: true,
    code: Code::Equal,
};

/// Two segments. The first begins with a word, and has the entries 2, entry 1 of the second, and the intrinsic QUIT; the second
/// has the entry 3.
fn program_with(alloc: Global, word: u16) -> Result<Option<Program>, AllocError> {
    let first = vec![in alloc; word, 0, 0, 0, 0o104377, 0o100401, 2, 3]?;
    let second = vec![in alloc; 0, 0, 0, 0, 0, 3, 1]?;
    let segments = vec![in alloc; first, second]?;
    Ok(Program::new(segments, 0, 1, Vec::new(alloc)).ok())
}

/// A word, R, and the words of a stack with how many stand in registers; then the answer, and the words, P, R and the numbers
/// after it.
type Line = (
    u16,
    bool,
    &'static [u16],
    u8,
    Stepped,
    &'static [u16],
    u16,
    bool,
    (u8, u64, u64),
);

static LINES: [Line; 22] = [
    // ADD,NOP fills one word, and passes in one step
    (
        0o2000,
        false,
        &[10, 20, 30],
        1,
        Stepped::Went,
        &[10, 50],
        1,
        false,
        (1, 1, 0),
    ),
    // ADD,DUP: the left one, then the right one
    (
        0o2045,
        false,
        &[10, 20, 30],
        1,
        Stepped::Went,
        &[10, 50],
        0,
        true,
        (1, 1, 0),
    ),
    (
        0o2045,
        true,
        &[10, 20, 30],
        1,
        Stepped::Went,
        &[10, 20, 30, 30],
        1,
        false,
        (2, 0, 0),
    ),
    // NOP,ADD: the left NOP is a step
    (
        0o0020,
        false,
        &[10, 20, 30],
        2,
        Stepped::Went,
        &[10, 20, 30],
        0,
        true,
        (2, 0, 0),
    ),
    // NOP,NOP
    (
        0,
        false,
        &[10],
        1,
        Stepped::Went,
        &[10],
        1,
        false,
        (1, 0, 0),
    ),
    // DUP,NOP with four registers in use
    (
        0o4500,
        false,
        &[1, 2, 3, 4],
        4,
        Stepped::Went,
        &[1, 2, 3, 4, 4],
        1,
        false,
        (4, 0, 1),
    ),
    // DUP,NOP with no room
    (
        0o4500,
        false,
        &[1, 2, 3, 4, 5, 6, 7, 8, 9],
        0,
        Stepped::Trapped(Trap::StackOverflow),
        &[1, 2, 3, 4, 5, 6, 7, 8, 9],
        0,
        false,
        (1, 1, 0),
    ),
    // ADD on one word; on a sum that is too large, at the right
    (
        0o2000,
        false,
        &[10],
        1,
        Stepped::Trapped(Trap::StackUnderflow),
        &[10],
        0,
        false,
        (1, 0, 0),
    ),
    (
        0o0020,
        true,
        &[32767, 1],
        0,
        Stepped::Trapped(Trap::IntegerOverflow),
        &[32767, 1],
        0,
        true,
        (2, 2, 0),
    ),
    // a right half that is no operation makes the word illegal before its left half is done, and so with R at 1
    (
        0o2013,
        false,
        &[10, 20],
        0,
        Stepped::Trapped(Trap::Illegal),
        &[10, 20],
        0,
        false,
        (0, 0, 0),
    ),
    (
        0o2013,
        true,
        &[10, 20],
        0,
        Stepped::Trapped(Trap::Illegal),
        &[10, 20],
        0,
        true,
        (0, 0, 0),
    ),
    // LDI 5 is done whole with R at 1
    (
        0o20405,
        true,
        &[10, 20, 30],
        3,
        Stepped::Went,
        &[10, 20, 30, 5],
        1,
        false,
        (4, 0, 0),
    ),
    // CMPI 5 without a word leaves R
    (
        0o21405,
        true,
        &[],
        0,
        Stepped::Trapped(Trap::StackUnderflow),
        &[],
        0,
        true,
        (0, 0, 0),
    ),
    // PCAL 1, a local entry: R is cleared before the status is pushed
    (
        0o30001,
        true,
        &[10, 20, 30],
        2,
        Stepped::Went,
        &[10, 20, 30, 7, 1, 0o23000, 5],
        2,
        false,
        (4, 0, 2),
    ),
    // PCAL 3, QUIT
    (
        0o30003,
        true,
        &[10, 20, 30],
        3,
        Stepped::Gate(Intrinsic::Quit),
        &[10, 20, 30],
        0,
        true,
        (0, 0, 3),
    ),
    // PCAL 4, no entry
    (
        0o30004,
        true,
        &[10, 20, 30],
        3,
        Stepped::Trapped(Trap::BadEntry),
        &[10, 20, 30],
        0,
        true,
        (0, 0, 3),
    ),
    // SCAL 1, SXIT 1
    (
        0o31401,
        false,
        &[10, 20],
        2,
        Stepped::Went,
        &[10, 20, 1],
        2,
        false,
        (1, 0, 2),
    ),
    (
        0o31001,
        true,
        &[10, 20, 3],
        1,
        Stepped::Went,
        &[10],
        3,
        false,
        (0, 0, 1),
    ),
    // MOVE of two words: one element, at which P stays, with R cleared
    (
        0o34400,
        true,
        &[7, 8, 0, 1, 2],
        0,
        Stepped::Went,
        &[8, 8, 1, 2, 1],
        0,
        false,
        (3, 3, 0),
    ),
    // MOVE of none ends at once, and leaves the target
    (
        0o34400,
        false,
        &[7, 8, 0, 1, 0],
        4,
        Stepped::Went,
        &[7, 8, 0],
        1,
        false,
        (2, 0, 0),
    ),
    // STOR DB+0
    (
        0o51000,
        true,
        &[10, 20, 30],
        0,
        Stepped::Went,
        &[30, 20],
        1,
        false,
        (0, 1, 0),
    ),
    // an illegal word of major 1
    (
        0o14000,
        true,
        &[10],
        1,
        Stepped::Trapped(Trap::Illegal),
        &[10],
        0,
        true,
        (1, 0, 0),
    ),
];

/// A processor with these registers, and these words on its stack, so many of them in registers.
fn cpu_with(
    alloc: Global,
    regs: Regs,
    words: &[u16],
    in_registers: u8,
    segments: u8,
) -> Result<Cpu, AllocError> {
    Ok(Cpu {
        regs,
        phase: Phase::Ready,
        stack: stack_with(alloc, 9, words, in_registers, &[])?,
        segments,
    })
}

/// Whether a step leaves what its line says.
fn is_stepped(alloc: Global, line: &Line) -> Result<bool, AllocError> {
    let &(word, right, before, in_registers, answer, after, p, r, wanted) = line;
    let mut cpu = cpu_with(alloc, Regs { right, ..REGS }, before, in_registers, 2)?;
    let Some(program) = program_with(alloc, word)? else {
        return Ok(false);
    };
    let (fills, spills) = (cpu.stack.fills, cpu.stack.spills);
    Ok(
        cpu.step(&program) == answer
            && has_words(&cpu.stack, after)
            && (cpu.regs.p, cpu.regs.right, cpu.phase) == (p, r, Phase::Ready)
            && numbers(&cpu.stack, fills, spills) == wanted,
    )
}

#[test]
fn steps_with_the_numbers_of_registers(rt: HostRuntime) -> Result<(), Fail> {
    for line in &LINES {
        assert!(rt; is_stepped(rt.alloc(), line)?, "{}", line.0);
    }
    Ok(())
}

/// A store that holds one segment, as its words were loaded.
#[derive(Drop)]
struct Loaded {
    seg: u8,
    words: Vec<u16>,
    ghost short: { vec_len words ≤ 16383 },
}

impl CodeStore for Loaded {
    ghost held = { λ store seg. if seg == store.seg then Some store.words.items else None };

    fn size(&self, seg: u8) -> Option<u16> {
        if seg == self.seg {
            Some(self.words.len() as u16)
        } else {
            None
        }
    }

    #[tactic(auto, unfolding(hp_program::specs::Stores::fetched))]
    fn fetch(&self, seg: u8, offset: u16) -> Fetched {
        if seg != self.seg {
            return Fetched::Absent;
        }
        match self.words.get(offset as usize).copied() {
            None => Fetched::Outside,
            Some(word) => Fetched::Word(word),
        }
    }
}

/// A word, and what its step leaves.
type Fetch = (u16, &'static [u16]);

static FETCHES: [Fetch; 2] = [(0o4500, &[10, 20, 20]), (0o0600, &[10, 20, 0])];

/// Whether the step of a word that was put where NOP,NOP stood when the segment was loaded leaves that.
fn is_fetched(alloc: Global, &(word, after): &Fetch) -> Result<bool, AllocError> {
    let mut cpu = cpu_with(alloc, REGS, &[10, 20], 2, 1)?;
    let mut words = vec![in alloc; 0, 0, 0, 1]?;
    words[0] = word;
    let store = Loaded { seg: 0, words };
    Ok(cpu.step(&store) == Stepped::Went && has_words(&cpu.stack, after))
}

#[test]
fn a_word_comes_from_the_store(rt: HostRuntime) -> Result<(), Fail> {
    for fetch in &FETCHES {
        assert!(rt; is_fetched(rt.alloc(), fetch)?, "{}", fetch.0);
    }
    Ok(())
}

/// Whether a step traps at P, and leaves registers and words where they are.
fn is_past_the_end(alloc: Global, program: &Program, p: u16) -> Result<bool, AllocError> {
    let regs = Regs {
        p,
        right: true,
        ..REGS
    };
    let mut cpu = cpu_with(alloc, regs, &[10, 20], 2, 2)?;
    Ok(
        cpu.step(program) == Stepped::Trapped(Trap::CodeBounds)
            && cpu.regs == regs
            && cpu.stack.top.len() == 2,
    )
}

#[test]
fn there_is_no_word_past_the_end(rt: HostRuntime) -> Result<(), Fail> {
    let program = program_with(rt.alloc(), 0)?.expect(&rt, "a valid program");
    assert!(rt; is_past_the_end(rt.alloc(), &program, 8)?);
    assert!(rt; is_past_the_end(rt.alloc(), &program, 65535)?);
    Ok(())
}

/// The fields of a processor that a step may change, but for the words of its lists.
fn state(cpu: &Cpu) -> (Regs, Phase, u8, u64, u64, u16) {
    (
        cpu.regs,
        cpu.phase,
        cpu.stack.top.len() as u8,
        cpu.stack.fills,
        cpu.stack.spills,
        cpu.stack.words(),
    )
}

/// Whether each of three steps asks for an absent segment and changes nothing.
fn waits<C: CodeStore>(cpu: &mut Cpu, store: &C, seg: u8) -> bool {
    let waiting = state(cpu);
    for _ in 0..3u8 {
        if cpu.step(store) != Stepped::Absent(seg) || state(cpu) != waiting {
            return false;
        }
    }
    true
}

#[test]
fn a_call_waits_for_its_segment(rt: HostRuntime) -> Result<(), Fail> {
    let mut cpu = cpu_with(rt.alloc(), REGS, &[10, 20], 0, 2)?;
    let program = program_with(rt.alloc(), 0o30002)?.expect(&rt, "a valid program");
    let store = Lacking {
        program: &program,
        seg: 1,
    };
    // the call is a step, though its segment is not there
    assert!(rt; cpu.step(&store) == Stepped::Went);
    assert!(rt; cpu.phase == Phase::Entering { seg: 1, entry: 1 });
    assert!(rt; cpu.needed_segment() == 1);
    assert!(rt; has_words(&cpu.stack, &[10, 20, 7, 1, 0o23000, 4]));
    assert!(rt; waits(&mut cpu, &store, 1));
    // the next step is the pair at offset 3 of the second segment
    assert!(rt; cpu.step(&program) == Stepped::Went);
    assert!(rt; (cpu.regs.seg, cpu.regs.p, cpu.phase) == (1, 4, Phase::Ready));
    assert!(rt; has_words(&cpu.stack, &[10, 20, 7, 1, 0o23000, 4]));
    // with no transfer under way it is the current segment that is needed
    assert!(rt; waits(&mut cpu, &store, 1));
    Ok(())
}

/// Registers in the procedure that was called, at its EXIT.
const CALLED: Regs = Regs {
    q: 5,
    p: 3,
    seg: 1,
    ..REGS
};

/// Registers after the return and NOP,NOP.
const RETURNED: Regs = Regs { x: 8, p: 2, ..REGS };

#[test]
fn a_return_waits_for_its_segment(rt: HostRuntime) -> Result<(), Fail> {
    let mut cpu = cpu_with(rt.alloc(), CALLED, &[10, 20, 8, 1, 0o23000, 4], 4, 2)?;
    let program = program_with(rt.alloc(), 0o30002)?.expect(&rt, "a valid program");
    let exit = Loaded {
        seg: 1,
        words: vec![in rt.alloc(); 0, 0, 0, 0o30400, 0, 3, 1]?,
    };
    assert!(rt; cpu.step(&exit) == Stepped::Went);
    assert!(rt; cpu.phase == Phase::Returning { seg: 0, offset: 1 });
    assert!(rt; waits(&mut cpu, &exit, 0));
    assert!(rt; cpu.step(&program) == Stepped::Went);
    assert!(rt; cpu.regs == RETURNED);
    assert!(rt; has_words(&cpu.stack, &[10, 20]));
    Ok(())
}

/// A session before its step: registers, mode, the words of stack and extra segment, and STACK.
#[derive(Drop)]
struct Prepared<'a> {
    regs: Regs,
    split: bool,
    stack: &'a [u16],
    extra: &'a [u16],
    limit: u8,
    in_registers: u8,
}

/// Equal items in a list with room for `limit`.
fn roomy(alloc: Global, items: &[u16], limit: usize) -> Result<Vec<u16>, AllocError>
    requires { length items.now ≤ limit }
    ensures within { IfOk result (λ v. vec_len v ≤ limit) }
    ensures reserved { IfOk result (λ v. limit ≤ vec_capacity v) }
{
    let mut copies = Vec::with_capacity(alloc, limit)?;
    copies.extend_from_slice(items).unwrap();
    Ok(copies)
}

/// The session of the flat machine.
fn flat_of(alloc: Global, prepared: &Prepared) -> Result<Flat, AllocError>
    requires { length prepared.now.stack.now ≤ prepared.now.limit }
    ensures { IfOk result (λ session. session.ending ≡ Running) }
{
    Ok(Flat {
        regs: prepared.regs,
        split: prepared.split,
        stack: roomy(alloc, prepared.stack, prepared.limit as usize)?,
        extra: Vec::from_slice(alloc, prepared.extra)?,
        lines: Vec::new(alloc),
        next_line: 0,
        printed: Vec::new(alloc),
        ending: Ending::Running,
        stack_limit: prepared.limit as u16,
        room: 0,
    })
}

/// The processor.
fn cpu_of(alloc: Global, prepared: &Prepared) -> Result<Cpu, AllocError> {
    let mut stack = stack_with(
        alloc,
        prepared.limit,
        prepared.stack,
        prepared.in_registers,
        prepared.extra,
    )?;
    if prepared.split {
        stack.split();
    }
    Ok(Cpu {
        regs: prepared.regs,
        phase: Phase::Ready,
        stack,
        segments: 2,
    })
}

/// Whether the extra segment has these words. Leaves split mode.
fn has_extra(stack: &mut Stack, words: &[u16]) -> bool {
    stack.split();
    let mut address = 0u16;
    for &w in words {
        if stack.read_db(address) != Ok(w) {
            return false;
        }
        address = address.wrapping_add(1);
    }
    stack.read_db(address).is_err()
}

/// Whether a processor, its transfer finished, has the registers, words and mode of a session.
fn stands_for(cpu: &mut Cpu, flat: &Flat, program: &Program) -> bool {
    let mut regs = cpu.regs;
    finish_transfer(cpu.phase, &mut regs, program).is_ok()
        && regs == flat.regs
        && cpu.stack.is_split() == flat.split
        && has_words(&cpu.stack, &flat.stack)
        && has_extra(&mut cpu.stack, &flat.extra)
}

/// Whether the step of a word is that of the flat machine. Of a call of an intrinsic the processor leaves all.
fn is_alike(alloc: Global, prepared: &Prepared, word: u16) -> Result<bool, AllocError>
    requires { length prepared.now.stack.now ≤ prepared.now.limit }
{
    let Some(program) = program_with(alloc, word)? else {
        return Ok(false);
    };
    let mut flat = flat_of(alloc, prepared)?;
    let before = flat_of(alloc, prepared)?;
    if (flat.regs.seg as usize) < program.segments.len() {
        flat.step(&program);
    }
    let mut cpu = cpu_of(alloc, prepared)?;
    Ok(match cpu.step(&program) {
        Stepped::Went => flat.ending == Ending::Running && stands_for(&mut cpu, &flat, &program),
        Stepped::Trapped(trap) => flat.ending == Ending::Trapped(trap)
            && stands_for(&mut cpu, &before, &program),
        Stepped::Gate(intrinsic) => intrinsic == Intrinsic::Quit
            && word == 0o30003
            && stands_for(&mut cpu, &before, &program),
        Stepped::Absent(_) => false,
    })
}

/// The first word whose step differs, if one does.
fn first_difference(alloc: Global, prepared: &Prepared) -> Result<Option<u16>, AllocError>
    requires { length prepared.now.stack.now ≤ prepared.now.limit }
{
    for w in 0..65536u32 {
        let word = (w % 65536) as u16;
        if !is_alike(alloc, prepared, word)? {
            return Ok(Some(word));
        }
    }
    Ok(None)
}

/// A marker at 6 to 9, with room left; in split mode with R at 1, both flags on and no room; an empty stack.
static STATES: [Prepared; 3] = [
    Prepared {
        regs: Regs { x: 3, q: 9, ..REGS },
        split: false,
        stack: &[
            5, 32767, 40000, 7, 1, 2, 65535, 2, 10241, 6, 24930, 12594, 3, 2,
        ],
        extra: &[7, 24930, 65535],
        limit: 20,
        in_registers: 3,
    },
    Prepared {
        regs: Regs {
            x: 65535,
            q: 5,
            right: true,
            overflow: true,
            code: Code::Less,
            ..REGS
        },
        split: true,
        stack: &[2, 1, 9, 4, 0, 4],
        extra: &[12849, 16706, 3, 0, 65535],
        limit: 6,
        in_registers: 4,
    },
    Prepared {
        regs: Regs {
            x: 0,
            q: 65535,
            traps: false,
            code: Code::Greater,
            ..REGS
        },
        split: false,
        stack: &[],
        extra: &[],
        limit: 1,
        in_registers: 0,
    },
];

#[test]
fn one_step_of_every_word_beside_the_flat_machine(rt: HostRuntime) -> Result<(), Fail> {
    for prepared in &STATES {
        assert!(rt; prepared.stack.len() <= prepared.limit as usize);
        assert_eq!(rt; first_difference(rt.alloc(), prepared)?, None);
    }
    Ok(())
}
