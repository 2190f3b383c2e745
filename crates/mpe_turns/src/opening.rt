//! How a monitor opens: stacks and memory are tested, and then all memory is reserved that its turns need.
ghost use Rattle.std.specs.Prelude.{◌≡◌, ◌+◌, ◌*◌, ◌<◌, ◌≤◌, ◌++◌, length, max, drop, take, replicate, vec_len, IfOk, IfSome, MatchResult, Err, None, Some};
ghost use Rattle.hp_program.specs.declared.program.Program.{Program};
ghost use Rattle.hp_program.specs.Programs.{segments_of};
ghost use Rattle.mpe_overlay.specs.Codes.{codes_of};
ghost use Rattle.mpe_worlds.specs.Opening.{largest, largest_segment, opening_run, seated_words};
ghost use Rattle.mpe_turns.specs.Opened.{AreOpened};
ghost use Rattle.mpe_turns.specs.Opening.{AreSeats, refusal, small_stack_from, stack_needed};
ghost use Rattle.mpe_turns.specs.Stands.{IsSessionOf, run_of};

use crate::fault::OpenFault;
use crate::monitor::Monitor;
use crate::session::Session;
use hp_program::{Program, label_word, segment_words};
use hp_word::{Code, Ending};
use mpe_overlay::Overlay;
use mpe_session::{Seat, Terminal};
use mpe_worlds::hp_cpu::{Cpu, Phase, Regs, Stack};
use std::alloc::{AllocError, Global};

/// The words of stack that a session of a program needs.
#[tactic(auto, using(hp_program::proofs::ValidLaws::few_globals))]
fn words_needed(program: &Program) -> u32
    ensures value { result ≡ stack_needed program.now }
    ensures few { result ≤ 32004 }
{
    program.globals.len() as u32 + 4
}

/// Tests the stacks in order.
fn check_stacks(seats: &[Seat], programs: &[Program]) -> Result<(), OpenFault>
    requires { AreSeats programs.now seats.now }
    ensures { MatchResult result (λ _. small_stack_from 0 programs.now seats.now ≡ None) (λ e. small_stack_from 0 programs.now seats.now ≡ Some e) }
{
    for (i, seat) in seats.iter().enumerate() {
        let need = words_needed(&programs[seat.program as usize]);
        if (seat.stack as u32) < need {
            return Err(OpenFault::StackTooSmall {
                session: i as u8,
                need,
                given: seat.stack,
            });
        }
    }
    Ok(())
}

/// The words of all stacks and extra segments.
fn count_words(seats: &[Seat]) -> u32
    requires { length seats.now ≤ 16 }
    ensures value { result ≡ seated_words seats.now }
    ensures few { result ≤ 131070 * length seats.now }
{
    let mut words = 0;
    for seat in seats {
        words += seat.stack as u32 + seat.extra as u32;
    }
    words
}

/// The larger of two numbers.
fn larger(a: u32, b: u32) -> u32
    ensures { result ≡ max a b }
{
    a.max(b)
}

/// The words of the largest segment of a program.
fn find_largest_segment(program: &Program) -> u32
    ensures value { result ≡ largest_segment (segments_of program.now) }
    ensures few { result ≤ 16383 }
{
    let mut size = 0;
    for words in &program.segments {
        size = larger(size, words.len() as u32);
    }
    size
}

/// The words of the largest segment of any program.
fn find_largest(programs: &[Program]) -> u32
    ensures value { result ≡ largest (codes_of programs.now) }
    ensures few { result ≤ 16383 }
{
    let mut size = 0;
    for program in programs {
        size = larger(size, find_largest_segment(program));
    }
    size
}

/// Puts words first.
fn put_first(room: &mut [u16], words: &[u16])
    requires { length words.now ≤ length room.old }
    ensures { room.new ≡ words.now ++ drop (length words.now) room.old }
{
    room[..words.len()].copy_from_slice(words);
}

/// The room of a stack, with the data words first and zeros behind them.
fn opening_stack(alloc: Global, globals: &[u16], limit: u16) -> Result<Vec<u16>, AllocError>
    requires { length globals.now + 4 ≤ limit }
    ensures words { IfOk result (λ room. take (length globals.now + 4) room.items ≡ globals.now ++ replicate 4 0) }
    ensures len { IfOk result (λ room. vec_len room ≡ limit) }
{
    let mut room = vec![in alloc; 0; limit as usize]?;
    put_first(&mut room, globals);
    Ok(room)
}

/// The session of a seat, with all its memory.
#[tactic(auto, using(hp_program::proofs::ValidLaws::few_globals, hp_program::proofs::ValidLaws::main_there))]
fn open_session(alloc: Global, seat: Seat, program: &Program) -> Result<Session, AllocError>
    requires enough { stack_needed program.now ≤ seat.stack }
    requires stack { seat.stack ≤ 32000 }
    requires extra { seat.extra ≤ 32000 }
    ensures run { IfOk result (λ s. run_of (segments_of program.now) s ≡ opening_run program.now seat) }
    ensures session { IfOk result (IsSessionOf program.now) }
{
    let data = program.globals.len() as u16;
    let room = opening_stack(alloc, &program.globals, seat.stack)?;
    let extra = vec![in alloc; 0; seat.extra as usize]?;
    let terminal = Terminal::make(alloc, seat.lines, seat.room)?;
    let regs = Regs {
        x: 0,
        q: data + 3,
        p: label_word(segment_words(program, program.main), program.entry as u16),
        seg: program.main,
        traps: true,
        right: false,
        overflow: false,
        carry: false,
        code: Code::Equal,
    };
    let cpu = Cpu {
        regs,
        phase: Phase::Ready,
        stack: Stack::make(room, extra, data + 4),
        segments: program.segments.len() as u8,
    };
    Ok(Session {
        cpu,
        terminal,
        program: seat.program,
        ending: Ending::Running,
        steps: 0,
    })
}

/// The sessions of all seats.
fn open_sessions(
    alloc: Global,
    seats: Vec<Seat>,
    programs: &[Program],
) -> Result<Vec<Session>, AllocError>
    requires seats { AreSeats programs.now seats.items }
    requires stacks { small_stack_from 0 programs.now seats.items ≡ None }
    ensures { IfOk result (λ sessions. AreOpened programs.now seats.items sessions.items) }
{
    let mut sessions = Vec::with_capacity(alloc, seats.len())?;
    for seat in seats {
        let program = &programs[seat.program as usize];
        sessions.push(open_session(alloc, seat, program)?)?;
    }
    Ok(sessions)
}

impl Monitor {
    ghost use Rattle.mpe_worlds.specs.Opening.{opening};
    ghost use Rattle.mpe_turns.specs.declared.fault.OpenFault.TheVariants.{NoMemory};
    ghost use Rattle.mpe_turns.specs.Monitors.{world_of};

    /// A monitor of sessions at these seats, with so many words of memory. From 0 on memory has the stacks and extra segments, and
    /// behind them the code area. The stacks are tested in order, and then the memory. A refusal drops seats and programs. All
    /// memory is reserved that later calls need.
    pub fn open(
        alloc: Global,
        memory: u32,
        seats: Vec<Seat>,
        programs: Vec<Program>,
    ) -> Result<Monitor, OpenFault>
        requires memory { memory ≤ 1048576 }
        requires seats { AreSeats programs.items seats.items }
        requires programs { length programs.items ≤ 16 }
        ensures refused { IfSome (refusal memory seats.items programs.items) (λ e. result ≡ Err e) }
        ensures opened { refusal memory seats.items programs.items ≡ None
            → MatchResult result (λ m. world_of m ≡ opening memory seats.items programs.items) (λ e. e ≡ NoMemory) }
        ensures programs { IfOk result (λ m. m.overlay.programs ≡ programs) }
        ensures base { IfOk result (λ m. m.overlay.base ≡ seated_words seats.items) }
        ensures spent { IfOk result (λ m. m.spent ≡ 0) }
    {
        check_stacks(&seats, &programs)?;
        let stacks = count_words(&seats);
        let need = stacks + find_largest(&programs);
        if memory < need {
            return Err(OpenFault::MemoryTooSmall {
                need,
                given: memory,
            });
        }
        let sessions = open_sessions(alloc, seats, &programs)?;
        let overlay = Overlay::make(alloc, stacks, memory - stacks, programs)?;
        Ok(Monitor {
            overlay,
            sessions,
            last: 255,
            turns: 0,
            spent: 0,
        })
    }
}
