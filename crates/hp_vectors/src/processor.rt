//! The same step by the processor, over a stack whose top words may stand in registers; an intrinsic that it calls is served.
ghost use Rattle.std.specs.Prelude.{◌≤◌, vec_len, vec_capacity};

use crate::fields::State;
use hp_cpu::hp_calls::finish_transfer;
use hp_cpu::hp_flat::{Line, Program};
use hp_cpu::{Cpu, Phase, Stepped};
use hp_tos::Stack;
use hp_word::Ending;
use mpe_gate::{Served, serve};
use mpe_session::Terminal;
use std::alloc::{AllocError, Global};

/// The most words of a stack and of an extra segment.
const LIMIT: usize = 32000;

/// Lets a stack's counts go on from these.
#[tactic(auto, unfolding(hp_tos::specs::Representation::seen_of))]
fn count_from(stack: &mut Stack, fills: u64, spills: u64) {
    stack.fills = fills;
    stack.spills = spills;
}

/// The stack of a state, with room for `limit` words; none where the state has no such stack.
fn stack_of(alloc: Global, state: &State, limit: u16) -> Result<Option<Stack>, AllocError> {
    let words = state.stack.len();
    let limit = limit as usize;
    if limit > LIMIT || state.extra.len() > LIMIT || words > limit || state.in_registers > 4 {
        return Ok(None);
    }
    let mut room = Vec::with_capacity(alloc, limit)?;
    room.extend_from_slice(&state.stack)?;
    room.resize(limit, 0)?;
    let mut extra = Vec::new(alloc);
    extra.extend_from_slice(&state.extra)?;
    let mut stack = Stack::make(room, extra, words as u16);
    if stack.need(state.in_registers).is_err() {
        return Ok(None);
    }
    if state.split {
        stack.split();
    }
    count_from(&mut stack, state.fills, state.spills);
    Ok(Some(stack))
}

/// Equal lines.
fn copies(alloc: Global, lines: &[Line]) -> Result<Vec<Line>, AllocError> {
    let mut copies = Vec::with_capacity(alloc, lines.len())?;
    for line in lines {
        let bytes = Vec::from_slice(alloc, &line.bytes)?;
        copies.push(Line { bytes })?;
    }
    Ok(copies)
}

/// A processor that begins a step, and its session's terminal.
#[derive(Drop)]
pub struct Seated {
    cpu: Cpu,
    terminal: Terminal,
}

impl Seated {
    /// Those of a state; none where the state is that of no session. `printed` has room for `room` bytes.
    pub fn new(
        alloc: Global,
        program: &Program,
        limit: u16,
        state: &State,
        lines: &[Line],
        printed: Vec<u8>,
        room: u32,
    ) -> Result<Option<Seated>, AllocError>
        requires within { vec_len printed ≤ room }
        requires reserved { room ≤ vec_capacity printed }
    {
        let Some(stack) = stack_of(alloc, state, limit)? else {
            return Ok(None);
        };
        let terminal = Terminal {
            lines: copies(alloc, lines)?,
            next_line: state.next_line,
            printed,
            room,
        };
        let cpu = Cpu {
            regs: state.regs,
            phase: Phase::Ready,
            stack,
            segments: (program.segments.len() % 256) as u8,
        };
        Ok(Some(Seated { cpu, terminal }))
    }

    /// Makes a step, with its transfer done, and answers how the session stands then.
    pub fn step(&mut self, program: &Program) -> Ending {
        match self.cpu.step(program) {
            Stepped::Went => {
                let _ = finish_transfer(self.cpu.phase, &mut self.cpu.regs, program);
                Ending::Running
            }
            Stepped::Gate(intrinsic) => {
                let Cpu { regs, stack, .. } = &mut self.cpu;
                match serve(intrinsic, regs, stack, &mut self.terminal) {
                    Served::Went => Ending::Running,
                    Served::Ended(ending) => ending,
                    Served::Trapped(trap) => Ending::Trapped(trap),
                }
            }
            Stepped::Trapped(trap) => Ending::Trapped(trap),
            Stepped::Absent(_) => Ending::Running,
        }
    }

    /// The first field in which the session, which has ended so, differs from a state.
    pub fn difference(&mut self, ending: Ending, wanted: &State) -> Option<&'static str> {
        let regs = self.cpu.regs;
        let stack = &mut self.cpu.stack;
        let tests = [
            (regs.seg == wanted.regs.seg, "SEG"),
            (regs.p == wanted.regs.p, "P"),
            (regs.right == wanted.regs.right, "R"),
            (regs.x == wanted.regs.x, "X"),
            (regs.q == wanted.regs.q, "Q"),
            (regs.traps == wanted.regs.traps, "TRAPS"),
            (regs.overflow == wanted.regs.overflow, "OVERFLOW"),
            (regs.carry == wanted.regs.carry, "CARRY"),
            (regs.code == wanted.regs.code, "CODE"),
            (stack.is_split() == wanted.split, "SPLIT"),
            (stack.top.len() as u8 == wanted.in_registers, "SR"),
            (stack.fills == wanted.fills, "FILLS"),
            (stack.spills == wanted.spills, "SPILLS"),
            (self.terminal.next_line == wanted.next_line, "NEXTLINE"),
            (ending == wanted.ending, "ENDING"),
            (self.terminal.printed == wanted.printed, "PRINTED"),
            (has_words(stack, &wanted.stack), "STACK"),
            (has_extra(stack, &wanted.extra), "EXTRA"),
        ];
        for (same, name) in tests {
            if !same {
                return Some(name);
            }
        }
        None
    }
}

/// Whether these are the words of a stack.
fn has_words(stack: &Stack, words: &[u16]) -> bool {
    let mut address = 0u16;
    for &w in words {
        if stack.read_stack(address) != Ok(w) {
            return false;
        }
        address = address.wrapping_add(1);
    }
    stack.words() as usize == words.len()
}

/// Whether these are the words of a stack's extra segment.
fn has_extra(stack: &mut Stack, words: &[u16]) -> bool {
    stack.split();
    let mut address = 0u16;
    for &w in words {
        if stack.read_db(address) != Ok(w) {
            return false;
        }
        address = address.wrapping_add(1);
    }
    stack.read_db(address).is_err()
}
