//! One case: a program, the state before a step, and the state that must follow.

ghost use Rattle.std.specs.Prelude.{◌≤◌, IfOk, IfSome, vec_len, vec_capacity};

use crate::fields::{State, bytes, number, words};
use crate::processor::Seated;
use hp_cpu::hp_flat::{Flat, Line, Program};
use std::alloc::{AllocError, Global};

/// A case whose lines are being read.
#[derive(Drop)]
pub struct Case {
    number: u32,
    segments: Vec<Vec<u16>>,
    stack_limit: u16,
    room: u32,
    lines: Vec<Line>,
    before: Option<State>,
}

/// What a case says of the step.
#[derive(Clone, Copy, Debug, PartialEq, Eq)]
pub enum Verdict {
    /// The step leaves the state that must follow.
    Agrees,
    /// It leaves another: the case's number, and the first field that differs.
    Differs(u32, &'static str),
}

/// What came of a case.
#[derive(Clone, Copy, Debug, PartialEq, Eq)]
pub struct Judged {
    /// The step of the flat machine.
    pub flat: Verdict,
    /// The step of the processor, over a stack in registers.
    pub processor: Verdict,
}

/// Terminal lines in hexadecimal digits, parted by commas.
fn terminal(alloc: Global, text: &str) -> Result<Vec<Line>, AllocError> {
    let mut lines = Vec::new(alloc);
    for part in text.split(',') {
        lines.push(Line {
            bytes: bytes(alloc, part)?,
        })?;
    }
    Ok(lines)
}

/// An entry of a segment whose label is local, if there is one.
fn local_entry(words: &[u16]) -> Option<u8> {
    let count = words.last().copied()?;
    for n in 1..128u8 {
        if n as u16 <= count && (n as usize) < words.len() {
            let label = words[words.len() - 1 - n as usize];
            if label < 16384 && label as usize + (count as usize) + 1 < words.len() {
                return Some(n);
            }
        }
    }
    None
}

/// A segment with a local entry, and that entry; a valid program has one to start at.
fn start(segments: &[Vec<u16>]) -> (u8, u8) {
    for (s, words) in segments.iter().enumerate() {
        if let Some(n) = local_entry(words) {
            return ((s % 256) as u8, n);
        }
    }
    (0, 0)
}

/// Equal words in a list with room for `limit`; none where they are more.
fn roomy<T: Copy>(alloc: Global, words: &[T], limit: usize) -> Result<Option<Vec<T>>, AllocError>
    ensures within { IfOk result (λ copies. IfSome copies (λ v. vec_len v ≤ limit)) }
    ensures reserved { IfOk result (λ copies. IfSome copies (λ v. limit ≤ vec_capacity v)) }
{
    if limit < words.len() {
        return Ok(None);
    }
    let mut copies = Vec::with_capacity(alloc, limit)?;
    copies.extend_from_slice(words).unwrap();
    Ok(Some(copies))
}

/// The first field in which a session differs from a state.
fn difference(flat: &Flat, wanted: &State) -> Option<&'static str> {
    let regs = flat.regs;
    let tests = [
        (regs.seg == wanted.regs.seg, "SEG"),
        (regs.p == wanted.regs.p, "P"),
        (regs.right == wanted.regs.right, "R"),
        (regs.x == wanted.regs.x, "X"),
        (regs.q == wanted.regs.q, "Q"),
        (regs.traps == wanted.regs.traps, "TRAPS"),
        (regs.overflow == wanted.regs.overflow, "OVERFLOW"),
        (regs.carry == wanted.regs.carry, "CARRY"),
        (regs.code == wanted.regs.code, "CODE"),
        (flat.split == wanted.split, "SPLIT"),
        (flat.next_line == wanted.next_line, "NEXTLINE"),
        (flat.ending == wanted.ending, "ENDING"),
        (flat.printed == wanted.printed, "PRINTED"),
        (flat.stack == wanted.stack, "STACK"),
        (flat.extra == wanted.extra, "EXTRA"),
    ];
    for (same, name) in tests {
        if !same {
            return Some(name);
        }
    }
    None
}

impl Case {
    /// A case of which no line has been read.
    pub fn new(alloc: Global) -> Case {
        Case {
            number: 0,
            segments: Vec::new(alloc),
            stack_limit: 0,
            room: 0,
            lines: Vec::new(alloc),
            before: None,
        }
    }

    /// STACK, the print room and the terminal lines: `80 ROOM 18 LINES 4845,41`.
    fn read_limits(&mut self, alloc: Global, text: &str) -> Result<(), AllocError> {
        if let Some((stack, rest)) = text.split_once(" ROOM ") {
            self.stack_limit = (number(stack) % 65536) as u16;
            if let Some((room, lines)) = rest.split_once(" LINES ") {
                self.room = number(room);
                self.lines = terminal(alloc, lines)?;
            }
        }
        Ok(())
    }

    /// The session before the step.
    fn session(&mut self, alloc: Global) -> Result<Option<Flat>, AllocError> {
        let Some(before) = self.before.take() else {
            return Ok(None);
        };
        let Some(stack) = roomy(alloc, &before.stack, self.stack_limit as usize)? else {
            return Ok(None);
        };
        let Some(printed) = roomy(alloc, &before.printed, self.room as usize)? else {
            return Ok(None);
        };
        Ok(Some(Flat {
            regs: before.regs,
            split: before.split,
            stack,
            extra: before.extra,
            lines: std::mem::replace(&mut self.lines, Vec::new(alloc)),
            next_line: before.next_line,
            printed,
            ending: before.ending,
            stack_limit: self.stack_limit,
            room: self.room,
        }))
    }

    /// Makes the step of the flat machine, and compares what it leaves with what must follow.
    fn judge_flat(
        &mut self,
        alloc: Global,
        program: &Program,
        wanted: &State,
    ) -> Result<Verdict, AllocError> {
        let Some(mut flat) = self.session(alloc)? else {
            return Ok(Verdict::Differs(self.number, "BEFORE"));
        };
        if flat.regs.seg as usize >= program.segments.len()
            || flat.ending != hp_word::Ending::Running
        {
            return Ok(Verdict::Differs(self.number, "BEFORE"));
        }
        flat.step(program);
        Ok(self.verdict(difference(&flat, wanted)))
    }

    /// Makes the step by the processor.
    fn judge_processor(
        &self,
        alloc: Global,
        program: &Program,
        wanted: &State,
    ) -> Result<Verdict, AllocError> {
        let nothing = Ok(Verdict::Differs(self.number, "BEFORE"));
        let Some(before) = &self.before else {
            return nothing;
        };
        let Some(printed) = roomy(alloc, &before.printed, self.room as usize)? else {
            return nothing;
        };
        let Some(mut seated) = Seated::new(
            alloc,
            program,
            self.stack_limit,
            before,
            &self.lines,
            printed,
            self.room,
        )?
        else {
            return nothing;
        };
        let ending = seated.step(program);
        Ok(self.verdict(seated.difference(ending, wanted)))
    }

    /// The verdict by the first field that differs.
    fn verdict(&self, difference: Option<&'static str>) -> Verdict {
        match difference {
            None => Verdict::Agrees,
            Some(name) => Verdict::Differs(self.number, name),
        }
    }

    /// Makes the step both ways.
    fn judge(&mut self, alloc: Global, wanted: &State) -> Result<Judged, AllocError> {
        let segments = std::mem::replace(&mut self.segments, Vec::new(alloc));
        let (main, entry) = start(&segments);
        let Ok(program) = Program::new(segments, main, entry, Vec::new(alloc)) else {
            return Ok(Judged {
                flat: Verdict::Differs(self.number, "SEGMENT"),
                processor: Verdict::Differs(self.number, "SEGMENT"),
            });
        };
        let processor = self.judge_processor(alloc, &program, wanted)?;
        Ok(Judged {
            flat: self.judge_flat(alloc, &program, wanted)?,
            processor,
        })
    }

    /// Takes a line. The last one of a case gives what came of it.
    pub fn take(&mut self, alloc: Global, line: &str) -> Result<Option<Judged>, AllocError> {
        let Some((name, rest)) = line.split_once(' ') else {
            return Ok(None);
        };
        match name {
            "CASE" => {
                self.segments = Vec::new(alloc);
                self.number = number(rest.split_once(' ').unwrap_or((rest, "")).0);
            }
            "SEGMENT" => {
                let (_, text) = rest.split_once(' ').unwrap_or((rest, ""));
                self.segments.push(words(alloc, text)?)?;
            }
            "LIMIT" => self.read_limits(alloc, rest)?,
            "BEFORE" => self.before = Some(State::read(alloc, rest)?),
            "AFTER" => {
                let wanted = State::read(alloc, rest)?;
                return Ok(Some(self.judge(alloc, &wanted)?));
            }
            _ => {}
        }
        Ok(None)
    }
}
