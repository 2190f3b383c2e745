//! How a session opens.
ghost use Rattle.std.specs.Prelude.{◌≡◌, ◌<◌, ◌≤◌, ◌+◌, ◌++◌, length, replicate, vec_capacity, IfOk, IfErr, Err};
ghost use Rattle.hp_session.specs.SessionView.{lines_of};
ghost use Rattle.hp_program.specs.Programs.{segments_of};
ghost use Rattle.hp_flat.specs.Views.{opened_of};

use crate::flat::{Flat, OpenFlat};
use hp_program::{Program, label_word, segment_words};
use hp_session::{Line, Regs};
use hp_word::{Code, Ending};
use std::alloc::{AllocError, Global};

/// Equal lines.
#[tactic(auto, using(crate::proofs::LineLemmas::line_steps))]
fn copy_lines(alloc: Global, lines: &[Line]) -> Result<Vec<Line>, AllocError>
    ensures { IfOk result (λ copies. lines_of copies.items ≡ lines_of lines.now) }
{
    let mut copies = Vec::with_capacity(alloc, lines.len())?;
    for line in lines {
        let bytes = Vec::from_slice(alloc, &line.bytes)?;
        copies.push(Line { bytes })?;
    }
    Ok(copies)
}

/// The stack of a session that opens: the data words and the main body's marker, with room for `limit` words.
fn opening_stack(alloc: Global, globals: &[u16], limit: u16) -> Result<Vec<u16>, AllocError>
    requires { length globals.now + 4 ≤ limit }
    ensures words { IfOk result (λ stack. stack.items ≡ globals.now ++ replicate 4 0) }
    ensures reserved { IfOk result (λ stack. limit ≤ vec_capacity stack) }
{
    let mut stack = Vec::with_capacity(alloc, limit as usize)?;
    stack.extend_from_slice(globals).unwrap();
    stack.extend_from_slice(&[0; 4]).unwrap();
    Ok(stack)
}

impl Flat {
    /// The session of a program as it opens, with these terminal lines, `stack` words of stack, `extra` words of extra
    /// segment and room for `room` printed bytes. It reserves all the memory that its steps need.
    #[tactic(auto, using(hp_program::proofs::ValidLaws::few_globals, hp_program::proofs::ValidLaws::main_there))]
    pub fn open(
        alloc: Global,
        program: &Program,
        lines: &Vec<Line>,
        stack: u16,
        extra: u16,
        room: u32,
    ) -> Result<Flat, OpenFlat>
        ensures ok { IfOk result (λ f. f ≡ opened_of program.now lines.now.items stack extra room) }
        ensures starts { IfOk result (λ f. f.regs.seg < length (segments_of program.now)) }
        ensures small { stack < length program.now.globals.items + 4 → result ≡ Err (OpenFlat.StackTooSmall (length program.now.globals.items + 4) stack) }
        ensures enough { length program.now.globals.items + 4 ≤ stack → IfErr result (λ e. e ≡ OpenFlat.NoMemory) }
    {
        let data = program.globals.len();
        if (stack as usize) < data + 4 {
            return Err(OpenFlat::StackTooSmall {
                need: data as u32 + 4,
                given: stack,
            });
        }
        let words = opening_stack(alloc, &program.globals, stack)?;
        let extra = vec![in alloc; 0; extra as usize]?;
        let lines = copy_lines(alloc, lines)?;
        let printed = Vec::with_capacity(alloc, room as usize)?;
        let regs = Regs {
            x: 0,
            q: data as u16 + 3,
            p: label_word(segment_words(program, program.main), program.entry as u16),
            seg: program.main,
            traps: true,
            right: false,
            overflow: false,
            carry: false,
            code: Code::Equal,
        };
        Ok(Flat {
            regs,
            split: false,
            stack: words,
            extra,
            lines,
            next_line: 0,
            printed,
            ending: Ending::Running,
            stack_limit: stack,
            room,
        })
    }
}
