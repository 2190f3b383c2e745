//! Room for a body, and its local words.
ghost use Rattle.std.specs.Prelude.{◌≡◌, replicate, OnOk, true};
ghost use Rattle.hp_instr.specs.declared.instruction.Instr.TheVariants as i;
ghost use Rattle.spl_branch.specs.declared.pieces.Piece.TheVariants as p;
ghost use Rattle.spl_body_code.specs.spl_code.Parts.{piece, pieces};
ghost use Rattle.spl_body_code.specs.spl_code.Appends.{Appends};
ghost use Rattle.spl_body_code.specs.Frames as frames;
ghost use Rattle.spl_gen_body.specs.Counts.{is_count};

use hp_instr::{Instr, control};
use spl_branch::Code;
use spl_operations::{instruct, push_word};
use std::alloc::AllocError;

/// The most zeros that one instruction pushes.
const MOST_ZEROS: u64 = 255;

/// Appends an instruction with a number of words that may be any.
#[tactic(auto, using(crate::proofs::CountLemmas::count_is_instruction))]
pub fn count(code: &mut Code, which: u8, n: u8) -> Result<(), AllocError>
    requires { is_count which ≡ true }
    ensures { OnOk result (Appends (piece (p.Do (i.Control which n))) code.old code.new) }
{
    instruct(code, Instr::Control { which, n })
}

/// Appends what traps where the stack has no room for so many words.
#[tactic(auto, using(spl_operations::proofs::PutLemmas::pieces_then))]
pub fn grant(code: &mut Code, words: u64) -> Result<(), AllocError>
    ensures { OnOk result (Appends (pieces (frames.granted words)) code.old code.new) }
{
    if 0 < words && words < 256 {
        count(code, control::ROOM, words as u8)
    } else {
        push_word(code, words.min(65535) as u16)?;
        count(code, control::ROOM, 0)
    }
}

/// Appends rows of 255 zeros.
fn push_rows(code: &mut Code, rows: u64) -> Result<(), AllocError>
    ensures { OnOk result (Appends (pieces (replicate rows (frames.ADDS 255))) code.old code.new) }
{
    for _ in 0..rows {
        count(code, control::ADDS, 255)?;
    }
    Ok(())
}

/// Appends the zeros that one instruction pushes.
fn push_rest(code: &mut Code, words: u8) -> Result<(), AllocError>
    ensures { OnOk result (Appends (pieces (frames.last_zeros words)) code.old code.new) }
{
    if words == 0 {
        Ok(())
    } else {
        count(code, control::ADDS, words)
    }
}

/// Appends what pushes so many zeros.
#[tactic(auto, using(spl_operations::proofs::PutLemmas::pieces_then))]
pub fn zero(code: &mut Code, words: u64) -> Result<(), AllocError>
    ensures { OnOk result (Appends (pieces (frames.zeroed words)) code.old code.new) }
{
    push_rows(code, words / MOST_ZEROS)?;
    push_rest(code, (words % MOST_ZEROS) as u8)
}
