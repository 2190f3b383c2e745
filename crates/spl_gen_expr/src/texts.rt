//! Strings in the code.
ghost use Rattle.std.specs.Prelude.{◌≡◌, ◌<◌, if◌then◌else◌, map, length, OnOk};
ghost use Rattle.spl_sorts.specs.spl_meaning.Elements.{as_words};
ghost use Rattle.spl_branch.specs.declared.pieces.Piece.TheVariants as p;
ghost use Rattle.spl_operations.specs.spl_code.Parts.{piece, pieces};
ghost use Rattle.spl_operations.specs.spl_code.Instructions as i;
ghost use Rattle.spl_operations.specs.spl_code.Constants.{text_offset};
ghost use Rattle.spl_operations.specs.spl_code.Code.{text_compared};
ghost use Rattle.spl_operations.specs.spl_code.Appends.{Appends};

use crate::marks::{lead, set_mark, two_marks};
use hp_instr::{Instr, control, shift};
use spl_branch::{Code, Piece};
use spl_operations::{instruct, lay, push_word, shift_by};
use std::alloc::AllocError;

/// Appends the bytes of a string as words, a blank behind an odd last one.
fn lay_text(code: &mut Code, bytes: &[u8]) -> Result<(), AllocError>
    ensures { OnOk result (Appends (pieces (map p.Literal (as_words bytes.now))) code.old code.new) }
{
    let mut rest = bytes;
    while let [first, second, others @ ..] = rest {
        lay(code, 256 * u16::from(*first) + u16::from(*second))?;
        rest = others;
    }
    match rest {
        [last] => lay(code, 256 * u16::from(*last) + 32),
        _ => Ok(()),
    }
}

/// Appends a word that holds the offset of a mark.
fn place(code: &mut Code, mark: usize) -> Result<(), AllocError>
    requires { mark < length code.old.marks.items }
    ensures { OnOk result (Appends (piece (p.Place mark)) code.old code.new) }
{
    code.put(Piece::Place(mark))
}

/// Appends LOAD of the word of the code directly before.
#[tactic(auto, unfolding(hp_instr::specs::Given::has_word))]
fn load_before(code: &mut Code) -> Result<(), AllocError>
    ensures { OnOk result (Appends (piece i.LOAD_BEFORE) code.old code.new) }
{
    instruct(code, Instr::LoadCode { back: true, d: 1 })
}

/// Appends a string, and what pushes the offset of its first word.
pub fn push_text_offset(code: &mut Code, bytes: &[u8]) -> Result<(), AllocError>
    ensures { OnOk result (Appends (text_offset bytes.now) code.old code.new) }
{
    let over = two_marks(code)?;
    let start = over + 1;
    lead(code, over)?;
    set_mark(code, start)?;
    lay_text(code, bytes)?;
    place(code, start)?;
    set_mark(code, over)?;
    load_before(code)
}

/// Appends CMPB, of which the second bytes are in the code where `from_code` says so.
#[tactic(auto, unfolding(hp_instr::specs::Given::has_word, hp_instr::specs::Fields::is_control))]
pub fn compare_bytes(code: &mut Code, from_code: bool) -> Result<(), AllocError>
    ensures { OnOk result (Appends (piece (i.CMPB (if from_code then 1 else 0))) code.old code.new) }
{
    instruct(
        code,
        Instr::Control {
            which: control::CMPB,
            n: if from_code { 1 } else { 0 },
        },
    )
}

/// Appends what compares the bytes of a string with those from the address on top on.
#[tactic(auto, using(spl_operations::proofs::PutLemmas::joins))]
pub fn compare_text(code: &mut Code, bytes: &[u8]) -> Result<(), AllocError>
    ensures { OnOk result (Appends (text_compared bytes.now) code.old code.new) }
{
    push_text_offset(code, bytes)?;
    shift_by(code, shift::LSL, 1)?;
    push_word(code, (bytes.len() % 65536) as u16)?;
    compare_bytes(code, true)
}
