//! What MOVE and SCAN append beside their addresses and values, and what waits behind these.
ghost use Rattle.std.specs.Prelude.{◌≡◌, if◌then◌else◌, OnOk, IfOk};
ghost use Rattle.spl_sorts.specs.spl_meaning.Pending as pending;
ghost use Rattle.spl_statement_code.specs.spl_code.Parts.{piece, pieces};
ghost use Rattle.spl_statement_code.specs.spl_code.Appends.{Appends};
ghost use Rattle.spl_statement_code.specs.Instructions as i;
ghost use Rattle.spl_statement_code.specs.Effects as effects;

use crate::puts::control_by;
use hp_instr::{Op, control, shift};
use spl_branch::Code;
use spl_operations::spl_spots::plus;
use spl_operations::{operate, shift_by};
use std::alloc::AllocError;

/// Appends what keeps the first address, where the answer is used.
#[tactic(auto, unfolding(hp_instr::specs::Fields::is_op))]
pub fn keep_first(code: &mut Code, used: bool) -> Result<(), AllocError>
    ensures { OnOk result (Appends (pieces (effects.kept_first used)) code.old code.new) }
{
    if used { operate(code, Op::DUP) } else { Ok(()) }
}

/// Appends what makes the answer of the end address on top, or deletes it where it is not used.
#[tactic(auto, using(spl_operations::proofs::PutLemmas::joins), unfolding(hp_instr::specs::Fields::is_op))]
pub fn tell(code: &mut Code, used: bool) -> Result<(), AllocError>
    ensures { OnOk result (Appends (pieces (effects.told used)) code.old code.new) }
{
    if used {
        operate(code, Op::XCH)?;
        operate(code, Op::LSUB)
    } else {
        operate(code, Op::DEL)
    }
}

/// Appends the move of words or of bytes, from the code or from the data.
#[tactic(auto, unfolding(hp_instr::specs::Fields::is_control))]
pub fn move_elements(code: &mut Code, bytes: bool, from_code: bool) -> Result<(), AllocError>
    ensures { OnOk result (Appends (piece (effects.move_of bytes (if from_code then 1 else 0))) code.old code.new) }
{
    let n = if from_code { 1 } else { 0 };
    if bytes {
        control_by(code, control::MVB, n)
    } else {
        control_by(code, control::MOVE, n)
    }
}

/// Appends the move of bytes of a class.
#[tactic(auto, unfolding(hp_instr::specs::Fields::is_control))]
pub fn move_class(code: &mut Code, class: u8) -> Result<(), AllocError>
    ensures { OnOk result (Appends (piece (i.MVBW (effects.class_letters class))) code.old code.new) }
{
    let letters = match class {
        0 => 2,
        1 => 1,
        2 => 3,
        3 => 6,
        _ => 7,
    };
    control_by(code, control::MVBW, letters)
}

/// Appends the scan until or while.
#[tactic(auto, unfolding(hp_instr::specs::Fields::is_control))]
pub fn scan(code: &mut Code, until: bool) -> Result<(), AllocError>
    ensures { OnOk result (Appends (piece (effects.scan_of until)) code.old code.new) }
{
    if until {
        control_by(code, control::SCU, 0)
    } else {
        control_by(code, control::SCW, 0)
    }
}

/// What waits behind the first address.
pub fn behind_first(used: bool, waiting: u64) -> Result<u64, AllocError>
    ensures { IfOk result (λ k. k ≡ pending.behind_first used waiting) }
{
    plus(waiting, if used { 2 } else { 1 })
}

/// What waits behind both addresses.
pub fn behind_second(used: bool, waiting: u64) -> Result<u64, AllocError>
    ensures { IfOk result (λ k. k ≡ pending.behind_second used waiting) }
{
    plus(waiting, if used { 3 } else { 2 })
}

/// How many bytes or words a string has.
#[tactic(auto, using(spl_statement_code::proofs::CountLemmas::length_words))]
pub fn text_count(bytes: bool, text: &[u8]) -> usize
    ensures { result ≡ effects.text_count bytes text.now }
{
    if bytes {
        text.len()
    } else {
        (text.len() + 1) / 2
    }
}

/// Appends what makes a byte offset of that of a string's first word, where bytes are moved.
pub fn scale_offset(code: &mut Code, bytes: bool) -> Result<(), AllocError>
    ensures { OnOk result (Appends (pieces (effects.text_scaled bytes)) code.old code.new) }
{
    if bytes {
        shift_by(code, shift::LSL, 1)
    } else {
        Ok(())
    }
}
