//! Constants, pushed.
ghost use Rattle.std.specs.Prelude.{◌≡◌, ◌%◌, OnOk};
ghost use Rattle.hp_word.specs.Words.{word_of};
ghost use Rattle.spl_code.specs.Parts.{pieces};
ghost use Rattle.spl_code.specs.Constants.{constant, double_constant, text_constant, number_constant};
ghost use Rattle.spl_code.specs.Appends.{Appends};

use crate::puts::{immediate as put_immediate, shift_by};
use hp_instr::{immediate, shift};
use spl_branch::Code;
use std::alloc::AllocError;

/// A whole number modulo 65,536.
#[tactic(auto, unfolding(hp_word::specs::Words::word_of))]
fn word_of(number: i64) -> u16
    ensures { result ≡ word_of number }
{
    number.rem_euclid(65536) as u16
}

/// Appends what pushes a word.
#[tactic(auto, using(spl_code::proofs::AppendLaws::more_pieces))]
pub fn push_word(code: &mut Code, word: u16) -> Result<(), AllocError>
    ensures { OnOk result (Appends (pieces (constant word)) code.old code.new) }
{
    if word < 256 {
        put_immediate(code, immediate::LDI, word as u8)
    } else if 65280 < word {
        put_immediate(code, immediate::LDNI, (65536 - u32::from(word)) as u8)
    } else {
        put_immediate(code, immediate::LDI, (word / 256) as u8)?;
        shift_by(code, shift::LSL, 8)?;
        put_immediate(code, immediate::ORI, (word % 256) as u8)
    }
}

/// Appends what pushes a double, its high word first.
#[tactic(auto, using(crate::proofs::PutLemmas::pieces_then), unfolding(hp_word::specs::Bytes::high_word, hp_word::specs::Bytes::low_word))]
pub fn push_double(code: &mut Code, double: u32) -> Result<(), AllocError>
    ensures { OnOk result (Appends (pieces (double_constant double)) code.old code.new) }
{
    push_word(code, (double / 65536) as u16)?;
    push_word(code, (double % 65536) as u16)
}

/// Appends what pushes the word that a string is, where it is one.
pub fn push_text(code: &mut Code, word: Option<u16>) -> Result<(), AllocError>
    ensures { OnOk result (Appends (text_constant word) code.old code.new) }
{
    match word {
        Some(word) => push_word(code, word),
        None => Ok(()),
    }
}

/// Appends what pushes a whole number as a word, where there is one.
pub fn push_number(code: &mut Code, number: Option<i64>) -> Result<(), AllocError>
    ensures { OnOk result (Appends (number_constant number) code.old code.new) }
{
    match number {
        Some(number) => push_word(code, word_of(number)),
        None => Ok(()),
    }
}
