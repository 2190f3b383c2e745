//! What operators bind.
ghost use Rattle.std.specs.Prelude.{◌≡◌, nat_eq};
ghost use lib.Pointwise.{pointwise};
ghost use Rattle.spl_tree.specs.Operators as operators;
ghost use Rattle.spl_reading.specs.ReadExpressions as spec;

use spl_tree::{Symbol, shift};

/// The level that an operator binds at, from 2, which binds most, to 10; 0, where the number is no operator's.
#[tactic(auto, unfolding(spl_tree::specs::Operators::binds))]
pub fn binds(op: u8) -> u8
    ensures { result ≡ operators.binds op }
{
    match op {
        0 => 10,
        1 => 9,
        2 => 7,
        3 => 6,
        4 => 5,
        5..=10 => 4,
        11..=12 => 3,
        13..=15 => 2,
        _ => 0,
    }
}

/// The operator that a symbol is; 99, where it is none.
#[tactic(auto, unfolding(spl_reading::specs::ReadExpressions::operator_of))]
pub fn operator_of(symbol: Symbol) -> u8
    ensures { result ≡ spec.operator_of symbol }
{
    match symbol {
        Symbol::Operator(op) => op,
        _ => 99,
    }
}

/// Whether a symbol is a number.
pub fn is_number(symbol: Symbol) -> bool
    ensures { result ≡ operators.is_number symbol }
{
    matches!(symbol, Symbol::Number(_) | Symbol::Wide(_))
}

/// The letters are those of the word.
pub fn is_word(letters: &[u8], word: &[u8]) -> bool
    ensures { result ≡ pointwise nat_eq letters.now word.now }
{
    letters == word
}

/// The number of the shift with these letters.
#[tactic(auto, unfolding(spl_tree::specs::Operators::shift_of))]
pub fn shift_of(letters: &[u8]) -> Option<u8>
    ensures { result ≡ operators.shift_of letters.now }
{
    if is_word(letters, b"ASL") {
        Some(shift::ASL)
    } else if is_word(letters, b"ASR") {
        Some(shift::ASR)
    } else if is_word(letters, b"LSL") {
        Some(shift::LSL)
    } else if is_word(letters, b"LSR") {
        Some(shift::LSR)
    } else if is_word(letters, b"CSL") {
        Some(shift::CSL)
    } else if is_word(letters, b"CSR") {
        Some(shift::CSR)
    } else {
        None
    }
}
