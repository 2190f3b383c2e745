//! Numbers: decimal digits, or `%` and octal digits, and perhaps a D.
ghost use Rattle.std.specs.Prelude.{◌≡◌, ◌≤◌, ◌+◌, ◌<◌, ◌^◌, length, nat_le, if◌then◌else◌, Some, None};
ghost use Rattle.std.specs.List.{prefix_len};
ghost use Rattle.spl_cuts.specs.Bytes as by;
ghost use Rattle.spl_cuts.specs.Bytes.{is_digit_of, is_suffix, begins};
ghost use Rattle.spl_cuts.specs.Reading.{number_piece, number_at};
ghost use Rattle.spl_pieces.specs.PieceViews.{base_of, Reads};

use crate::bytes::{digit, octal_digit, suffix};
use crate::pieces::{Item, Piece};
use spl_cuts::LexKind;
use spl_tree::What;

/// The base of a number.
#[derive(Clone, Copy, Debug, PartialEq, Eq)]
pub enum Base {
    Decimal,
    /// Behind a `%`.
    Octal,
}

fn is_digit_in(base: Base, b: u8) -> bool
    ensures { result ≡ is_digit_of (base_of base) b }
{
    match base {
        Base::Decimal => digit(b),
        Base::Octal => octal_digit(b),
    }
}

fn radix(base: Base) -> u64
    ensures { result ≡ by.radix (base_of base) }
{
    match base {
        Base::Decimal => 10,
        Base::Octal => 8,
    }
}

/// The number of bytes before the digits.
fn prefix_length(base: Base) -> usize
    ensures { result ≡ length (by.prefix (base_of base)) }
{
    match base {
        Base::Decimal => 0,
        Base::Octal => 1,
    }
}

/// The number of digits at the front.
fn digits_length(base: Base, bytes: &[u8]) -> usize
    ensures value { result ≡ prefix_len (is_digit_of (base_of base)) bytes.now }
    ensures within { result ≤ length bytes.now }
{
    bytes.iter().take_while(|b| is_digit_in(base, **b)).count()
}

fn begins_with_suffix(bytes: &[u8]) -> bool
    ensures { result ≡ begins is_suffix bytes.now }
{
    match bytes.first() {
        None => false,
        Some(b) => suffix(*b),
    }
}

/// The number that these digits are, where it fits two words.
#[tactic(auto, using(crate::proofs::NumberLemmas::value_steps))]
fn value_of(base: Base, digits: &[u8]) -> Option<u32>
    ensures { result ≡ (if nat_le (by.value (base_of base) digits.now) 4294967295 then Some (by.value (base_of base) digits.now) else None) }
{
    let mut value: u64 = 0;
    for d in digits {
        value = radix(base) * value + (*d as u64).saturating_sub(b'0' as u64);
        if value > 4294967295 {
            return None;
        }
    }
    Some(value as u32)
}

/// A number of these digits, with or without the suffix.
#[tactic(auto, unfolding(spl_cuts::specs::Reading::number_piece))]
fn sized(base: Base, digits: &[u8], wide: bool) -> Result<Piece, LexKind>
    ensures { Reads (number_piece (base_of base) digits.now wide) result }
{
    let size = prefix_length(base) + digits.len();
    match value_of(base, digits) {
        None => Err(LexKind::NumberTooLarge),
        Some(value) => {
            if wide {
                Ok(Piece {
                    item: Item::Token(What::Wide(value)),
                    size: size + 1,
                })
            } else if value <= 65535 {
                Ok(Piece {
                    item: Item::Token(What::Number(value as u16)),
                    size,
                })
            } else {
                Err(LexKind::NumberTooLarge)
            }
        }
    }
}

/// The number at the front of a text, of which the prefix is taken off.
#[tactic(auto, unfolding(spl_cuts::specs::Reading::number_at))]
pub fn number(base: Base, text: &[u8]) -> Result<Piece, LexKind>
    ensures { Reads (number_at (base_of base) text.now) result }
{
    let (digits, rest) = text.split_at(digits_length(base, text));
    sized(base, digits, begins_with_suffix(rest))
}
