//! The number in a text.

ghost use Rattle.std.specs.Prelude.{◌≡◌, ◌≤◌, ◌*◌, ◌+◌, ◌-◌, min, if◌then◌else◌, Some, None};
ghost use Rattle.hp_word.specs.Texts.{is_digit, is_digits, value_after, digits_value, decimal_number, octal_number, decimal_digits, octal_digits, number};
ghost use Rattle.hp_word.specs.Words.{word_of, double_of, is_out_of_double};

use crate::exact::{modulo_double, modulo_word};

/// What a text says as a number.
#[derive(Clone, Copy, Debug, PartialEq, Eq)]
pub enum Number {
    /// The number, modulo 65,536 for a word and modulo 4,294,967,296 for a double.
    Value(u32),
    /// A number that is outside its range on either side.
    TooLarge,
    /// No number at all.
    BadForm,
}

/// One more than any number that a text may spell.
const CAP: u64 = 4294967296;

/// The number that the digits spell, or `CAP` where it is above; `None` where there are none or another byte.
#[tactic(auto, unfolding(crate::specs::Texts::is_digits, crate::specs::Texts::value_after))]
fn value_of_digits(text: &[u8], base: u8) -> Option<u64>
    requires some { 1 ≤ base }
    requires decimal { base ≤ 10 }
    ensures { result ≡ (if is_digits base text.now then Some (min (digits_value base text.now) 4294967296) else None) }
{
    if text.is_empty() {
        return None;
    }
    let mut value = 0u64;
    for &byte in text {
        if byte < b'0' || byte >= b'0' + base {
            return None;
        }
        value = (base as u64 * value + (byte - b'0') as u64).min(CAP);
    }
    Some(value)
}

/// A decimal number's digits in a range: its value modulo the width.
#[tactic(auto, unfolding(crate::specs::Texts::decimal_digits, crate::specs::Texts::decimal_number))]
fn read_decimal(digits: &[u8], negative: bool, wide: bool) -> Number
    ensures { result ≡ decimal_digits wide negative digits.now }
{
    let Some(size) = value_of_digits(digits, 10) else {
        return Number::BadForm;
    };
    let exact = if negative {
        -(size as i64)
    } else {
        size as i64
    };
    if wide {
        if exact < -2147483648 || exact > 2147483647 {
            Number::TooLarge
        } else {
            Number::Value(modulo_double(exact))
        }
    } else if exact < -32768 || exact > 65535 {
        Number::TooLarge
    } else {
        Number::Value(modulo_word(exact as i32) as u32)
    }
}

/// An octal number's digits.
#[tactic(auto, unfolding(crate::specs::Texts::octal_digits, crate::specs::Texts::octal_number))]
fn read_octal(digits: &[u8], wide: bool) -> Number
    ensures { result ≡ octal_digits wide digits.now }
{
    let highest = if wide { 4294967295 } else { 65535 };
    match value_of_digits(digits, 8) {
        None => Number::BadForm,
        Some(value) if value > highest => Number::TooLarge,
        Some(value) => Number::Value(value as u32),
    }
}

/// The number in the text, for a word or for a double.
///
/// No text at all is zero. Else it is `%` and octal digits, or decimal digits, perhaps after `+` or `-`.
#[tactic(auto, unfolding(crate::specs::Texts::number))]
pub fn read_number(text: &[u8], wide: bool) -> Number
    ensures { result ≡ number text.now wide }
{
    match text {
        [] => Number::Value(0),
        [b'%', digits @ ..] => read_octal(digits, wide),
        [b'+', digits @ ..] => read_decimal(digits, false, wide),
        [b'-', digits @ ..] => read_decimal(digits, true, wide),
        digits => read_decimal(digits, false, wide),
    }
}
