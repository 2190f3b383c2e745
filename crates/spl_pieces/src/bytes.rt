//! The bytes of a unit's text, and places in it.
ghost use Rattle.std.specs.Prelude.{◌≡◌, ◌≤◌, ◌<◌, ◌+◌, length, map, nat_eq};
ghost use Rattle.std.specs.List.{prefix_len};
ghost use lib.Pointwise.{pointwise};
ghost use Rattle.spl_cuts.specs.Bytes.{is_allowed, is_blank, is_letter, is_digit, is_octal_digit, is_name_byte, is_suffix, is_quote, is_semicolon, is_in_line};
ghost use Rattle.spl_cuts.specs.Bytes as ct;

use arrayvec::ArrayVec;
use spl_tree::At;

/// A text is made of line feeds, tabs, carriage returns and the bytes 32 to 126.
pub fn allowed(b: u8) -> bool
    ensures { result ≡ is_allowed b }
{
    b == b'\n' || b == b'\t' || b == b'\r' || (b' ' <= b && b <= b'~')
}

/// A blank in place of a byte that is allowed nowhere.
pub fn blanked(b: u8) -> u8
    ensures { result ≡ ct.blanked b }
{
    if allowed(b) { b } else { b' ' }
}

/// Blank, tab, carriage return and line feed part tokens.
pub fn blank(b: u8) -> bool
    ensures { result ≡ is_blank b }
{
    b == b' ' || b == b'\t' || b == b'\r' || b == b'\n'
}

pub fn letter(b: u8) -> bool
    ensures { result ≡ is_letter b }
{
    (b'A' <= b && b <= b'Z') || (b'a' <= b && b <= b'z')
}

pub fn digit(b: u8) -> bool
    ensures { result ≡ is_digit b }
{
    b'0' <= b && b <= b'9'
}

pub fn octal_digit(b: u8) -> bool
    ensures { result ≡ is_octal_digit b }
{
    b'0' <= b && b <= b'7'
}

/// A name goes on with letters, digits and apostrophes.
pub fn name_byte(b: u8) -> bool
    ensures { result ≡ is_name_byte b }
{
    letter(b) || digit(b) || b == b'\''
}

/// A small letter is read as its capital.
pub fn capital(b: u8) -> u8
    ensures { result ≡ ct.capital b }
{
    if b'a' <= b && b <= b'z' { b - 32 } else { b }
}

/// D, which makes a number a double.
pub fn suffix(b: u8) -> bool
    ensures { result ≡ is_suffix b }
{
    b == b'D' || b == b'd'
}

/// All but a line feed, which ends a line.
pub fn in_line(b: u8) -> bool
    ensures { result ≡ is_in_line b }
{
    b != b'\n'
}

/// The number of bytes at the front that a name goes on with.
pub fn name_length(bytes: &[u8]) -> usize
    ensures value { result ≡ prefix_len is_name_byte bytes.now }
    ensures within { result ≤ length bytes.now }
{
    bytes.iter().take_while(|b| name_byte(**b)).count()
}

/// The number of bytes at the front up to the end of their line.
pub fn line_length(bytes: &[u8]) -> usize
    ensures value { result ≡ prefix_len is_in_line bytes.now }
    ensures within { result ≤ length bytes.now }
{
    bytes.iter().take_while(|b| in_line(**b)).count()
}

/// The number of bytes at the front that a text may have.
pub fn allowed_length(bytes: &[u8]) -> usize
    ensures value { result ≡ prefix_len is_allowed bytes.now }
    ensures within { result ≤ length bytes.now }
{
    bytes.iter().take_while(|b| allowed(**b)).count()
}

/// The letters are those of the word, whatever their size.
#[tactic(auto, using(crate::proofs::ByteLemmas::word_more))]
pub fn is_word(letters: &[u8], word: &[u8]) -> bool
    ensures { result ≡ pointwise nat_eq (map ct.capital letters.now) word.now }
{
    if letters.len() != word.len() {
        return false;
    }
    for i in 0..letters.len() {
        if capital(letters[i]) != word[i] {
            return false;
        }
    }
    true
}

/// A name with its letters as capitals.
pub fn capitals(letters: &[u8]) -> ArrayVec<u8, 15>
    requires { length letters.now ≤ 15 }
    ensures { result.items ≡ map ct.capital letters.now }
{
    let mut text = ArrayVec::new();
    for b in letters {
        text.push(capital(*b));
    }
    text
}

/// The place after a byte.
fn past(at: At, b: u8) -> At
    requires line { at.line + 1 < 4294967296 }
    requires column { at.column + 1 < 4294967296 }
    ensures { result ≡ ct.past at b }
{
    if b == b'\n' {
        At {
            unit: at.unit,
            line: at.line + 1,
            column: 1,
        }
    } else {
        At {
            unit: at.unit,
            line: at.line,
            column: at.column + 1,
        }
    }
}

/// The place after these bytes. Lines and columns count from 1, in bytes.
pub fn past_all(at: At, bytes: &[u8]) -> At
    requires line { at.line + length bytes.now < 4294967296 }
    requires column { at.column + length bytes.now < 4294967296 }
    ensures value { result ≡ ct.past_all at bytes.now }
    ensures line { result.line ≤ at.line + length bytes.now }
    ensures column { result.column ≤ at.column + length bytes.now }
{
    let mut at = at;
    for b in bytes {
        at = past(at, *b);
    }
    at
}
