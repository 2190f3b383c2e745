//! The piece at the front of a text: a blank, a comment, a command line or a token, the longest at its place.
ghost use Rattle.std.specs.Prelude.{◌≡◌, ◌≤◌, ◌+◌, ◌<◌, ◌^◌, ◌∷◌, length, drop, option_map, IfOk, IfSome, ◌==◌, false};
ghost use Rattle.std.specs.Bool.{OnTrue};
ghost use Rattle.std.specs.List.{take_while};
ghost use Rattle.spl_cuts.specs.Bytes.{is_name_byte, is_octal_digit, begins};
ghost use Rattle.spl_cuts.specs.Bytes as by;
ghost use Rattle.spl_cuts.specs.Commands as ct;
ghost use Rattle.spl_cuts.specs.Reading as rd;
ghost use Rattle.spl_pieces.specs.PieceViews.{closes, Reads};

use crate::bytes::{
    blank, capitals, digit, in_line, is_word, letter, line_length, name_length, octal_digit,
};
use crate::commands::{Setting, command};
use crate::numbers::{Base, number};
use spl_cuts::LexKind;
use spl_tree::{Chars, Name, What, mark};
use std::alloc::{AllocError, Global};

/// What a piece gives.
#[derive(Debug, PartialEq, Eq, Drop)]
pub enum Item {
    /// It parts tokens, as a blank or a comment.
    Nothing,
    Token(What),
    /// The options of a command line.
    Settings(Vec<Setting>),
}

/// A piece: what it gives, and the number of its bytes.
#[derive(Debug, PartialEq, Eq, Drop)]
pub struct Piece {
    pub item: Item,
    pub size: usize,
}

/// The text begins with `>>`.
fn begins_with_close(bytes: &[u8]) -> bool
    ensures value { result ≡ closes bytes.now }
    ensures long { OnTrue result (2 ≤ length bytes.now) }
{
    match bytes {
        [first, second, ..] => *first == b'>' && *second == b'>',
        _ => false,
    }
}

/// The number of bytes up to the end of the next `>>`.
#[tactic(auto, using(crate::proofs::SizeLemmas::close_steps))]
fn close_size(bytes: &[u8]) -> Option<usize>
    ensures value { result ≡ rd.close_size bytes.now }
    ensures within { IfSome result (λ n. n ≤ length bytes.now) }
{
    for i in 0..bytes.len() {
        if begins_with_close(&bytes[i..]) {
            return Some(i + 2);
        }
    }
    None
}

/// The number of bytes up to the next `;` with it.
#[tactic(auto, using(crate::proofs::SizeLemmas::semicolon_steps))]
fn semicolon_size(bytes: &[u8]) -> Option<usize>
    ensures value { result ≡ rd.semicolon_size bytes.now }
    ensures within { IfSome result (λ n. n ≤ length bytes.now) }
{
    for i in 0..bytes.len() {
        if bytes[i] == b';' {
            return Some(i + 1);
        }
    }
    None
}

/// A comment that begins with so many bytes, and has so many more if it ends.
#[tactic(auto, unfolding(spl_cuts::specs::Reading::comment_piece))]
fn comment(begun: usize, more: Option<usize>) -> Result<Piece, LexKind>
    requires { IfSome more (λ n. begun + n < 2 ^ 64) }
    ensures { Reads (rd.comment_piece begun more) result }
{
    match more {
        None => Err(LexKind::OpenComment),
        Some(more) => Ok(Piece {
            item: Item::Nothing,
            size: begun + more,
        }),
    }
}

/// A command line, which stands behind its `$`.
#[tactic(auto, unfolding(spl_cuts::specs::Reading::line_piece))]
fn line(alloc: Global, line: &[u8]) -> Result<Piece, LexKind>
    ensures { Reads (rd.line_piece (length line.now) (ct.command line.now)) result }
{
    match command(alloc, line)? {
        None => Err(LexKind::BadCommand),
        Some(settings) => Ok(Piece {
            item: Item::Settings(settings),
            size: 1 + line.len(),
        }),
    }
}

/// A name, or a comment that begins with its word, with what follows the name.
#[tactic(auto, unfolding(spl_cuts::specs::Reading::name_piece))]
fn name(letters: &[u8], rest: &[u8]) -> Result<Piece, LexKind>
    ensures { Reads (rd.name_piece letters.now rest.now) result }
{
    if is_word(letters, b"COMMENT") {
        comment(letters.len(), semicolon_size(rest))
    } else if letters.len() <= 15 {
        Ok(Piece {
            item: Item::Token(What::Word(Name {
                text: capitals(letters),
            })),
            size: letters.len(),
        })
    } else {
        Err(LexKind::NameTooLong)
    }
}

/// The characters of a string of which the first quote is taken off, and how many bytes are left of it with its last
/// quote; nothing where its line ends before.
#[tactic(auto, using(crate::proofs::SizeLemmas::string_steps))]
fn string_from(alloc: Global, bytes: &[u8]) -> Result<Option<(Chars, usize)>, AllocError>
    ensures value { IfOk result (λ o. option_map (λ r. (r.0.bytes.items, r.1)) o ≡ rd.string_from false bytes.now) }
    ensures within { IfOk result (λ o. IfSome o (λ r. r.1 ≤ length bytes.now)) }
{
    let mut chars = Vec::new(alloc);
    let mut quoted = false;
    for i in 0..bytes.len() {
        let b = bytes[i];
        if quoted {
            if b != b'"' {
                return Ok(Some((Chars { bytes: chars }, i)));
            }
            chars.push(b)?;
            quoted = false;
        } else if b == b'"' {
            quoted = true;
        } else if in_line(b) {
            chars.push(b)?;
        } else {
            return Ok(None);
        }
    }
    if quoted {
        Ok(Some((Chars { bytes: chars }, bytes.len())))
    } else {
        Ok(None)
    }
}

/// A string of which the first quote is taken off.
#[tactic(auto, unfolding(spl_cuts::specs::Reading::string_piece))]
fn string(alloc: Global, bytes: &[u8]) -> Result<Piece, LexKind>
    ensures { Reads (rd.string_piece (rd.string_from false bytes.now)) result }
{
    match string_from(alloc, bytes)? {
        None => Err(LexKind::OpenString),
        Some((chars, size)) => Ok(Piece {
            item: Item::Token(What::Text(chars)),
            size: 1 + size,
        }),
    }
}

/// The mark that a byte alone is.
fn mark_of(b: u8) -> Option<u8>
    ensures { result ≡ by.mark_of b }
{
    match b {
        b'(' => Some(mark::OPEN),
        b')' => Some(mark::CLOSE),
        b',' => Some(mark::COMMA),
        b';' => Some(mark::SEMICOLON),
        b':' => Some(mark::COLON),
        b'.' => Some(mark::DOT),
        b'=' => Some(mark::EQUAL),
        b'<' => Some(mark::LESS),
        b'>' => Some(mark::GREATER),
        b'+' => Some(mark::PLUS),
        b'-' => Some(mark::MINUS),
        b'*' => Some(mark::STAR),
        b'/' => Some(mark::SLASH),
        b'&' => Some(mark::AMPERSAND),
        b'@' => Some(mark::AT),
        b'#' => Some(mark::HASH),
        _ => None,
    }
}

/// The mark that two bytes are.
fn mark_of_two(b: u8, c: u8) -> Option<u8>
    ensures { result ≡ by.mark_of_two b c }
{
    match (b, c) {
        (b':', b'=') => Some(mark::ASSIGN),
        (b'<', b'=') => Some(mark::AT_MOST),
        (b'>', b'=') => Some(mark::AT_LEAST),
        (b'<', b'>') => Some(mark::UNEQUAL),
        _ => None,
    }
}

/// A mark of one byte.
#[tactic(auto, unfolding(spl_cuts::specs::Reading::one_mark))]
fn one_mark(mark: Option<u8>) -> Result<Piece, LexKind>
    ensures { Reads (rd.one_mark mark) result }
{
    match mark {
        None => Err(LexKind::BadByte),
        Some(mark) => Ok(Piece {
            item: Item::Token(What::Mark(mark)),
            size: 1,
        }),
    }
}

/// A mark of two bytes, or else of one.
#[tactic(auto, unfolding(spl_cuts::specs::Reading::two_marks))]
fn two_marks(two: Option<u8>, one: Option<u8>) -> Result<Piece, LexKind>
    ensures { Reads (rd.two_marks two one) result }
{
    match two {
        None => one_mark(one),
        Some(mark) => Ok(Piece {
            item: Item::Token(What::Mark(mark)),
            size: 2,
        }),
    }
}

/// The mark at the front of a text with this first byte.
#[tactic(auto, unfolding(spl_cuts::specs::Reading::mark_at))]
fn mark_at(first: u8, rest: &[u8]) -> Result<Piece, LexKind>
    ensures { Reads (rd.mark_at first rest.now) result }
{
    match rest.first() {
        None => one_mark(mark_of(first)),
        Some(second) => two_marks(mark_of_two(first, *second), mark_of(first)),
    }
}

fn begins_with_less(bytes: &[u8]) -> bool
    ensures { result ≡ begins (λ c. c == 60) bytes.now }
{
    match bytes.first() {
        None => false,
        Some(b) => *b == b'<',
    }
}

fn begins_with_octal_digit(bytes: &[u8]) -> bool
    ensures { result ≡ begins is_octal_digit bytes.now }
{
    match bytes.first() {
        None => false,
        Some(b) => octal_digit(*b),
    }
}

/// The piece at the front of a text with this first byte.
#[tactic(auto, unfolding(spl_cuts::specs::Reading::piece))]
fn piece_from(
    alloc: Global,
    begins_line: bool,
    first: u8,
    rest: &[u8],
    text: &[u8],
) -> Result<Piece, LexKind>
    requires { text.now ≡ first ∷ rest.now }
    ensures { Reads (rd.piece begins_line first rest.now) result }
{
    if blank(first) {
        Ok(Piece {
            item: Item::Nothing,
            size: 1,
        })
    } else if begins_line && first == b'$' {
        line(alloc, &rest[..line_length(rest)])
    } else if first == b'<' && begins_with_less(rest) {
        comment(2, close_size(&rest[1..]))
    } else if letter(first) {
        let (letters, behind) = text.split_at(name_length(text));
        name(letters, behind)
    } else if digit(first) {
        number(Base::Decimal, text)
    } else if first == b'%' && begins_with_octal_digit(rest) {
        number(Base::Octal, rest)
    } else if first == b'"' {
        string(alloc, rest)
    } else {
        mark_at(first, rest)
    }
}

/// The piece at the front of a text that is not empty, where no byte stands that is allowed nowhere.
pub fn piece_at(alloc: Global, begins_line: bool, text: &[u8]) -> Result<Piece, LexKind>
    ensures { Reads (rd.piece_at begins_line text.now) result }
{
    match text.split_first() {
        None => Err(LexKind::BadByte),
        Some((first, rest)) => piece_from(alloc, begins_line, *first, rest, text),
    }
}
