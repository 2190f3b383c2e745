//! Texts of single words as the tokens of a unit.

use arrayvec::ArrayVec;
use spl_tree::{At, Name, Token, What, mark};
use std::alloc::{AllocError, Global};

static MARKS: [(&str, u8); 16] = [
    ("(", mark::OPEN),
    (")", mark::CLOSE),
    (",", mark::COMMA),
    (";", mark::SEMICOLON),
    (":", mark::COLON),
    (".", mark::DOT),
    ("=", mark::EQUAL),
    ("<", mark::LESS),
    ("+", mark::PLUS),
    ("-", mark::MINUS),
    ("*", mark::STAR),
    ("/", mark::SLASH),
    ("&", mark::AMPERSAND),
    ("@", mark::AT),
    ("#", mark::HASH),
    (":=", mark::ASSIGN),
];

fn mark_of(word: &str) -> Option<u8> {
    for (spelling, mark) in &MARKS {
        if word == *spelling {
            return Some(*mark);
        }
    }
    None
}

fn what(alloc: Global, word: &str) -> Result<What, AllocError> {
    if let Some(mark) = mark_of(word) {
        return Ok(What::Mark(mark));
    }
    if let Ok(value) = word.parse::<u16>() {
        return Ok(What::Number(value));
    }
    if word == "'" {
        return Ok(What::Text(spl_tree::Chars {
            bytes: Vec::from_slice(alloc, b"AB")?,
        }));
    }
    let mut text = ArrayVec::new();
    let _ = text.try_extend_from_slice(word.as_bytes());
    Ok(What::Word(Name { text }))
}

fn token(what: What, column: u32) -> Token {
    let at = At {
        unit: 1,
        line: 1,
        column,
    };
    Token {
        what,
        at,
        segment: 0,
    }
}

fn add(tokens: &mut Vec<Token>, what: What, column: u32) -> Result<(), AllocError> {
    tokens.push(token(what, column))?;
    Ok(())
}

fn read(tokens: &mut Vec<Token>, alloc: Global, text: &str, step: u32) -> Result<(), AllocError> {
    let mut column: u32 = 1;
    for word in text.split(' ') {
        add(tokens, what(alloc, word)?, column)?;
        column = column.wrapping_add(step);
    }
    add(tokens, What::End, column)
}

/// The words of a text, parted by single blanks, and the end. A quote is a string. The first token's column is 1, and each
/// other's is `step` more than that of the one before.
pub fn tokens(alloc: Global, text: &str, step: u32) -> Result<Vec<Token>, AllocError> {
    let mut tokens = Vec::new(alloc);
    match read(&mut tokens, alloc, text, step) {
        Ok(()) => Ok(tokens),
        Err(error) => Err(error),
    }
}
