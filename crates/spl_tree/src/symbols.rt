//! The symbols of the grammar: what a token is to it.
use crate::expressions::Kind;

/// A symbol of the grammar. The letters of names and strings are not part of it.
#[derive(Clone, Copy, Debug, PartialEq, Eq)]
pub enum Symbol {
    Name,
    Number(u16),
    Wide(u32),
    Text,
    /// TRUE or FALSE.
    Truth(bool),
    /// A word or mark that stands between two operands, by its number in `binary`.
    Operator(u8),
    Not,
    /// The word of a kind, as INTEGER.
    Type(Kind),
    Open,
    Close,
    Comma,
    Semicolon,
    Colon,
    Dot,
    Ampersand,
    AtSign,
    Assign,
    /// A reserved word of statements or declarations.
    Word(Reserved),
    /// The end of the text.
    Stop,
}

/// The reserved words that belong to statements and declarations.
#[derive(Clone, Copy, Debug, PartialEq, Eq)]
pub enum Reserved {
    Array,
    Begin,
    Case,
    Do,
    Else,
    End,
    Equate,
    For,
    Go,
    Goto,
    If,
    Intrinsic,
    Label,
    Move,
    Of,
    Options,
    Own,
    Pointer,
    Procedure,
    Return,
    Scan,
    Step,
    Subroutine,
    Then,
    To,
    Until,
    Value,
    While,
    /// A reserved word or mark that the grammar has no use for.
    Unused,
}
