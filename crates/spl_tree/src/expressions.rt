//! Expressions, constants and references. The numbers of operators and shifts are those of `marks`.
use crate::names_and_places::{At, Chars, Name};

/// The kinds of variables, parameters and results.
#[derive(Clone, Copy, Debug, PartialEq, Eq)]
pub enum Kind {
    Integer,
    Logical,
    Byte,
    Double,
}

/// An expression. An `at` is the place of the first token of its part.
#[cycle(tree)]
#[derive(Debug, Drop)]
pub enum Expr {
    /// A number of one word; one with a minus before it at the front of a sum is negated modulo 65,536.
    Number(u16),
    /// A number of two words, negated likewise modulo 4,294,967,296.
    Wide(u32),
    /// A string.
    Text(Chars),
    /// TRUE or FALSE.
    Truth(bool),
    /// A name with its index or arguments: a variable, an element or a call.
    Named {
        name: Name,
        args: Vec<Expr>,
        at: At,
    },
    /// The address of a variable or an element, by `@`.
    Address {
        name: Name,
        index: Option<Box<Expr>>,
        at: At,
    },
    /// A sign or NOT before an operand.
    Unary {
        op: u8,
        of: Box<Expr>,
        at: At,
    },
    /// An operator between two operands.
    Binary {
        op: u8,
        left: Box<Expr>,
        right: Box<Expr>,
        at: At,
    },
    /// A shift by a constant count, by `&`.
    Shift {
        kind: u8,
        of: Box<Expr>,
        by: Const,
        at: At,
    },
    /// A bit field: its first bit and its number of bits.
    Field {
        of: Box<Expr>,
        start: Const,
        length: Const,
        at: At,
    },
    /// A value taken as one of another kind.
    Transfer {
        to: Kind,
        of: Box<Expr>,
        at: At,
    },
    /// A comparison of this many bytes, by the number of a relation.
    Bytes {
        op: u8,
        left: Ref,
        right: Ref,
        count: Box<Expr>,
        at: At,
    },
}

/// A constant. The flag of a number says that a minus stands before it.
#[derive(Debug, Drop)]
pub enum Const {
    Number(bool, u16),
    Wide(bool, u32),
    Text(Chars),
    Truth(bool),
    Name(Name, At),
}

/// A variable, or an element by its index.
#[cycle(tree)]
#[derive(Debug, Drop)]
pub struct Ref {
    pub name: Name,
    pub index: Option<Box<Expr>>,
    pub at: At,
}
