//! Statements, with their targets, effects and tests.
use crate::expressions::{Const, Expr, Ref};
use crate::names_and_places::{At, Chars, Name};

/// What an assignment stores into: a variable or an element, a bit field of one, or the cell of a pointer.
#[derive(Debug, Drop)]
pub enum Target {
    Plain(Ref),
    Field {
        of: Ref,
        start: Const,
        length: Const,
    },
    Address(Name, At),
}

/// What a MOVE moves: elements by their number, a string, or the characters of a class.
#[derive(Debug, Drop)]
pub enum Source {
    Counted(Ref, Expr),
    Text(Chars),
    While(Ref, u8),
}

/// A MOVE, or a SCAN with its test word, UNTIL or WHILE.
#[derive(Debug, Drop)]
pub enum Effect {
    Move { to: Ref, from: Source },
    Scan { from: Ref, until: bool, test: Expr },
}

/// What an IF tests: a condition, or the condition code by the number of a relation.
#[derive(Debug, Drop)]
pub enum Test {
    Of(Expr),
    Code(u8),
}

/// A statement. An `at` is the place of its first token.
#[cycle(statement)]
#[derive(Debug, Drop)]
pub enum Stmt {
    Empty,
    Labelled {
        name: Name,
        at: At,
        body: Box<Stmt>,
    },
    Block(Vec<Stmt>),
    If {
        test: Test,
        yes: Box<Stmt>,
        no: Option<Box<Stmt>>,
        at: At,
    },
    While {
        test: Expr,
        body: Box<Stmt>,
        at: At,
    },
    Until {
        body: Box<Stmt>,
        test: Expr,
        at: At,
    },
    For {
        name: Name,
        first: Expr,
        step: Option<Expr>,
        last: Expr,
        body: Box<Stmt>,
        at: At,
    },
    Case {
        of: Expr,
        arms: Vec<Stmt>,
        at: At,
    },
    Goto(Name, At),
    Return(At),
    Assign {
        to: Target,
        value: Expr,
        at: At,
    },
    AssignEffect {
        to: Target,
        effect: Effect,
        at: At,
    },
    /// A MOVE or a SCAN whose value is dropped.
    Do(Effect, At),
    Call {
        name: Name,
        args: Vec<Expr>,
        at: At,
    },
}
