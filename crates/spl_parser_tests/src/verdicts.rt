//! What a rule says of a list of tokens. Few functions hold tokens or trees, since each way out of one that does is paid for in
//! its proof.

use crate::tokens::tokens;
use spl_headings::{names, parameters};
use spl_items::{arrays, equals, items, pointers};
use spl_tokens::{Fault, Tokens};
use spl_tree::Item;
use spl_units::spl_statements::{statement, statement_list};
use spl_units::unit;
use spl_within::{condition_within, expression_within};
use std::alloc::{AllocError, Global};
use std::process::Abort;
use std::test::Fail;

/// What a list of tokens begins with; places count its tokens from 0.
#[derive(Clone, Copy, PartialEq, Eq)]
pub enum Verdict {
    /// One part of so many tokens.
    Takes(usize),
    /// So many parts of so many tokens.
    Parts(usize, usize),
    Unit,
    Syntax(usize),
    TooDeep(usize),
    NoMemory,
}

/// What is read.
pub enum Rule {
    Expression,
    Condition,
    Statement,
    Statements,
    Unit,
    Names,
    Parameters,
    Pointers,
    Items,
    Arrays,
    Equals,
}

enum Read {
    Part,
    Parts(usize),
    Unit,
}

fn part<T: Drop>(read: Result<T, Fault>) -> Result<Read, Fault> {
    match read {
        Ok(_) => Ok(Read::Part),
        Err(fault) => Err(fault),
    }
}

fn whole<T: Drop>(read: Result<T, Fault>) -> Result<Read, Fault> {
    match read {
        Ok(_) => Ok(Read::Unit),
        Err(fault) => Err(fault),
    }
}

fn parts<T: Drop>(read: Result<Vec<T>, Fault>) -> Result<Read, Fault> {
    match read {
        Ok(list) => Ok(Read::Parts(list.len())),
        Err(fault) => Err(fault),
    }
}

/// Names as those of pointers.
fn named_pointers(alloc: Global, cursor: &mut Tokens<'_>) -> Result<Vec<Item>, Fault> {
    match names(alloc, cursor) {
        Ok(list) => match pointers(alloc, list) {
            Ok(items) => Ok(items),
            Err(AllocError) => Err(Fault::NoMemory),
        },
        Err(fault) => Err(fault),
    }
}

/// Reads by a rule where at most 64 constructs, as anywhere, and at most `room` may be opened.
fn read_by(alloc: Global, cursor: &mut Tokens<'_>, rule: &Rule, room: u8) -> Result<Read, Fault> {
    if room > 64 {
        return Err(Fault::TooDeep);
    }
    match rule {
        Rule::Expression => part(expression_within(alloc, cursor, room)),
        Rule::Condition => part(condition_within(alloc, cursor, room)),
        Rule::Statement => part(statement(alloc, cursor, room)),
        Rule::Statements => part(statement_list(alloc, cursor, room)),
        Rule::Unit => whole(unit(alloc, cursor, room)),
        Rule::Names => parts(names(alloc, cursor)),
        Rule::Parameters => parts(parameters(alloc, cursor)),
        Rule::Pointers => parts(named_pointers(alloc, cursor)),
        Rule::Items => parts(items(alloc, cursor)),
        Rule::Arrays => parts(arrays(alloc, cursor)),
        Rule::Equals => parts(equals(alloc, cursor)),
    }
}

fn verdict_at(read: Result<Read, Fault>, at: usize) -> Verdict {
    match read {
        Ok(Read::Part) => Verdict::Takes(at),
        Ok(Read::Parts(count)) => Verdict::Parts(count, at),
        Ok(Read::Unit) => Verdict::Unit,
        Err(Fault::Syntax) => Verdict::Syntax(at),
        Err(Fault::TooDeep) => Verdict::TooDeep(at),
        Err(Fault::NoMemory) => Verdict::NoMemory,
    }
}

/// What a text comes to by a rule.
pub fn verdict_of(alloc: Global, rule: &Rule, text: &str, room: u8) -> Result<Verdict, AllocError> {
    let tokens = tokens(alloc, text, 0)?;
    let mut cursor = Tokens::new(&tokens);
    let read = read_by(alloc, &mut cursor, rule, room);
    let at = tokens.len().saturating_sub(cursor.left());
    Ok(verdict_at(read, at))
}

/// Each text comes to this by a rule, where 64 constructs may be opened.
pub fn compare(
    rt: &impl Abort,
    alloc: Global,
    rule: &Rule,
    rows: &[(&str, Verdict)],
) -> Result<(), Fail> {
    for (text, wanted) in rows {
        assert!(rt; verdict_of(alloc, rule, text, 64)? == *wanted, "{text}");
    }
    Ok(())
}

/// The same, where so many constructs may be opened.
pub fn compare_in(
    rt: &impl Abort,
    alloc: Global,
    rule: &Rule,
    rows: &[(&str, u8, Verdict)],
) -> Result<(), Fail> {
    for (text, room, wanted) in rows {
        assert!(rt; verdict_of(alloc, rule, text, *room)? == *wanted, "{text}");
    }
    Ok(())
}
