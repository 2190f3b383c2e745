//! A unit's tree as a short text. Each operation stands in parentheses with its operands, and each statement that
//! holds others in braces, so the text shows what belongs to which. Places are left out, and segments are shown where
//! they are not the first.
//!
//! What there is no memory for is left out, so that no step can fail: such a text is none that a test wants, and each `?` would
//! be paid for in the proof.

use spl_tree::{
    At, Chars, Const, Decl, Effect, Expr, Heading, Item, Kind, Name, Ref, Shape, Source, Spec,
    SplUnit, Stmt, Target, Test,
};
use std::alloc::Global;

static BINARY: [&str; 16] = [
    " OR ", " AND ", " LOR ", " XOR ", " LAND ", "=", "<>", "<", ">", "<=", ">=", "+", "-", "*",
    "/", " MOD ",
];

static UNARY: [&str; 3] = ["+", "-", "NOT "];

static RELATIONS: [&str; 6] = ["=", "<>", "<", ">", "<=", ">="];

static SHIFTS: [&str; 6] = ["&ASL ", "&ASR ", "&LSL ", "&LSR ", "&CSL ", "&CSR "];

static CLASSES: [&str; 5] = [
    " WHILE A",
    " WHILE N",
    " WHILE AN",
    " WHILE AS",
    " WHILE ANS",
];

fn word(words: &'static [&'static str], number: u8) -> &'static str {
    match words.get(usize::from(number)) {
        Some(word) => word,
        None => "?",
    }
}

fn kind_word(kind: Kind) -> &'static str {
    match kind {
        Kind::Integer => "INTEGER",
        Kind::Logical => "LOGICAL",
        Kind::Byte => "BYTE",
        Kind::Double => "DOUBLE",
    }
}

fn put(out: &mut String, text: &str) {
    let _ = out.push_str(text);
}

fn bytes(out: &mut String, bytes: &[u8]) {
    for byte in bytes {
        let _ = out.push(char::from(*byte));
    }
}

/// A number with what stands before and behind it.
fn number(out: &mut String, before: &str, value: u32, behind: &str) {
    let _ = write!(out, "{before}{value}{behind}");
}

fn name(out: &mut String, name: &Name) {
    bytes(out, &name.text);
}

fn quoted(out: &mut String, chars: &Chars) {
    put(out, "\"");
    bytes(out, &chars.bytes);
    put(out, "\"");
}

fn sign(negated: bool) -> &'static str {
    if negated { "-" } else { "" }
}

fn truth(value: bool) -> &'static str {
    if value { "TRUE" } else { "FALSE" }
}

fn constant(out: &mut String, of: &Const) {
    match of {
        Const::Number(negated, value) => number(out, sign(*negated), u32::from(*value), ""),
        Const::Wide(negated, value) => number(out, sign(*negated), *value, "D"),
        Const::Text(chars) => quoted(out, chars),
        Const::Truth(value) => put(out, truth(*value)),
        Const::Name(of, _) => name(out, of),
    }
}

/// A bit field: its first bit and its number of bits.
fn field(out: &mut String, start: &Const, length: &Const) {
    put(out, ".");
    constant(out, start);
    put(out, ":");
    constant(out, length);
}

#[cycle(printed)]
fn expressions(out: &mut String, list: &[Expr]) {
    for (index, each) in list.iter().enumerate() {
        if index > 0 {
            put(out, ",");
        }
        expression(out, each);
    }
}

#[cycle(printed)]
fn indexed(out: &mut String, of: &Name, index: &Option<Box<Expr>>) {
    name(out, of);
    if let Some(index) = index {
        put(out, "[");
        expression(out, index);
        put(out, "]");
    }
}

#[cycle(printed)]
fn expression(out: &mut String, of: &Expr) {
    match of {
        Expr::Number(value) => number(out, "", u32::from(*value), ""),
        Expr::Wide(value) => number(out, "", *value, "D"),
        Expr::Text(chars) => quoted(out, chars),
        Expr::Truth(value) => put(out, truth(*value)),
        Expr::Named { name, args, .. } => called(out, name, args),
        Expr::Address { name, index, .. } => {
            put(out, "@");
            indexed(out, name, index);
        }
        other => operation(out, other),
    }
}

/// An operation with its operands.
#[cycle(printed)]
fn operation(out: &mut String, of: &Expr) {
    put(out, "(");
    match of {
        Expr::Binary {
            op,
            left,
            right,
            ..
        } => {
            expression(out, left);
            put(out, word(&BINARY, *op));
            expression(out, right);
        }
        Expr::Unary { op, of, .. } => {
            put(out, word(&UNARY, *op));
            expression(out, of);
        }
        Expr::Shift { kind, of, by, .. } => {
            expression(out, of);
            put(out, word(&SHIFTS, *kind));
            constant(out, by);
        }
        Expr::Field {
            of,
            start,
            length,
            ..
        } => {
            expression(out, of);
            field(out, start, length);
        }
        Expr::Transfer { to, of, .. } => {
            put(out, kind_word(*to));
            put(out, " ");
            expression(out, of);
        }
        Expr::Bytes {
            op,
            left,
            right,
            count,
            ..
        } => {
            reference(out, left);
            put(out, word(&RELATIONS, *op));
            reference(out, right);
            put(out, ",");
            expression(out, count);
        }
        _ => {}
    }
    put(out, ")");
}

/// A name with its arguments or its index.
#[cycle(printed)]
fn called(out: &mut String, of: &Name, args: &[Expr]) {
    name(out, of);
    if args.is_empty() {
        return;
    }
    put(out, "[");
    expressions(out, args);
    put(out, "]");
}

#[cycle(printed)]
fn reference(out: &mut String, of: &Ref) {
    indexed(out, &of.name, &of.index);
}

fn target(out: &mut String, of: &Target) {
    match of {
        Target::Plain(of) => reference(out, of),
        Target::Field { of, start, length } => {
            reference(out, of);
            field(out, start, length);
        }
        Target::Address(of, _) => {
            put(out, "@");
            name(out, of);
        }
    }
}

fn source(out: &mut String, of: &Source) {
    match of {
        Source::Counted(of, count) => {
            reference(out, of);
            put(out, ",");
            expression(out, count);
        }
        Source::Text(chars) => quoted(out, chars),
        Source::While(of, class) => {
            reference(out, of);
            put(out, word(&CLASSES, *class));
        }
    }
}

fn effect(out: &mut String, of: &Effect) {
    match of {
        Effect::Move { to, from } => {
            put(out, "MOVE ");
            reference(out, to);
            put(out, ":=");
            source(out, from);
        }
        Effect::Scan { from, until, test } => {
            put(out, "SCAN ");
            reference(out, from);
            put(out, if *until { " UNTIL " } else { " WHILE " });
            expression(out, test);
        }
    }
}

fn test(out: &mut String, of: &Test) {
    match of {
        Test::Of(of) => expression(out, of),
        Test::Code(relation) => put(out, word(&RELATIONS, *relation)),
    }
}

fn assigned(out: &mut String, to: &Target) {
    target(out, to);
    put(out, ":=");
}

#[cycle(stated)]
fn statements(out: &mut String, list: &[Stmt]) {
    for (index, each) in list.iter().enumerate() {
        if index > 0 {
            put(out, ";");
        }
        statement(out, each);
    }
}

#[cycle(stated)]
fn statement(out: &mut String, of: &Stmt) {
    match of {
        Stmt::Empty => put(out, "_"),
        Stmt::Labelled { name: of, body, .. } => {
            name(out, of);
            put(out, ":");
            statement(out, body);
        }
        Stmt::Block(list) => {
            put(out, "{");
            statements(out, list);
            put(out, "}");
        }
        Stmt::Goto(of, _) => {
            put(out, "GO ");
            name(out, of);
        }
        Stmt::Return(_) => put(out, "RETURN"),
        Stmt::Assign { to, value, .. } => {
            assigned(out, to);
            expression(out, value);
        }
        Stmt::AssignEffect { to, effect: of, .. } => {
            assigned(out, to);
            effect(out, of);
        }
        Stmt::Do(of, _) => effect(out, of),
        Stmt::Call { name, args, .. } => called(out, name, args),
        other => structured(out, other),
    }
}

/// The statements that hold others under a test, a count or a choice.
#[cycle(stated)]
fn structured(out: &mut String, of: &Stmt) {
    put(out, "{");
    match of {
        Stmt::If {
            test: of,
            yes,
            no,
            ..
        } => {
            put(out, "IF ");
            test(out, of);
            put(out, " THEN ");
            statement(out, yes);
            if let Some(no) = no {
                put(out, " ELSE ");
                statement(out, no);
            }
        }
        Stmt::While { test, body, .. } => {
            put(out, "WHILE ");
            expression(out, test);
            put(out, " DO ");
            statement(out, body);
        }
        Stmt::Until { body, test, .. } => {
            put(out, "DO ");
            statement(out, body);
            put(out, " UNTIL ");
            expression(out, test);
        }
        Stmt::Case { of, arms, .. } => {
            put(out, "CASE ");
            expression(out, of);
            put(out, " OF ");
            statements(out, arms);
        }
        Stmt::For {
            name,
            first,
            step,
            last,
            body,
            ..
        } => {
            counting(out, name, first, step, last);
            statement(out, body);
        }
        _ => {}
    }
    put(out, "}");
}

/// What a FOR counts by.
fn counting(out: &mut String, of: &Name, first: &Expr, step: &Option<Expr>, last: &Expr) {
    put(out, "FOR ");
    name(out, of);
    put(out, ":=");
    expression(out, first);
    if let Some(step) = step {
        put(out, " STEP ");
        expression(out, step);
    }
    put(out, " UNTIL ");
    expression(out, last);
    put(out, " DO ");
}

fn names(out: &mut String, list: &[(Name, At)]) {
    for (index, (each, _)) in list.iter().enumerate() {
        if index > 0 {
            put(out, ",");
        }
        name(out, each);
    }
}

fn item(out: &mut String, of: &Item) {
    if let Shape::Pointer = of.shape {
        put(out, "@");
    }
    name(out, &of.name);
    match &of.shape {
        Shape::Simple | Shape::Pointer => {}
        Shape::Array { low, high } => {
            put(out, "[");
            constant(out, low);
            put(out, ":");
            constant(out, high);
            put(out, "]");
        }
        Shape::View(of) => {
            put(out, "[*]=");
            name(out, of);
        }
    }
    for each in &of.first {
        put(out, ":=");
        constant(out, each);
    }
}

fn data(out: &mut String, own: bool, kind: Kind, items: &[Item]) {
    put(out, if own { "OWN " } else { "" });
    put(out, kind_word(kind));
    for each in items {
        put(out, " ");
        item(out, each);
    }
}

fn equates(out: &mut String, list: &[(Name, At, Vec<(bool, Const)>)]) {
    put(out, "EQUATE");
    for (each, _, terms) in list {
        put(out, " ");
        name(out, each);
        put(out, "=");
        for (negative, term) in terms {
            put(out, if *negative { "-" } else { "+" });
            constant(out, term);
        }
    }
}

fn specification(out: &mut String, of: &Spec) {
    put(out, ";");
    put(out, kind_word(of.kind));
    put(out, if of.array { " ARRAY " } else { " " });
    names(out, &of.names);
}

/// Where it is not the first that a token has, a segment's number.
fn segment(out: &mut String, of: u16) {
    if of == 0 {
        return;
    }
    number(out, "@", u32::from(of), "");
}

/// A result's kind, a name with its segment, the parameters, those by VALUE, and their kinds.
fn heading(out: &mut String, before: &str, of: &Heading) {
    put(out, before);
    if let Some(kind) = of.result {
        put(out, kind_word(kind));
        put(out, " ");
    }
    name(out, &of.name);
    segment(out, of.segment);
    put(out, "[");
    names(out, &of.names);
    put(out, "|");
    names(out, &of.values);
    for each in &of.specs {
        specification(out, each);
    }
    put(out, if of.split { "] SPLIT " } else { "] " });
}

#[cycle(declared)]
fn declaration(out: &mut String, of: &Decl) {
    match of {
        Decl::Data { own, kind, items } => data(out, *own, *kind, items),
        Decl::Equate(list) => equates(out, list),
        Decl::Intrinsic(list) => {
            put(out, "INTRINSIC ");
            names(out, list);
        }
        Decl::Label(list) => {
            put(out, "LABEL ");
            names(out, list);
        }
        Decl::Forward(of) => heading(out, "FORWARD ", of),
        Decl::External(of) => heading(out, "EXTERNAL ", of),
        Decl::Procedure(of, body) => {
            heading(out, "PROCEDURE ", of);
            block(out, &body.items, &body.statements);
        }
        Decl::Subroutine(of, body) => {
            heading(out, "SUBROUTINE ", of);
            statement(out, body);
        }
    }
}

/// Declarations and statements, a bar between them.
#[cycle(declared)]
fn block(out: &mut String, items: &[Decl], list: &[Stmt]) {
    put(out, "{");
    for each in items {
        declaration(out, each);
        put(out, ";");
    }
    put(out, "|");
    statements(out, list);
    put(out, "}");
}

/// A unit's tree.
pub fn unit_text(alloc: Global, unit: &SplUnit) -> String {
    let mut out = String::new(alloc);
    if unit.subprogram {
        put(&mut out, "SUBPROGRAM ");
    }
    block(&mut out, &unit.items, &unit.statements);
    segment(&mut out, unit.segment);
    out
}
