//! The rules of values for a place, where it is known what the value is.
ghost use Rattle.std.specs.Prelude.{◌≡◌, option_map};
ghost use Rattle.spl_tree.specs.Views as view;
ghost use Rattle.spl_sorts.specs.spl_meaning.Faults.{first_fault};
ghost use Rattle.spl_sorts.specs.spl_meaning.Kinds as kinds;
ghost use Rattle.spl_sorts.specs.spl_meaning.ExpressionRules as rules;
ghost use Rattle.spl_sorts.specs.Sorts.{operand_of};
ghost use Rattle.spl_sorts.specs.Profiles.{formal_of};
ghost use Rattle.spl_sorts.specs.Tables.{names_of};

use crate::names::{is_misused, place};
use spl_sorts::{Formal, Names, Operand, Report, Sort, fits, same_sort, variable_kind};
use spl_tree::{At, Expr, Kind, Ref, binary};

/// A value of one word, in a part with this place. 14: it is a wide constant. 23: it is a DOUBLE.
pub fn single(names: &Names<'_>, around: At, e: &Expr, value: Operand, report: &mut Report)
    requires { operand_of value ≡ rules.rule_kind (names_of names.now) (view.expression e.now) }
    ensures { report.new ≡ first_fault report.old (rules.single_faults (names_of names.now) around (view.expression e.now)) }
{
    match e {
        Expr::Wide(_) => report.note(14, around),
        _ => report.unless(!value.is_double(), 23, place(around, e)),
    }
}

/// A condition or an operand whose bits are worked on, in a part with this place. 7: it is INTEGER or DOUBLE.
pub fn bits(names: &Names<'_>, around: At, e: &Expr, value: Operand, report: &mut Report)
    requires { operand_of value ≡ rules.rule_kind (names_of names.now) (view.expression e.now) }
    ensures { report.new ≡ first_fault report.old (rules.bits_faults (names_of names.now) around (view.expression e.now)) }
{
    report.unless(value.is_bits(), 7, place(around, e));
}

/// The kind of what an expression names by itself.
pub fn reference_kind(names: &Names<'_>, e: &Expr) -> Option<Kind>
    ensures { result ≡ kinds.reference_kind (names_of names.now) (view.expression e.now) }
{
    match e {
        Expr::Named { name, .. } => variable_kind(names.find(name)),
        _ => None,
    }
}

/// The kind of what a reference names, where its name is not misused.
pub fn kind_at(names: &Names<'_>, r: &Ref) -> Option<Kind>
    ensures { result ≡ rules.rule_reference (names_of names.now) (view.reference r.now) }
{
    let given = if r.index.is_some() { 1 } else { 0 };
    if is_misused(names, &r.name, given) {
        None
    } else {
        variable_kind(names.find(&r.name))
    }
}

/// Whether an expression is a name that is not declared, or wrongly.
fn is_open(names: &Names<'_>, e: &Expr) -> bool
    ensures { result ≡ rules.is_open (names_of names.now) (view.expression e.now) }
{
    match e {
        Expr::Named { name, .. } => matches!(names.find(name), None | Some(Sort::Unknown)),
        _ => false,
    }
}

/// Whether an expression is a label.
pub fn is_label_name(names: &Names<'_>, e: &Expr) -> bool
    ensures { result ≡ rules.is_label_name (names_of names.now) (view.expression e.now) }
{
    match e {
        Expr::Named { name, .. } => matches!(names.find(name), Some(Sort::Label)),
        _ => false,
    }
}

/// Whether a value fits a parameter whose kind may be none.
fn value_fits(kind: Option<Kind>, value: Operand) -> bool
    ensures { result ≡ rules.value_fits kind (operand_of value) }
{
    match kind {
        None => true,
        Some(kind) => fits(kind, value),
    }
}

/// Whether a reference that may be none fits a parameter whose kind may be none.
fn passes(parameter: Option<Kind>, given: Option<Kind>) -> bool
    ensures { result ≡ rules.passes parameter given }
{
    match (parameter, given) {
        (None, _) => true,
        (Some(_), None) => false,
        (Some(parameter), Some(given)) => same_sort(parameter, given),
    }
}

/// An argument with its parameter, in a call with this place.
///
/// 9: a value does not fit. 10: a reference is none, or does not match.
pub fn argument(
    names: &Names<'_>,
    formal: Option<&Formal>,
    e: &Expr,
    value: Operand,
    at: At,
    report: &mut Report,
)
    requires { operand_of value ≡ rules.rule_kind (names_of names.now) (view.expression e.now) }
    ensures { report.new ≡ first_fault report.old (rules.argument_faults (names_of names.now) (option_map (λ f. formal_of f.now) formal.entry) (view.expression e.now) at) }
{
    if let Some(formal) = formal {
        if formal.by_value() {
            report.unless(value_fits(formal.kind, value), 9, place(at, e));
        } else {
            let fits = is_open(names, e) || passes(formal.kind, reference_kind(names, e));
            report.unless(fits, 10, place(at, e));
        }
    }
}

/// Whether a relation compares a string's bytes with those from a BYTE variable, element or pointer on.
pub fn compares_text(names: &Names<'_>, op: u8, left: &Expr, right: &Expr) -> bool
    ensures { result ≡ kinds.compares_text (names_of names.now) op (view.expression left.now) (view.expression right.now) }
{
    let relation = binary::EQUAL <= op && op < binary::PLUS;
    relation && matches!(reference_kind(names, left), Some(Kind::Byte)) && is_long_text(right)
}

/// Whether a relation of a misused name with a string may be meant to compare bytes.
pub fn may_compare_text(names: &Names<'_>, op: u8, left: &Expr, right: &Expr) -> bool
    ensures { result ≡ rules.may_compare_text (names_of names.now) op (view.expression left.now) (view.expression right.now) }
{
    let relation = binary::EQUAL <= op && op < binary::PLUS;
    relation && is_misused_name(names, left) && is_long_text(right)
}

/// Whether an expression is a name that is misused.
fn is_misused_name(names: &Names<'_>, e: &Expr) -> bool
    ensures { result ≡ rules.is_misused_name (names_of names.now) (view.expression e.now) }
{
    match e {
        Expr::Named { name, args, .. } => is_misused(names, name, args.len()),
        _ => false,
    }
}

/// Whether it is a string of two or more characters.
fn is_long_text(e: &Expr) -> bool
    ensures { result ≡ kinds.is_long_text (view.expression e.now) }
{
    match e {
        Expr::Text(chars) => 2 <= chars.bytes.len(),
        _ => false,
    }
}

/// An operator with its operands. 4: kinds are mixed. 5: the operation is none of this kind. 7: bits of an INTEGER or a DOUBLE.
pub fn operation(
    names: &Names<'_>,
    op: u8,
    left: &Expr,
    right: &Expr,
    values: (Operand, Operand),
    at: At,
    report: &mut Report,
)
    requires left { operand_of values.0 ≡ rules.rule_kind (names_of names.now) (view.expression left.now) }
    requires right { operand_of values.1 ≡ rules.rule_kind (names_of names.now) (view.expression right.now) }
    ensures { report.new ≡ first_fault report.old (rules.binary_faults (names_of names.now) op (view.expression left.now) (view.expression right.now) at) }
{
    let (a, b) = values;
    if op < binary::EQUAL {
        bits(names, at, left, a, report);
        bits(names, at, right, b, report);
    } else {
        report.unless(a.mixes(b), 4, at);
        report.unless(a.has(op, b), 5, at);
    }
}
