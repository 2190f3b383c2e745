//! The rules of expressions and references.
ghost use Rattle.std.specs.Prelude.{◌≡◌, ◌||◌, not, map, option_map};
ghost use Rattle.spl_tree.specs.Views as view;
ghost use Rattle.spl_tree.specs.Views.{letters};
ghost use Rattle.spl_tree.specs.Trees.{trees};
ghost use Rattle.spl_sorts.specs.spl_meaning.Faults.{first_fault, unless};
ghost use Rattle.spl_sorts.specs.spl_meaning.Pending as pending;
ghost use Rattle.spl_sorts.specs.spl_meaning.ExpressionRules as rules;
ghost use Rattle.spl_found.specs.FoundExpressions as found;
ghost use Rattle.spl_sorts.specs.Sorts.{operand_of};
ghost use Rattle.spl_sorts.specs.Profiles.{formal_of};
ghost use Rattle.spl_uses.specs.Scopes.{scope_of};

use crate::names::{constant, constant_place, field, is_misused, name, variable};
use crate::scopes::Scope;
use crate::values::{
    argument, bits, compares_text, is_label_name, kind_at, may_compare_text, operation, single,
};
use spl_sorts::{Formal, Operand, Report, Sort, callable, constant_value, in_range, text_value};
use spl_tree::{At, Expr, Kind, Name, Ref, unary};

/// 27: in a split procedure a MOVE, a SCAN or a comparison of bytes of anything but a pointer's elements.
pub fn far(scope: &Scope<'_>, r: &Ref, report: &mut Report)
    ensures { report.new ≡ first_fault report.old (rules.far_faults (scope_of scope.now) (view.reference r.now)) }
{
    let near = matches!(
        scope.names.find(&r.name),
        None | Some(Sort::Pointer(..) | Sort::Unknown)
    );
    report.unless(!scope.split || near, 27, r.at);
}

/// The same of a reference as an expression.
fn far_expression(scope: &Scope<'_>, e: &Expr, report: &mut Report)
    ensures { report.new ≡ first_fault report.old (rules.far_faults (scope_of scope.now) (view.expression e.now)) }
{
    if let Expr::Named { name, at, .. } = e {
        let near = matches!(
            scope.names.find(name),
            None | Some(Sort::Pointer(..) | Sort::Unknown)
        );
        report.unless(!scope.split || near, 27, *at);
    }
}

/// Whether a reference may be one of bytes: its kind is BYTE, or it has none.
fn may_be_byte(scope: &Scope<'_>, r: &Ref) -> bool
    ensures { result ≡ rules.may_be_byte (rules.rule_reference (scope_of scope.now).names (view.reference r.now)) }
{
    matches!(kind_at(&scope.names, r), None | Some(Kind::Byte))
}

/// What a name with so many arguments or indices is: nothing is known of one that is misused.
fn named(scope: &Scope<'_>, name: &Name, given: usize) -> Operand
    ensures { operand_of result ≡ rules.rule_operand ((scope_of scope.now).names (letters name.now)) given }
{
    if is_misused(&scope.names, name, given) {
        Operand::Unknown
    } else {
        Operand::named(scope.names.find(name))
    }
}

/// An expression, in a part with this place, and what it is.
#[cycle(expressions)]
#[tactic(auto, using(crate::proofs::Counts::counts, crate::proofs::Texts::texts), unfolding(spl_found::specs::FoundExpressions::found))]
pub fn expression(scope: &Scope<'_>, around: At, e: &Expr, report: &mut Report) -> Operand
    ensures kind { operand_of result ≡ rules.rule_kind (scope_of scope.now).names (view.expression e.now) }
    ensures first { report.new ≡ found.found (scope_of scope.now) around (view.expression e.now) report.old }
{
    match e {
        Expr::Number(_) | Expr::Truth(_) => Operand::Constant,
        Expr::Wide(_) => Operand::Of(Kind::Double),
        Expr::Text(chars) => {
            report.unless(text_value(&chars.bytes).is_some(), 14, around);
            Operand::Constant
        }
        Expr::Named { name: x, args, at } => {
            let given = args.len();
            name(scope, x, given, *at, report);
            behind(scope, x, args, *at, report);
            named(scope, x, given)
        }
        Expr::Address {
            name: x,
            index: None,
            at,
        } => {
            variable(scope, x, 0, *at, report);
            pointer_alone(scope, x, *at, report);
            Operand::Of(Kind::Logical)
        }
        Expr::Address {
            name: x,
            index: Some(index),
            at,
        } => {
            variable(scope, x, 1, *at, report);
            pointer_alone(scope, x, *at, report);
            an_index(scope, index, *at, report);
            Operand::Of(Kind::Logical)
        }
        Expr::Unary { op, of, at } => {
            let value = expression(scope, *at, of, report);
            if *op == unary::NOT {
                bits(&scope.names, *at, of, value, report);
            }
            value.unary(*op)
        }
        Expr::Binary {
            op,
            left,
            right,
            at,
        } => {
            let a = expression(scope, *at, left, report);
            if compares_text(&scope.names, *op, left, right) {
                far_expression(scope, left, report);
                Operand::Of(Kind::Logical)
            } else if may_compare_text(&scope.names, *op, left, right) {
                // the string is looked at no further
                a.binary(*op, Operand::Unknown)
            } else {
                let b = expression(scope, *at, right, report);
                operation(&scope.names, *op, left, right, (a, b), *at, report);
                a.binary(*op, b)
            }
        }
        Expr::Shift { of, by, at, .. } => {
            let value = expression(scope, *at, of, report);
            report.unless(!value.is_double(), 5, *at);
            constant(&scope.names, *at, by, report);
            let count = constant_value(&scope.names, by);
            report.unless(in_range(0, 15, count), 13, constant_place(*at, by));
            Operand::Of(Kind::Logical)
        }
        Expr::Field {
            of,
            start,
            length,
            at,
        } => {
            let value = expression(scope, *at, of, report);
            report.unless(!value.is_double(), 5, *at);
            field(&scope.names, start, length, *at, report);
            Operand::Of(Kind::Logical)
        }
        Expr::Transfer { to, of, at } => {
            let _ = expression(scope, *at, of, report);
            Operand::Of(*to)
        }
        Expr::Bytes {
            left,
            right,
            count,
            at,
            ..
        } => {
            reference(scope, left, report);
            far(scope, left, report);
            reference(scope, right, report);
            far(scope, right, report);
            let bytes = may_be_byte(scope, left) && may_be_byte(scope, right);
            report.unless(bytes, 24, *at);
            let value = expression(scope, *at, count, report);
            single(&scope.names, *at, count, value, report);
            Operand::Of(Kind::Logical)
        }
    }
}

/// 27: `@` of anything but a pointer, in a split procedure.
fn pointer_alone(scope: &Scope<'_>, name: &Name, at: At, report: &mut Report)
    ensures { report.new ≡ first_fault report.old (unless (not (scope_of scope.now).split || rules.is_pointer ((scope_of scope.now).names (letters name.now))) 27 at) }
{
    let pointer = matches!(scope.names.find(name), Some(Sort::Pointer(..)));
    report.unless(!scope.split || pointer, 27, at);
}

/// What stands behind a name: arguments of what is called, else indices.
#[cycle(expressions)]
#[tactic(auto)]
fn behind(scope: &Scope<'_>, name: &Name, args: &[Expr], at: At, report: &mut Report)
    ensures { report.new ≡ found.found_behind (scope_of scope.now) (letters name.now) (trees (map view.expression args.now)) at report.old }
{
    match callable(scope.names.find(name)) {
        Some(profile) => arguments(scope, &profile.formals, args, at, report),
        None => indices(scope, args, at, report),
    }
}

/// A reference.
#[cycle(expressions)]
#[tactic(auto, unfolding(spl_found::specs::FoundExpressions::found_located, spl_found::specs::FoundExpressions::found_indices))]
pub fn reference(scope: &Scope<'_>, r: &Ref, report: &mut Report)
    ensures { report.new ≡ found.found_located (scope_of scope.now) (view.reference r.now) report.old }
{
    match &r.index {
        None => variable(scope, &r.name, 0, r.at, report),
        Some(index) => {
            variable(scope, &r.name, 1, r.at, report);
            an_index(scope, index, r.at, report);
        }
    }
}

/// One index.
#[cycle(expressions)]
#[tactic(auto)]
fn an_index(scope: &Scope<'_>, index: &Expr, at: At, report: &mut Report)
    ensures { report.new ≡ first_fault (found.found (scope_of scope.now) at (view.expression index.now) report.old) (rules.single_faults (scope_of scope.now).names at (view.expression index.now)) }
{
    let value = expression(scope, at, index, report);
    single(&scope.names, at, index, value, report);
}

/// Indices in order.
#[cycle(expressions)]
#[tactic(auto, using(crate::proofs::Walks::walks))]
pub fn indices(scope: &Scope<'_>, args: &[Expr], at: At, report: &mut Report)
    ensures { report.new ≡ found.found_indices (scope_of scope.now) (trees (map view.expression args.now)) at report.old }
{
    for index in args {
        an_index(scope, index, at, report);
    }
}

/// An argument by itself: where a reference has to be, a label is only that.
#[cycle(expressions)]
#[tactic(auto, using(crate::proofs::Labels::labels))]
fn own(scope: &Scope<'_>, formal: Option<&Formal>, e: &Expr, at: At, report: &mut Report) -> Operand
    ensures kind { operand_of result ≡ rules.rule_kind (scope_of scope.now).names (view.expression e.now) }
    ensures first { report.new ≡ found.found_own (scope_of scope.now) (option_map (λ f. formal_of f.now) formal.entry) (view.expression e.now) at report.old }
{
    let by_reference = match formal {
        Some(formal) => !formal.by_value(),
        None => false,
    };
    if by_reference && is_label_name(&scope.names, e) {
        Operand::Unknown
    } else {
        expression(scope, at, e, report)
    }
}

/// Arguments in order, each with its parameter.
#[cycle(expressions)]
#[tactic(auto, using(crate::proofs::Walks::walks))]
pub fn arguments(scope: &Scope<'_>, formals: &[Formal], args: &[Expr], at: At, report: &mut Report)
    ensures { report.new ≡ found.found_arguments (scope_of scope.now) (map formal_of formals.now) (trees (map view.expression args.now)) at report.old }
{
    let mut formals = formals;
    for e in args {
        let formal = next_formal(formals);
        let value = own(scope, formal, e, at, report);
        argument(&scope.names, formal, e, value, at, report);
        formals = other_formals(formals);
    }
}

/// The first of some parameters.
fn next_formal(formals: &[Formal]) -> Option<&Formal>
    ensures { option_map (λ f. formal_of f.now) result ≡ pending.first_formal (map formal_of formals.now) }
{
    match formals {
        [formal, ..] => Some(formal),
        [] => None,
    }
}

/// The parameters behind the first.
fn other_formals(formals: &[Formal]) -> &[Formal]
    ensures { map formal_of result.now ≡ pending.other_formals (map formal_of formals.now) }
{
    match formals {
        [_, others @ ..] => others,
        [] => formals,
    }
}
