//! The rules of names and constants by themselves.
ghost use Rattle.std.specs.Prelude.{◌≡◌, true, false, option_map};
ghost use Rattle.spl_tree.specs.Views as view;
ghost use Rattle.spl_tree.specs.Views.{letters};
ghost use Rattle.spl_sorts.specs.spl_meaning.Faults.{first_fault};
ghost use Rattle.spl_sorts.specs.spl_meaning.Kinds as kinds;
ghost use Rattle.spl_sorts.specs.spl_meaning.ExpressionRules as rules;
ghost use Rattle.spl_sorts.specs.Sorts.{sort_of};
ghost use Rattle.spl_sorts.specs.Profiles.{profile_of};
ghost use Rattle.spl_sorts.specs.Tables.{names_of};
ghost use Rattle.spl_uses.specs.Scopes.{scope_of};

use crate::scopes::Scope;
use spl_sorts::{
    Names, Profile, Report, Sort, callable, constant_value, is_field, text_value, variable_kind,
};
use spl_tree::{At, Const, Expr, Name};

/// 27: in a split procedure a global variable.
pub fn split_use(scope: &Scope<'_>, name: &Name, at: At, report: &mut Report)
    ensures { report.new ≡ first_fault report.old (rules.split_use (scope_of scope.now) (letters name.now) at) }
{
    report.unless(!scope.split || scope.is_local(name), 27, at);
}

/// Whether what a name stands for has elements: an array, a view or a pointer.
pub fn has_elements(sort: Option<&Sort>) -> bool
    ensures { result ≡ rules.has_elements (option_map (λ s. sort_of s.now) sort.entry) }
{
    matches!(
        sort,
        Some(Sort::Array { .. } | Sort::View(..) | Sort::Pointer(..) | Sort::ArrayParameter(_))
    )
}

/// Whether a name may have so many indices: none, or at most one.
fn index_fits(sort: Option<&Sort>, indices: usize) -> bool
    ensures { result ≡ rules.index_fits (option_map (λ s. sort_of s.now) sort.entry) indices }
{
    if has_elements(sort) {
        indices <= 1
    } else {
        indices == 0
    }
}

/// Whether what stands for something of this sort is misused, with so many arguments or indices.
#[tactic(auto, using(crate::proofs::Misused::misused))]
fn is_misused_as(sort: Option<&Sort>, given: usize) -> bool
    ensures { result ≡ rules.is_misused (option_map (λ s. sort_of s.now) sort.entry) given }
{
    match sort {
        None | Some(Sort::Label) => true,
        Some(Sort::Unknown | Sort::Intrinsic(_) | Sort::Procedure(_) | Sort::Subroutine(_)) => {
            false
        }
        Some(_) => !index_fits(sort, given),
    }
}

/// Whether a name may not stand where a value has to be, with so many arguments or indices: it is not declared, it is a label, or its index
/// has no sense.
pub fn is_misused(names: &Names<'_>, name: &Name, given: usize) -> bool
    ensures { result ≡ rules.is_misused ((names_of names.now) (letters name.now)) given }
{
    is_misused_as(names.find(name), given)
}

/// A name where a variable has to be.
///
/// 1: it is not declared. 3: it is of the wrong sort, or its index has no sense. 27: it is global, in a split procedure.
pub fn variable(scope: &Scope<'_>, name: &Name, indices: usize, at: At, report: &mut Report)
    ensures { report.new ≡ first_fault report.old (rules.variable_faults (scope_of scope.now) (letters name.now) indices at) }
{
    let sort = scope.names.find(name);
    match variable_kind(sort) {
        Some(_) => {
            report.unless(index_fits(sort, indices), 3, at);
            split_use(scope, name, at, report);
        }
        None => match sort {
            None => report.note(1, at),
            Some(Sort::Unknown) => {}
            Some(_) => report.note(3, at),
        },
    }
}

/// A call.
///
/// 8: the number of arguments is wrong. 11: what has no value is called in an expression. 27: a call of a procedure or an
/// intrinsic, in a split procedure.
pub fn call(
    scope: &Scope<'_>,
    sort: Option<&Sort>,
    profile: &Profile,
    arguments: usize,
    wants_value: bool,
    at: At,
    report: &mut Report,
)
    ensures { report.new ≡ first_fault report.old (rules.call_faults (scope_of scope.now) (option_map (λ s. sort_of s.now) sort.entry) (profile_of profile.now) arguments wants_value at) }
{
    report.unless(arguments == profile.formals.len(), 8, at);
    report.unless(profile.result.is_some() || !wants_value, 11, at);
    let subroutine = matches!(sort, Some(Sort::Subroutine(_)));
    report.unless(!scope.split || subroutine, 27, at);
}

/// A name in an expression, with so many arguments or indices.
pub fn name(scope: &Scope<'_>, name: &Name, given: usize, at: At, report: &mut Report)
    ensures { report.new ≡ first_fault report.old (rules.name_by (scope_of scope.now) (letters name.now) (kinds.callable ((scope_of scope.now).names (letters name.now))) given at) }
{
    let sort = scope.names.find(name);
    match callable(sort) {
        Some(profile) => call(scope, sort, profile, given, true, at, report),
        None => match sort {
            // an EQUATE name has no index
            Some(Sort::Equate(_)) => report.unless(given == 0, 3, at),
            _ => variable(scope, name, given, at, report),
        },
    }
}

/// A constant, in a part with this place.
///
/// 1: a name is not declared. 3: it is of the wrong sort. 14: a string has no value.
pub fn constant(names: &Names<'_>, around: At, constant: &Const, report: &mut Report)
    ensures { report.new ≡ first_fault report.old (rules.constant_faults (names_of names.now) around (view.constant constant.now)) }
{
    match constant {
        Const::Name(name, at) => match names.find(name) {
            None => report.note(1, *at),
            Some(Sort::Equate(_) | Sort::Unknown) => {}
            Some(_) => report.note(3, *at),
        },
        Const::Text(chars) => report.unless(text_value(&chars.bytes).is_some(), 14, around),
        _ => {}
    }
}

/// The first bit and the length of a bit field. 13: it is out of range.
#[tactic(auto, using(crate::proofs::Fields::fields))]
pub fn field(names: &Names<'_>, start: &Const, length: &Const, at: At, report: &mut Report)
    ensures { report.new ≡ first_fault report.old (rules.field_faults (names_of names.now) (view.constant start.now) (view.constant length.now) at) }
{
    constant(names, at, start, report);
    constant(names, at, length, report);
    let fits = is_field(constant_value(names, start), constant_value(names, length));
    report.unless(fits, 13, at);
}

/// The place of a constant, or that of the part around it.
pub fn constant_place(around: At, constant: &Const) -> At
    ensures { result ≡ rules.constant_place around (view.constant constant.now) }
{
    match constant {
        Const::Name(_, at) => *at,
        _ => around,
    }
}

/// The place of an expression, or that of the part around it.
pub fn place(around: At, e: &Expr) -> At
    ensures { result ≡ rules.place_in around (view.expression e.now) }
{
    match e {
        Expr::Number(_) | Expr::Wide(_) | Expr::Text(_) | Expr::Truth(_) => around,
        Expr::Named { at, .. }
        | Expr::Address { at, .. }
        | Expr::Unary { at, .. }
        | Expr::Binary { at, .. }
        | Expr::Shift { at, .. }
        | Expr::Field { at, .. }
        | Expr::Transfer { at, .. }
        | Expr::Bytes { at, .. } => *at,
    }
}
