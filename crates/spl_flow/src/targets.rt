//! What assignments store into, and the counters of loops.
ghost use Rattle.std.specs.Prelude.{◌≡◌, [], option_map};
ghost use Rattle.spl_tree.specs.Views as view;
ghost use Rattle.spl_tree.specs.Views.{letters};
ghost use Rattle.spl_sorts.specs.spl_meaning.Faults.{first_fault};
ghost use Rattle.spl_sorts.specs.spl_meaning.StatementRules as rules;
ghost use Rattle.spl_found.specs.FoundStatements as found;
ghost use Rattle.spl_sorts.specs.Profiles.{profile_of};
ghost use Rattle.spl_sorts.specs.Sorts.{sort_of, operand_of};
ghost use Rattle.spl_sorts.specs.Tables.{names_of};
ghost use Rattle.spl_uses.specs.Scopes.{scope_of, with_result};
ghost use Rattle.spl_flow.specs.Targets.{found_index};

use crate::values::single_value;
use spl_sorts::{Names, Operand, Profile, Report, Sort, fits, variable_kind};
use spl_tree::{At, Expr, Kind, Name, Ref, Target};
use spl_uses::{Scope, expression, field, split_use, variable};

/// Whether a name is that of a body around, which has a result.
pub fn has_result(scope: &Scope<'_>, name: &Name) -> bool
    ensures { result ≡ rules.has_name (scope_of scope.now).results (letters name.now) }
{
    is_that(name, scope.subroutine) || is_that(name, scope.procedure)
}

/// Whether a name is that of a body, where there is one.
fn is_that(name: &Name, body: Option<&Name>) -> bool
    ensures { result ≡ rules.has_name (with_result body.entry []) (letters name.now) }
{
    match body {
        Some(body) => name == body,
        None => false,
    }
}

/// A procedure or a subroutine on the left of `:=`, with so many arguments.
///
/// 12: its name is assigned outside its body, or it has no type. 3: it has arguments there.
fn result(
    scope: &Scope<'_>,
    name: &Name,
    profile: &Profile,
    given: usize,
    at: At,
    report: &mut Report,
)
    ensures { report.new ≡ first_fault report.old (rules.result_faults (scope_of scope.now) (letters name.now) (profile_of profile.now) given at) }
{
    report.unless(has_result(scope, name) && profile.result.is_some(), 12, at);
    report.unless(given == 0, 3, at);
}

/// A name on the left of `:=`, with so many indices.
pub fn target(scope: &Scope<'_>, name: &Name, given: usize, at: At, report: &mut Report)
    ensures { report.new ≡ first_fault report.old (rules.target_by (scope_of scope.now) (letters name.now) ((scope_of scope.now).names (letters name.now)) given at) }
{
    match scope.names.find(name) {
        Some(Sort::Procedure(profile) | Sort::Subroutine(profile)) => {
            result(scope, name, profile, given, at, report);
        }
        _ => variable(scope, name, given, at, report),
    }
}

/// The kind of what is assigned to.
pub fn target_kind(sort: Option<&Sort>) -> Option<Kind>
    ensures { result ≡ rules.target_kind_by (option_map (λ s. sort_of s.now) sort.entry) }
{
    match sort {
        Some(Sort::Procedure(profile) | Sort::Subroutine(profile)) => profile.result,
        _ => variable_kind(sort),
    }
}

/// The kind of a target.
fn reference_target_kind(names: &Names<'_>, r: &Ref) -> Option<Kind>
    ensures { result ≡ rules.target_kind (names_of names.now) (view.reference r.now) }
{
    target_kind(names.find(&r.name))
}

/// The index of a reference, where it has one.
#[tactic(auto, unfolding(spl_found::specs::FoundExpressions::found_indices))]
pub fn index(scope: &Scope<'_>, r: &Ref, report: &mut Report)
    ensures { report.new ≡ found_index (scope_of scope.now) (view.reference r.now) report.old }
{
    if let Some(index) = &r.index {
        single_value(scope, r.at, index, report);
    }
}

/// The name and the index of a target.
#[tactic(auto, unfolding(spl_found::specs::FoundExpressions::found_indices))]
pub fn reference_target(scope: &Scope<'_>, r: &Ref, report: &mut Report)
    ensures { report.new ≡ found.found_reference (scope_of scope.now) (view.reference r.now) report.old }
{
    match &r.index {
        None => target(scope, &r.name, 0, r.at, report),
        Some(index) => {
            target(scope, &r.name, 1, r.at, report);
            single_value(scope, r.at, index, report);
        }
    }
}

/// The target of `@`. 1: it is not declared. 3: it is no pointer. 27: it is global, in a split procedure.
pub fn pointer(scope: &Scope<'_>, name: &Name, at: At, report: &mut Report)
    ensures { report.new ≡ first_fault report.old (rules.pointer_faults (scope_of scope.now) (letters name.now) ((scope_of scope.now).names (letters name.now)) at) }
{
    match scope.names.find(name) {
        None => report.note(1, at),
        Some(Sort::Pointer(..)) => split_use(scope, name, at, report),
        Some(Sort::Unknown) => {}
        Some(_) => report.note(3, at),
    }
}

/// A value for what has a kind, where it has one. 6: it does not fit.
fn fit(kind: Option<Kind>, value: Operand, at: At, report: &mut Report)
    ensures { report.new ≡ first_fault report.old (rules.fit_faults kind (operand_of value) at) }
{
    if let Some(kind) = kind {
        report.unless(fits(kind, value), 6, at);
    }
}

/// Whether it is a kind of one word that is not BYTE, or none.
fn is_single(kind: Option<Kind>) -> bool
    ensures { result ≡ rules.is_single kind }
{
    !matches!(kind, Some(Kind::Byte | Kind::Double))
}

/// The kind of a bit field: a single word.
fn field_kind(kind: Option<Kind>) -> Option<Kind>
    ensures { result ≡ rules.field_kind kind }
{
    match kind {
        None => None,
        Some(_) => Some(Kind::Logical),
    }
}

/// An assignment of a value. 5: it is one to a bit field of a BYTE or a DOUBLE. 6: the value does not fit.
pub fn assign(scope: &Scope<'_>, to: &Target, e: &Expr, at: At, report: &mut Report)
    ensures { report.new ≡ found.found_assign (scope_of scope.now) (view.target_tree to.now) (view.expression e.now) at report.old }
{
    match to {
        Target::Plain(r) => {
            reference_target(scope, r, report);
            let value = expression(scope, at, e, report);
            fit(reference_target_kind(&scope.names, r), value, at, report);
        }
        Target::Field { of, start, length } => {
            reference_target(scope, of, report);
            let kind = reference_target_kind(&scope.names, of);
            report.unless(is_single(kind), 5, at);
            field(&scope.names, start, length, at, report);
            let value = expression(scope, at, e, report);
            fit(field_kind(kind), value, at, report);
        }
        Target::Address(name, place) => {
            pointer(scope, name, *place, report);
            let value = expression(scope, at, e, report);
            fit(Some(Kind::Logical), value, at, report);
        }
    }
}

/// The variable of a FOR.
///
/// 1: it is not declared. 23: it is no simple INTEGER variable or parameter. 27: it is global, in a split procedure.
pub fn counter(scope: &Scope<'_>, name: &Name, at: At, report: &mut Report)
    ensures { report.new ≡ first_fault report.old (rules.counter_by (scope_of scope.now) (letters name.now) ((scope_of scope.now).names (letters name.now)) at) }
{
    match scope.names.find(name) {
        None => report.note(1, at),
        Some(Sort::Simple(Kind::Integer, _)) => split_use(scope, name, at, report),
        Some(Sort::Value(Kind::Integer) | Sort::ByReference(Kind::Integer) | Sort::Unknown) => {}
        Some(_) => report.note(23, at),
    }
}
