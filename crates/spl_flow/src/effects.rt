//! MOVE and SCAN, and where their answers go.
ghost use Rattle.std.specs.Prelude.{◌≡◌};
ghost use Rattle.spl_tree.specs.Views as view;
ghost use Rattle.spl_sorts.specs.spl_meaning.ExpressionRules as expressions;
ghost use Rattle.spl_sorts.specs.spl_meaning.StatementRules as rules;
ghost use Rattle.spl_found.specs.FoundExpressions.{found_far};
ghost use Rattle.spl_found.specs.FoundStatements as found;
ghost use Rattle.spl_uses.specs.Scopes.{scope_of};

use crate::targets::{index, pointer, reference_target, target_kind};
use crate::values::single_value;
use spl_sorts::Report;
use spl_tree::{At, Effect, Kind, Ref, Source, Target};
use spl_uses::{Scope, far, field, has_elements, kind_at, reference};

/// Whether it is BYTE, or no kind.
fn may_be_byte(kind: Option<Kind>) -> bool
    ensures { result ≡ expressions.may_be_byte kind }
{
    matches!(kind, None | Some(Kind::Byte))
}

/// Whether it is INTEGER or LOGICAL, or no kind.
fn is_word_kind(kind: Option<Kind>) -> bool
    ensures { result ≡ rules.is_word_kind kind }
{
    matches!(kind, None | Some(Kind::Integer | Kind::Logical))
}

/// Whether elements of these kinds move to one another: both BYTE, or both INTEGER or LOGICAL.
fn moves(to: Option<Kind>, from: Option<Kind>) -> bool
    ensures { result ≡ rules.moves to from }
{
    may_be_byte(to) && may_be_byte(from) || is_word_kind(to) && is_word_kind(from)
}

/// Whether it is not DOUBLE.
fn may_be_moved_to(kind: Option<Kind>) -> bool
    ensures { result ≡ rules.may_be_moved_to kind }
{
    !matches!(kind, Some(Kind::Double))
}

/// A reference of a MOVE or a SCAN. 27: in a split procedure it is none of a pointer.
fn moved(scope: &Scope<'_>, r: &Ref, report: &mut Report)
    ensures { report.new ≡ found_far (scope_of scope.now) (view.reference r.now) report.old }
{
    reference(scope, r, report);
    far(scope, r, report);
}

/// A MOVE or a SCAN. 24: operands do not match. 23: a count or a test word is a DOUBLE.
pub fn effect(scope: &Scope<'_>, effect: &Effect, at: At, report: &mut Report)
    ensures { report.new ≡ found.found_effect (scope_of scope.now) (view.effect_tree effect.now) at report.old }
{
    match effect {
        Effect::Move {
            to,
            from: Source::Counted(from, count),
        } => {
            moved(scope, to, report);
            moved(scope, from, report);
            let fits = moves(kind_at(&scope.names, to), kind_at(&scope.names, from));
            report.unless(fits, 24, at);
            single_value(scope, at, count, report);
        }
        Effect::Move {
            to,
            from: Source::Text(_),
        } => {
            moved(scope, to, report);
            report.unless(may_be_moved_to(kind_at(&scope.names, to)), 24, at);
        }
        Effect::Move {
            to,
            from: Source::While(from, _),
        } => {
            moved(scope, to, report);
            moved(scope, from, report);
            let fits = may_be_byte(kind_at(&scope.names, to))
                && may_be_byte(kind_at(&scope.names, from));
            report.unless(fits, 24, at);
        }
        Effect::Scan { from, test, .. } => {
            moved(scope, from, report);
            report.unless(may_be_byte(kind_at(&scope.names, from)), 24, at);
            single_value(scope, at, test, report);
        }
    }
}

/// Where the answer of a MOVE or a SCAN goes: to a simple variable of one word.
///
/// 3: it goes to an array, a pointer or an element. 6: it goes to a DOUBLE.
fn answer(scope: &Scope<'_>, r: &Ref, at: At, report: &mut Report)
    ensures { report.new ≡ found.found_answer (scope_of scope.now) (view.reference r.now) at report.old }
{
    let sort = scope.names.find(&r.name);
    if has_elements(sort) {
        report.note(3, r.at);
        index(scope, r, report);
    } else {
        reference_target(scope, r, report);
        report.unless(may_be_moved_to(target_kind(sort)), 6, at);
    }
}

/// An assignment of the answer of a MOVE or a SCAN. 3: it is one to a bit field or by `@`.
pub fn assign_effect(scope: &Scope<'_>, to: &Target, from: &Effect, at: At, report: &mut Report)
    ensures { report.new ≡ found.found_assign_effect (scope_of scope.now) (view.target_tree to.now) (view.effect_tree from.now) at report.old }
{
    match to {
        Target::Plain(r) => answer(scope, r, at, report),
        Target::Field { of, start, length } => {
            report.note(3, at);
            reference_target(scope, of, report);
            field(&scope.names, start, length, at, report);
        }
        Target::Address(name, place) => {
            report.note(3, at);
            pointer(scope, name, *place, report);
        }
    }
    effect(scope, from, at, report);
}
