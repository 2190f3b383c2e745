//! Expressions with what their place wants of them.
ghost use Rattle.std.specs.Prelude.{◌≡◌, map, option_map};
ghost use Rattle.spl_tree.specs.Views as view;
ghost use Rattle.spl_tree.specs.Views.{letters};
ghost use Rattle.spl_tree.specs.Trees.{trees};
ghost use Rattle.spl_sorts.specs.spl_meaning.Faults.{first_fault};
ghost use Rattle.spl_sorts.specs.spl_meaning.Kinds as kinds;
ghost use Rattle.spl_sorts.specs.spl_meaning.StatementRules as rules;
ghost use Rattle.spl_found.specs.FoundStatements as found;
ghost use Rattle.spl_sorts.specs.Sorts.{sort_of};
ghost use Rattle.spl_uses.specs.Scopes.{scope_of};

use spl_sorts::{Report, Sort, callable};
use spl_tree::{At, Expr, Name, Test};
use spl_uses::{Scope, arguments, bits, call, expression, single};

/// An expression of one word, in a part with this place. 14: it is a wide constant. 23: it is a DOUBLE.
pub fn single_value(scope: &Scope<'_>, at: At, e: &Expr, report: &mut Report)
    ensures { report.new ≡ found.found_single (scope_of scope.now) at (view.expression e.now) report.old }
{
    let value = expression(scope, at, e, report);
    single(&scope.names, at, e, value, report);
}

/// The step of a loop, where there is one.
pub fn step(scope: &Scope<'_>, at: At, e: &Option<Expr>, report: &mut Report)
    ensures { report.new ≡ found.found_step (scope_of scope.now) at (trees (view.optional e.now)) report.old }
{
    if let Some(e) = e {
        single_value(scope, at, e, report);
    }
}

/// A condition, in a part with this place. 7: it is INTEGER or DOUBLE.
pub fn condition(scope: &Scope<'_>, at: At, e: &Expr, report: &mut Report)
    ensures { report.new ≡ found.found_condition (scope_of scope.now) at (view.expression e.now) report.old }
{
    let value = expression(scope, at, e, report);
    bits(&scope.names, at, e, value, report);
}

/// What an IF tests; `after` says that the statement before it sets the condition code. 22: the code is tested elsewhere.
pub fn tested(scope: &Scope<'_>, after: bool, test: &Test, at: At, report: &mut Report)
    ensures { report.new ≡ found.found_test (scope_of scope.now) after (view.test_tree test.now) at report.old }
{
    match test {
        Test::Of(e) => condition(scope, at, e, report),
        Test::Code(_) => report.unless(after, 22, at),
    }
}

/// What is called by a statement, with so many arguments.
///
/// 1: it is not declared. 3: it is no procedure, subroutine or intrinsic. 8: the number of arguments is wrong. 27: it is no
/// subroutine, in a split procedure.
fn called(scope: &Scope<'_>, sort: Option<&Sort>, given: usize, at: At, report: &mut Report)
    ensures { report.new ≡ first_fault report.old (rules.called_by (scope_of scope.now) (kinds.callable (option_map (λ s. sort_of s.now) sort.entry)) (option_map (λ s. sort_of s.now) sort.entry) given at) }
{
    match callable(sort) {
        Some(profile) => call(scope, sort, profile, given, false, at, report),
        None => match sort {
            None => report.note(1, at),
            Some(Sort::Unknown) => {}
            Some(_) => report.note(3, at),
        },
    }
}

/// A call as a statement.
#[tactic(auto, using(spl_uses::proofs::Counts::counts))]
pub fn call_statement(scope: &Scope<'_>, name: &Name, args: &[Expr], at: At, report: &mut Report)
    ensures { report.new ≡ found.found_call (scope_of scope.now) (letters name.now) (trees (map view.expression args.now)) at report.old }
{
    let sort = scope.names.find(name);
    called(scope, sort, args.len(), at, report);
    match callable(sort) {
        Some(profile) => arguments(scope, &profile.formals, args, at, report),
        None => arguments(scope, &[], args, at, report),
    }
}
