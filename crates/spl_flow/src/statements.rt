//! Statements and lists of them.
ghost use Rattle.std.specs.Prelude.{◌≡◌, map, false, OnOk};
ghost use Rattle.spl_tree.specs.Views as view;
ghost use Rattle.spl_tree.specs.Views.{letters};
ghost use Rattle.spl_tree.specs.Trees.{trees};
ghost use Rattle.spl_tree.specs.StatementTrees.{statements};
ghost use Rattle.spl_found.specs.FoundStatements as found;
ghost use Rattle.spl_uses.specs.Scopes.{scope_of};
ghost use Rattle.spl_flow.specs.Heads as heads;
ghost use Rattle.spl_flow.specs.Labels.{shown};

use crate::codes::sets_code;
use crate::effects::{assign_effect, effect};
use crate::labels::{is_label, list_labels};
use crate::targets::{assign, counter};
use crate::values::{call_statement, condition, single_value, step, tested};
use spl_sorts::{Report, Table};
use spl_tree::{At, Expr, Name, Stmt};
use spl_uses::Scope;
use std::alloc::{AllocError, Global};

/// What stands before the body of a FOR, which has this place.
fn for_head(
    scope: &Scope<'_>,
    name: &Name,
    values: (&Expr, &Option<Expr>, &Expr),
    at: At,
    report: &mut Report,
)
    ensures { report.new ≡ heads.found_for (scope_of scope.now) (letters name.now) (view.expression values.entry.0.now) (trees (view.optional values.entry.1.now)) (view.expression values.entry.2.now) at report.old }
{
    let (first, by, last) = values;
    counter(scope, name, at, report);
    single_value(scope, at, first, report);
    step(scope, at, by, report);
    single_value(scope, at, last, report);
}

/// A statement in which no other stands. 21: it goes to no label around it. 25: RETURN in the main body.
#[tactic(auto, unfolding(spl_found::specs::FoundStatements::found_statement))]
fn simple(scope: &Scope<'_>, labels: &[Table], statement: &Stmt, report: &mut Report)
    ensures { report.new ≡ heads.found_simple (scope_of scope.now) (shown labels.now) (view.statement statement.now) report.old }
{
    match statement {
        Stmt::Goto(name, at) => report.unless(is_label(labels, name), 21, *at),
        Stmt::Return(at) => report.unless(!scope.is_main, 25, *at),
        Stmt::Assign { to, value, at } => assign(scope, to, value, *at, report),
        Stmt::AssignEffect { to, effect, at } => assign_effect(scope, to, effect, *at, report),
        Stmt::Do(what, at) => effect(scope, what, *at, report),
        Stmt::Call { name, args, at } => call_statement(scope, name, args, *at, report),
        _ => {}
    }
}

/// A statement, with the labels of the lists around it, innermost last; `after` says whether it may test the condition code.
#[cycle(statements)]
#[tactic(auto, using(crate::proofs::ViewLemmas::views), unfolding(spl_found::specs::FoundStatements::found_statement, spl_found::specs::FoundStatements::found_arms))]
pub fn statement(
    alloc: Global,
    scope: &Scope<'_>,
    labels: &mut Vec<Table>,
    after: bool,
    s: &Stmt,
    report: &mut Report,
) -> Result<(), AllocError>
    ensures first { OnOk result (report.new ≡ found.found_statement (scope_of scope.now) (shown labels.old.items) after (view.statement s.now) report.old) }
    ensures kept { OnOk result (labels.new.items ≡ labels.old.items) }
{
    match s {
        Stmt::Labelled { body, .. } => statement(alloc, scope, labels, false, body, report),
        Stmt::Block(list) => inside(alloc, scope, labels, list, report),
        Stmt::If { test, yes, no, at } => {
            tested(scope, after, test, *at, report);
            statement(alloc, scope, labels, false, yes, report)?;
            match no {
                Some(no) => statement(alloc, scope, labels, false, no, report),
                None => Ok(()),
            }
        }
        Stmt::While { test, body, at } => {
            condition(scope, *at, test, report);
            statement(alloc, scope, labels, false, body, report)
        }
        Stmt::Until { body, test, at } => {
            statement(alloc, scope, labels, false, body, report)?;
            condition(scope, *at, test, report);
            Ok(())
        }
        Stmt::For {
            name,
            first,
            step,
            last,
            body,
            at,
        } => {
            for_head(scope, name, (first, step, last), *at, report);
            statement(alloc, scope, labels, false, body, report)
        }
        Stmt::Case { of, arms, at } => {
            single_value(scope, *at, of, report);
            cases(alloc, scope, labels, arms, report)
        }
        Stmt::Empty
        | Stmt::Goto(..)
        | Stmt::Return(_)
        | Stmt::Assign { .. }
        | Stmt::AssignEffect { .. }
        | Stmt::Do(..)
        | Stmt::Call { .. } => {
            simple(scope, labels, s, report);
            Ok(())
        }
    }
}

/// The statements of a list, one behind the other.
#[cycle(statements)]
#[tactic(auto, using(crate::proofs::Walks::walks))]
fn in_order(
    alloc: Global,
    scope: &Scope<'_>,
    labels: &mut Vec<Table>,
    list: &[Stmt],
    report: &mut Report,
) -> Result<(), AllocError>
    ensures first { OnOk result (report.new ≡ found.found_statements (scope_of scope.now) (shown labels.old.items) false (statements (map view.statement list.now)) report.old) }
    ensures kept { OnOk result (labels.new.items ≡ labels.old.items) }
{
    let mut after = false;
    for one in list {
        statement(alloc, scope, labels, after, one, report)?;
        after = sets_code(&scope.names, one);
    }
    Ok(())
}

/// Statements none of which is directly behind another.
#[cycle(statements)]
#[tactic(auto, using(crate::proofs::Walks::walks))]
fn apart(
    alloc: Global,
    scope: &Scope<'_>,
    labels: &mut Vec<Table>,
    list: &[Stmt],
    report: &mut Report,
) -> Result<(), AllocError>
    ensures first { OnOk result (report.new ≡ found.found_arms (scope_of scope.now) (shown labels.old.items) (statements (map view.statement list.now)) report.old) }
    ensures kept { OnOk result (labels.new.items ≡ labels.old.items) }
{
    for one in list {
        statement(alloc, scope, labels, false, one, report)?;
    }
    Ok(())
}

/// A list with its labels beside those around it.
#[cycle(statements)]
#[tactic(auto, using(crate::proofs::LabelLemmas::insides))]
pub fn inside(
    alloc: Global,
    scope: &Scope<'_>,
    labels: &mut Vec<Table>,
    list: &[Stmt],
    report: &mut Report,
) -> Result<(), AllocError>
    ensures first { OnOk result (report.new ≡ found.found_statements (scope_of scope.now) (found.with_list (shown labels.old.items) (statements (map view.statement list.now))) false (statements (map view.statement list.now)) report.old) }
    ensures kept { OnOk result (labels.new.items ≡ labels.old.items) }
{
    labels.push(list_labels(alloc, list)?)?;
    in_order(alloc, scope, labels, list, report)?;
    let _ = labels.pop();
    Ok(())
}

/// The statements of a CASE with their labels beside those around it.
#[cycle(statements)]
#[tactic(auto, using(crate::proofs::LabelLemmas::insides))]
fn cases(
    alloc: Global,
    scope: &Scope<'_>,
    labels: &mut Vec<Table>,
    list: &[Stmt],
    report: &mut Report,
) -> Result<(), AllocError>
    ensures first { OnOk result (report.new ≡ found.found_arms (scope_of scope.now) (found.with_list (shown labels.old.items) (statements (map view.statement list.now))) (statements (map view.statement list.now)) report.old) }
    ensures kept { OnOk result (labels.new.items ≡ labels.old.items) }
{
    labels.push(list_labels(alloc, list)?)?;
    apart(alloc, scope, labels, list, report)?;
    let _ = labels.pop();
    Ok(())
}
