//! Labels: those of the lists around a statement, and those that stand in one body.
ghost use Rattle.std.specs.Prelude.{◌≡◌, map, OnOk, IfOk, []};
ghost use Rattle.spl_tree.specs.Views as view;
ghost use Rattle.spl_tree.specs.Views.{letters};
ghost use Rattle.spl_tree.specs.StatementTrees.{statements};
ghost use Rattle.spl_sorts.specs.spl_meaning.Faults.{first_fault};
ghost use Rattle.spl_sorts.specs.spl_meaning.StatementRules as rules;
ghost use Rattle.spl_sorts.specs.Tables.{table_of};
ghost use Rattle.spl_flow.specs.Labels.{shown, with_labels, seen, seen_all};

use spl_sorts::{Report, Sort, Table};
use spl_tree::{Name, Stmt};
use std::alloc::{AllocError, Global};

/// Whether a name is a label of one of some lists.
pub fn is_label(labels: &[Table], name: &Name) -> bool
    ensures { result ≡ shown labels.now (letters name.now) }
{
    labels.iter().any(|table| table.has(name))
}

/// Declares the labels before a statement.
fn own_labels(table: &mut Table, statement: &Stmt) -> Result<(), AllocError>
    ensures { OnOk result (table_of table.new ≡ with_labels (table_of table.old) (rules.own_labels (view.statement statement.now))) }
{
    match statement {
        Stmt::Labelled { name, body, .. } => {
            table.declare(name, Sort::Label)?;
            own_labels(table, body)
        }
        _ => Ok(()),
    }
}

/// A table of the labels that a list bears.
#[tactic(auto, using(crate::proofs::LabelLemmas::label_steps))]
pub fn list_labels(alloc: Global, list: &[Stmt]) -> Result<Table, AllocError>
    ensures { IfOk result (λ t. table_of t ≡ with_labels [] (rules.list_labels (statements (map view.statement list.now)))) }
{
    let mut table = Table::new(alloc);
    for statement in list {
        own_labels(&mut table, statement)?;
    }
    Ok(table)
}

/// The labels of a statement, behind those of a body so far. 20: one stands twice.
#[cycle(labels)]
#[tactic(auto, using(crate::proofs::LabelLemmas::seen_steps))]
fn labels_in(table: &mut Table, statement: &Stmt, report: &mut Report) -> Result<(), AllocError>
    ensures { OnOk result (seen table.new report.new ≡ seen_all (seen table.old report.old) (rules.all_labels (view.statement statement.now))) }
{
    match statement {
        Stmt::Labelled { name, at, body } => {
            report.unless(!table.has(name), 20, *at);
            table.declare(name, Sort::Label)?;
            labels_in(table, body, report)
        }
        Stmt::Block(list) | Stmt::Case { arms: list, .. } => labels_among(table, list, report),
        Stmt::If { yes, no, .. } => {
            labels_in(table, yes, report)?;
            match no {
                Some(no) => labels_in(table, no, report),
                None => Ok(()),
            }
        }
        Stmt::While { body, .. } | Stmt::Until { body, .. } | Stmt::For { body, .. } => {
            labels_in(table, body, report)
        }
        Stmt::Empty
        | Stmt::Goto(..)
        | Stmt::Return(_)
        | Stmt::Assign { .. }
        | Stmt::AssignEffect { .. }
        | Stmt::Do(..)
        | Stmt::Call { .. } => Ok(()),
    }
}

/// The labels of statements in order.
#[cycle(labels)]
#[tactic(auto, using(crate::proofs::LabelLemmas::seen_steps))]
fn labels_among(table: &mut Table, list: &[Stmt], report: &mut Report) -> Result<(), AllocError>
    ensures { OnOk result (seen table.new report.new ≡ seen_all (seen table.old report.old) (rules.all_labels_of (statements (map view.statement list.now)))) }
{
    for statement in list {
        labels_in(table, statement, report)?;
    }
    Ok(())
}

/// The labels of a body that is a list. 20: one stands twice.
pub fn doubled_among(alloc: Global, list: &[Stmt], report: &mut Report) -> Result<(), AllocError>
    ensures { OnOk result (report.new ≡ first_fault report.old (rules.label_faults (statements (map view.statement list.now)))) }
{
    let mut table = Table::new(alloc);
    labels_among(&mut table, list, report)?;
    Ok(())
}

/// The labels of a body that is one statement. 20: one stands twice.
pub fn doubled_in(alloc: Global, statement: &Stmt, report: &mut Report) -> Result<(), AllocError>
    ensures { OnOk result (report.new ≡ first_fault report.old (rules.repeated 20 [] (rules.all_labels (view.statement statement.now)))) }
{
    let mut table = Table::new(alloc);
    labels_in(&mut table, statement, report)?;
    Ok(())
}
