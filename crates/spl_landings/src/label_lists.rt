//! The labels of a body, in order of text.
ghost use Rattle.std.specs.Prelude.{◌≡◌, ◌++◌, OnOk, IfOk, map};
ghost use Rattle.spl_tree.specs.Views as view;
ghost use Rattle.spl_tree.specs.StatementTrees as trees;
ghost use Rattle.spl_module_code.specs.LabelsOfBodies.{labels_in, labels_among};
ghost use Rattle.spl_landings.specs.Labels.{label_of};

use spl_spots::plus;
use spl_tree::{Name, Stmt};
use std::alloc::{AllocError, Global};

/// A label, and how many words wait in the list that bears it.
#[derive(Debug, PartialEq, Eq, Drop)]
pub struct Label {
    pub name: Name,
    pub pending: u64,
}

/// Takes in the labels in a statement, where so many words wait.
#[cycle(walk)]
fn inside(statement: &Stmt, pending: u64, labels: &mut Vec<Label>) -> Result<(), AllocError>
    ensures { OnOk result (map label_of labels.new.items ≡ map label_of labels.old.items ++ labels_in (view.statement statement.now) pending) }
{
    match statement {
        Stmt::Labelled { name, body, .. } => {
            labels.push(Label {
                name: name.copy(),
                pending,
            })?;
            inside(body, pending, labels)
        }
        Stmt::Block(list) | Stmt::Case { arms: list, .. } => among(list, pending, labels),
        Stmt::If { yes, no, .. } => {
            inside(yes, pending, labels)?;
            match no {
                Some(no) => inside(no, pending, labels),
                None => Ok(()),
            }
        }
        Stmt::While { body, .. } | Stmt::Until { body, .. } => inside(body, pending, labels),
        Stmt::For { body, .. } => inside(body, plus(pending, 3)?, labels),
        Stmt::Empty
        | Stmt::Goto(..)
        | Stmt::Return(_)
        | Stmt::Assign { .. }
        | Stmt::AssignEffect { .. }
        | Stmt::Do(..)
        | Stmt::Call { .. } => Ok(()),
    }
}

/// Takes in the labels in the statements of a list.
#[cycle(walk)]
#[tactic(auto, using(crate::proofs::LabelWalks::walks))]
fn among(statements: &[Stmt], pending: u64, labels: &mut Vec<Label>) -> Result<(), AllocError>
    ensures { OnOk result (map label_of labels.new.items ≡ map label_of labels.old.items ++ labels_among (trees.statements (map view.statement statements.now)) pending) }
{
    for one in statements {
        inside(one, pending, labels)?;
    }
    Ok(())
}

/// The labels in the statements of a body, in order of text. Want of memory alone is an error.
pub fn labels(alloc: Global, statements: &[Stmt]) -> Result<Vec<Label>, AllocError>
    ensures { IfOk result (λ labels. map label_of labels.items ≡ labels_among (trees.statements (map view.statement statements.now)) 0) }
{
    let mut labels = Vec::new(alloc);
    among(statements, 0, &mut labels)?;
    Ok(labels)
}
