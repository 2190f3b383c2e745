//! The statements of subprograms.
ghost use Rattle.std.specs.Prelude.{◌≡◌, map};
ghost use Rattle.spl_tree.specs.Views as view;
ghost use Rattle.spl_sound.specs.spl_meaning.DeclarationRules as rules;
ghost use Rattle.spl_uses.specs.spl_found.FoundDeclarations.{found_silent};

use spl_sorts::Report;
use spl_tree::{At, Stmt};

/// The place of a statement, or that of its unit where it has none.
fn place(unit: At, statement: &Stmt) -> At
    ensures { result ≡ rules.statement_place unit (view.statement statement.now) }
{
    match statement {
        Stmt::Empty | Stmt::Block(_) => unit,
        Stmt::Labelled { at, .. }
        | Stmt::If { at, .. }
        | Stmt::While { at, .. }
        | Stmt::Until { at, .. }
        | Stmt::For { at, .. }
        | Stmt::Case { at, .. }
        | Stmt::Goto(_, at)
        | Stmt::Return(at)
        | Stmt::Assign { at, .. }
        | Stmt::AssignEffect { at, .. }
        | Stmt::Do(_, at)
        | Stmt::Call { at, .. } => *at,
    }
}

/// Whether a statement is empty.
fn is_empty(statement: &Stmt) -> bool
    ensures { result ≡ rules.is_empty_statement (view.statement statement.now) }
{
    matches!(statement, Stmt::Empty)
}

/// The statements of a subprogram. 28: one that is not empty.
#[tactic(auto, using(crate::proofs::SilentLaws::silent_steps))]
pub fn silent(unit: At, statements: &[Stmt], report: &mut Report)
    ensures { report.new ≡ found_silent unit (map view.statement statements.now) report.old }
{
    for statement in statements {
        report.unless(is_empty(statement), 28, place(unit, statement));
    }
}
