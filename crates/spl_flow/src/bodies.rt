//! Bodies: those of units and procedures, and those of subroutines.
ghost use Rattle.std.specs.Prelude.{◌≡◌, map, false, OnOk, []};
ghost use Rattle.spl_tree.specs.Views as view;
ghost use Rattle.spl_tree.specs.StatementTrees.{statements};
ghost use Rattle.spl_sorts.specs.spl_meaning.Faults.{first_fault};
ghost use Rattle.spl_sorts.specs.spl_meaning.StatementRules as rules;
ghost use Rattle.spl_found.specs.FoundStatements as found;
ghost use Rattle.spl_uses.specs.Scopes.{scope_of};

use crate::labels::{doubled_among, doubled_in};
use crate::statements::{inside, statement};
use spl_sorts::Report;
use spl_tree::Stmt;
use spl_uses::Scope;
use std::alloc::{AllocError, Global};

/// The statements of a unit or a procedure. Want of memory alone is an error.
#[tactic(auto, using(crate::proofs::LabelLemmas::outermost))]
pub fn body(
    alloc: Global,
    scope: &Scope<'_>,
    list: &[Stmt],
    report: &mut Report,
) -> Result<(), AllocError>
    ensures { OnOk result (report.new ≡ found.found_body (scope_of scope.now) (statements (map view.statement list.now)) report.old) }
{
    let mut labels = Vec::new(alloc);
    inside(alloc, scope, &mut labels, list, report)?;
    doubled_among(alloc, list, report)
}

/// The statement of a subroutine. Want of memory alone is an error.
#[tactic(auto, using(crate::proofs::LabelLemmas::outermost))]
pub fn subroutine_body(
    alloc: Global,
    scope: &Scope<'_>,
    s: &Stmt,
    report: &mut Report,
) -> Result<(), AllocError>
    ensures { OnOk result (report.new ≡ first_fault (found.found_statement (scope_of scope.now) (rules.has_name []) false (view.statement s.now) report.old) (rules.repeated 20 [] (rules.all_labels (view.statement s.now)))) }
{
    let mut labels = Vec::new(alloc);
    statement(alloc, scope, &mut labels, false, s, report)?;
    doubled_in(alloc, s, report)
}
