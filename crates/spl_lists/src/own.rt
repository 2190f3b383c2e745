//! The names of a list of declarations: what stands around it, what is seen in it, and names declared one by one.
ghost use Rattle.std.specs.Prelude.{◌≡◌, OnOk, IfOk, map};
ghost use Rattle.spl_tree.specs.Views.{letters};
ghost use Rattle.spl_sorts.specs.spl_meaning.Names as n;
ghost use Rattle.spl_sorts.specs.spl_meaning.Names.{find};
ghost use Rattle.spl_sorts.specs.spl_meaning.Faults.{first_fault};
ghost use Rattle.spl_uses.specs.spl_found.OwnNames.{over, with_name};
ghost use Rattle.spl_uses.specs.spl_found.FoundDeclarations as found;
ghost use Rattle.spl_sorts.specs.Profiles.{formal_of};
ghost use Rattle.spl_sorts.specs.Sorts.{sort_of};
ghost use Rattle.spl_sorts.specs.Tables.{table_of, names_of};

use spl_sorts::{Formal, Names, Report, Sort, Table};
use spl_tree::{At, Name};
use std::alloc::{AllocError, Global};

/// What stands around a list of declarations.
#[derive(Clone, Copy, Debug)]
pub struct Around<'t> {
    /// The names outside.
    pub names: &'t Table,
    /// Whether the list is a procedure's.
    pub in_procedure: bool,
    /// Whether that procedure is split.
    pub split: bool,
    /// Whether the unit is a subprogram.
    pub subprogram: bool,
}

/// What is seen in a list: its own names hide those outside.
#[tactic(auto, using(crate::proofs::OwnLemmas::seen))]
pub fn seen<'t>(own: &'t Table, outer: &'t Table) -> Names<'t>
    ensures { names_of result ≡ over (find (table_of own.now)) (find (table_of outer.now)) }
{
    Names {
        inner: own,
        own: outer,
        outer,
    }
}

/// 2: a name is declared twice in one list.
pub fn again(own: &Table, name: &Name, at: At, report: &mut Report)
    ensures { report.new ≡ first_fault report.old (found.again (find (table_of own.now)) (letters name.now) at) }
{
    report.unless(!own.has(name), 2, at);
}

/// Declares a name, unless it is declared.
pub fn declare(own: &mut Table, name: &Name, sort: Sort) -> Result<(), AllocError>
    ensures { OnOk result (find (table_of own.new) ≡ with_name (find (table_of own.old)) (letters name.now) (sort_of sort)) }
{
    own.declare(name, sort)
}

/// What a parameter stands for in its body.
fn parameter_sort(formal: &Formal) -> Sort
    ensures { sort_of result ≡ n.sort_by formal.now.kind formal.now.array formal.now.value }
{
    match formal.kind {
        None => Sort::Unknown,
        Some(kind) => {
            if formal.array {
                Sort::ArrayParameter(kind)
            } else if formal.value {
                Sort::Value(kind)
            } else {
                Sort::ByReference(kind)
            }
        }
    }
}

/// Parameters as the first declarations of a body. Of a name that stands twice the first counts.
#[tactic(auto, using(crate::proofs::OwnLemmas::parameter_steps))]
pub fn parameters(alloc: Global, formals: &[Formal]) -> Result<Table, AllocError>
    ensures { IfOk result (λ own. find (table_of own) ≡ find (n.parameters (map formal_of formals.now))) }
{
    let mut own = Table::new(alloc);
    for formal in formals {
        declare(&mut own, &formal.name, parameter_sort(formal))?;
    }
    Ok(own)
}
