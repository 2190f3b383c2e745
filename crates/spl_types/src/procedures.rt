//! Procedures: their headings, their own lists, and their statements.
ghost use Rattle.std.specs.Prelude.{◌≡◌, map, OnOk, IfOk};
ghost use Rattle.spl_tree.specs.DeclarationTrees.{declarations};
ghost use Rattle.spl_tree.specs.StatementTrees.{statements};
ghost use Rattle.spl_tree.specs.Spells.{declaration, heading_tree};
ghost use Rattle.spl_tree.specs.Views as view;
ghost use Rattle.spl_sound.specs.spl_meaning.Names as n;
ghost use Rattle.spl_sound.specs.spl_meaning.Names.{find};
ghost use Rattle.spl_sorts.specs.Tables.{table_of};
ghost use Rattle.spl_uses.specs.spl_found.FoundStatements.{found_body};
ghost use Rattle.spl_uses.specs.spl_found.FoundDeclarations as found;
ghost use Rattle.spl_uses.specs.spl_found.FoundDeclarations.{found_subroutines, found_procedure, procedure_names, around_procedure};
ghost use Rattle.spl_types.specs.Insides.{inside_of};
ghost use Rattle.spl_types.specs.Procedures.{procedure_inside};

use crate::insides::{Inside, subroutines};
use spl_flow::body;
use spl_lists::{Around, declarations, heading, parameters};
use spl_sorts::{Report, Table};
use spl_tree::{Decl, Heading, Stmt};
use std::alloc::{AllocError, Global};

/// The subroutines of a body's list, and its statements.
pub fn inner_rules<'t>(
    alloc: Global,
    inside: Inside<'t>,
    items: &'t [Decl],
    list: &[Stmt],
    report: &mut Report,
) -> Result<(), AllocError>
    ensures { OnOk result (report.new ≡ found_body (inside_of inside.entry) (statements (map view.statement list.now)) (found_subroutines (inside_of inside.entry) (declarations (map declaration items.now)) report.old)) }
{
    subroutines(alloc, inside, items, report)?;
    body(alloc, &inside.scope(), list, report)?;
    Ok(())
}

/// The heading of a procedure: its parameters, as its first names.
fn first_names(alloc: Global, head: &Heading, report: &mut Report) -> Result<Table, AllocError>
    ensures first { OnOk result (report.new ≡ found.found_heading (heading_tree head.now).split (heading_tree head.now) report.old) }
    ensures names { IfOk result (λ own. find (table_of own) ≡ find (n.parameters (n.formals_of (heading_tree head.now)))) }
{
    let formals = heading(alloc, head.split, head, report)?;
    let own = parameters(alloc, &formals)?;
    Ok(own)
}

/// The heading and the list of a procedure: its own names.
fn own_names(
    alloc: Global,
    globals: &Table,
    head: &Heading,
    items: &[Decl],
    report: &mut Report,
) -> Result<Table, AllocError>
    ensures first { OnOk result (report.new ≡ found.found_locals (around_procedure (find (table_of globals.now)) (heading_tree head.now)) (find (n.parameters (n.formals_of (heading_tree head.now)))) (declarations (map declaration items.now)) (found.found_heading (heading_tree head.now).split (heading_tree head.now) report.old)) }
    ensures names { IfOk result (λ own. find (table_of own) ≡ procedure_names (find (table_of globals.now)) (heading_tree head.now) (declarations (map declaration items.now))) }
{
    let mut own = first_names(alloc, head, report)?;
    let around = Around {
        names: globals,
        in_procedure: true,
        split: head.split,
        subprogram: false,
    };
    declarations(alloc, &around, &mut own, items, report)?;
    Ok(own)
}

/// What a procedure's body may use.
fn inside<'t>(own: &'t Table, globals: &'t Table, head: &'t Heading) -> Inside<'t>
    ensures { inside_of result ≡ procedure_inside (find (table_of own.now)) (find (table_of globals.now)) (heading_tree head.now) }
{
    let procedure = if own.has(&head.name) {
        None
    } else {
        Some(&head.name)
    };
    Inside {
        own,
        outer: globals,
        procedure,
        split: head.split,
        is_main: false,
    }
}

/// A procedure's own rules, where its unit's list up to it is `globals`.
pub fn procedure<'t>(
    alloc: Global,
    globals: &'t Table,
    head: &'t Heading,
    items: &'t [Decl],
    list: &[Stmt],
    report: &mut Report,
) -> Result<(), AllocError>
    ensures { OnOk result (report.new ≡ found_procedure (find (table_of globals.now)) (heading_tree head.now) (declarations (map declaration items.now)) (map view.statement list.now) report.old) }
{
    let own = own_names(alloc, globals, head, items, report)?;
    let inside = inside(&own, globals, head);
    inner_rules(alloc, inside, items, list, report)?;
    Ok(())
}
