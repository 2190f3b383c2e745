//! Units: their lists, their main bodies, and all that they break.
ghost use Rattle.std.specs.Prelude.{◌≡◌, [], map, OnOk, IfOk};
ghost use Rattle.spl_tree.specs.DeclarationTrees.{declarations};
ghost use Rattle.spl_tree.specs.StatementTrees.{statements};
ghost use Rattle.spl_tree.specs.Spells.{declaration};
ghost use Rattle.spl_tree.specs.Views as view;
ghost use Rattle.spl_sound.specs.spl_meaning.Names.{find, nothing_declared};
ghost use Rattle.spl_sorts.specs.Tables.{table_of};
ghost use Rattle.spl_sound.specs.Spelled.{source_of};
ghost use Rattle.spl_uses.specs.spl_found.FoundStatements.{found_body};
ghost use Rattle.spl_uses.specs.spl_found.FoundDeclarations.{found_subroutines};
ghost use Rattle.spl_uses.specs.spl_found.FoundUnits.{none_waits, walked_list, found_forwards, walked_unit};
ghost use Rattle.spl_types.specs.Insides.{inside_of};
ghost use Rattle.spl_types.specs.OtherUnits.{agrees_of};
ghost use Rattle.spl_types.specs.UnitParts.{unit_around, list_names, main_with};

use crate::insides::Inside;
use crate::others::Others;
use crate::procedures::inner_rules;
use crate::silence::silent;
use crate::unit_lists::globals;
use crate::waiting::Waiting;
use crate::wanted::forwards;
use spl_lists::Around;
use spl_sorts::{Report, Table};
use spl_tree::{Decl, SplUnit, Stmt};
use std::alloc::{AllocError, Global};

/// The list of a unit, but for the rules of its subroutines' own: its names.
fn unit_list(
    alloc: Global,
    others: &Others<'_>,
    subprogram: bool,
    items: &[Decl],
    report: &mut Report,
) -> Result<Table, AllocError>
    ensures first { OnOk result (report.new ≡ found_forwards (declarations (map declaration items.now)) (walked_list (unit_around subprogram) (agrees_of others.now) none_waits nothing_declared (declarations (map declaration items.now)) report.old)) }
    ensures names { IfOk result (λ here. find (table_of here) ≡ list_names (declarations (map declaration items.now))) }
{
    let none = Table::new(alloc);
    let around = Around {
        names: &none,
        in_procedure: false,
        split: false,
        subprogram,
    };
    let mut here = Table::new(alloc);
    let mut waiting = Waiting::new(alloc);
    globals(
        alloc,
        &around,
        others,
        &mut here,
        &mut waiting,
        items,
        report,
    )?;
    forwards(alloc, items, report)?;
    Ok(here)
}

/// What a main body may use.
fn main_inside<'t>(own: &'t Table, none: &'t Table) -> Inside<'t>
    requires { table_of none.now ≡ [] }
    ensures { inside_of result ≡ main_with (find (table_of own.now)) }
{
    Inside {
        own,
        outer: none,
        procedure: None,
        split: false,
        is_main: true,
    }
}

/// The subroutines of a unit's list, and its main body.
fn main_body<'t>(
    alloc: Global,
    here: &'t Table,
    items: &'t [Decl],
    list: &[Stmt],
    report: &mut Report,
) -> Result<(), AllocError>
    ensures { OnOk result (report.new ≡ found_body (main_with (find (table_of here.now))) (statements (map view.statement list.now)) (found_subroutines (main_with (find (table_of here.now))) (declarations (map declaration items.now)) report.old)) }
{
    let none = Table::new(alloc);
    let inside = main_inside(here, &none);
    inner_rules(alloc, inside, items, list, report)?;
    Ok(())
}

/// A unit.
pub fn unit_rules(
    alloc: Global,
    others: &Others<'_>,
    unit: &SplUnit,
    report: &mut Report,
) -> Result<(), AllocError>
    ensures { OnOk result (report.new ≡ walked_unit (agrees_of others.now) (source_of unit.now) report.old) }
{
    let here = unit_list(alloc, others, unit.subprogram, &unit.items, report)?;
    main_body(alloc, &here, &unit.items, &unit.statements, report)?;
    if unit.subprogram {
        silent(unit.at, &unit.statements, report);
    }
    Ok(())
}
