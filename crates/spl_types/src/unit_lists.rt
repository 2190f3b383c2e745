//! The list of a unit, declaration by declaration.
ghost use Rattle.std.specs.Prelude.{◌≡◌, map, OnOk};
ghost use Rattle.spl_tree.specs.DeclarationTrees.{declarations};
ghost use Rattle.spl_tree.specs.Spells.{declaration, heading_tree};
ghost use Rattle.spl_tree.specs.Views as view;
ghost use Rattle.spl_sound.specs.spl_meaning.Names as n;
ghost use Rattle.spl_sound.specs.spl_meaning.Names.{find, nothing_declared};
ghost use Rattle.spl_sound.specs.spl_meaning.Faults.{first_fault, unless};
ghost use Rattle.spl_sorts.specs.Tables.{table_of};
ghost use Rattle.spl_lists.specs.Arounds.{around_of};
ghost use Rattle.spl_uses.specs.spl_found.OwnNames.{with_name, behind_declaration, behind_declarations};
ghost use Rattle.spl_uses.specs.spl_found.FoundDeclarations as found;
ghost use Rattle.spl_uses.specs.spl_found.FoundUnits.{waits_with, waits_without, waits_behind, walked, walked_list};
ghost use Rattle.spl_types.specs.WaitingNames.{waits_of};
ghost use Rattle.spl_types.specs.OtherUnits.{agrees_of};

use crate::alike::same_profile;
use crate::others::Others;
use crate::procedures::procedure;
use crate::waiting::Waiting;
use spl_lists::{Around, again, declaration, heading, procedure_name, profile};
use spl_sorts::{Report, Table};
use spl_tree::{Decl, Heading, Stmt};
use std::alloc::{AllocError, Global};

/// The heading of a FORWARD or of an EXTERNAL. 2: its name is declared.
fn named_heading(
    alloc: Global,
    head: &Heading,
    here: &Table,
    report: &mut Report,
) -> Result<(), AllocError>
    ensures { OnOk result (report.new ≡ found.found_heading (heading_tree head.now).split (heading_tree head.now) (first_fault report.old (found.again (find (table_of here.now)) (heading_tree head.now).name (heading_tree head.now).at))) }
{
    again(here, &head.name, head.at, report);
    let _ = heading(alloc, head.split, head, report)?;
    Ok(())
}

/// A FORWARD.
fn wait(alloc: Global, head: &Heading, waiting: &mut Waiting) -> Result<(), AllocError>
    ensures { OnOk result (waits_of waiting.new ≡ waits_with (waits_of waiting.old) (heading_tree head.now).name (n.profile_of (heading_tree head.now))) }
{
    let profile = profile(alloc, head)?;
    waiting.put(&head.name, profile)?;
    Ok(())
}

/// An EXTERNAL. 19: a procedure of another unit differs.
fn elsewhere(
    alloc: Global,
    others: &Others<'_>,
    head: &Heading,
    report: &mut Report,
) -> Result<(), AllocError>
    ensures { OnOk result (report.new ≡ first_fault report.old (unless (agrees_of others.now (heading_tree head.now)) 19 (heading_tree head.now).at)) }
{
    let profile = profile(alloc, head)?;
    report.unless(others.agree(head, &profile), 19, head.at);
    Ok(())
}

/// A heading with a body. 19: it differs from its FORWARD. 2: none waits, and its name is declared.
fn body_heading(
    alloc: Global,
    head: &Heading,
    here: &Table,
    waiting: &Waiting,
    report: &mut Report,
) -> Result<(), AllocError>
    ensures { OnOk result (report.new ≡ first_fault report.old (found.procedure_by (find (table_of here.now)) (waits_of waiting.now (heading_tree head.now).name) (heading_tree head.now))) }
{
    let profile = profile(alloc, head)?;
    match waiting.find(&head.name) {
        Some(forward) => report.unless(same_profile(forward, &profile), 19, head.at),
        None => again(here, &head.name, head.at, report),
    }
    Ok(())
}

/// A procedure with its body.
fn with_body(
    alloc: Global,
    head: &Heading,
    items: &[Decl],
    list: &[Stmt],
    here: &mut Table,
    waiting: &mut Waiting,
    report: &mut Report,
) -> Result<(), AllocError>
    ensures first { OnOk result (report.new ≡ found.found_procedure (with_name (find (table_of here.old)) (heading_tree head.now).name (n.procedure (n.profile_of (heading_tree head.now)))) (heading_tree head.now) (declarations (map declaration items.now)) (map view.statement list.now) (first_fault report.old (found.procedure_by (find (table_of here.old)) (waits_of waiting.old (heading_tree head.now).name) (heading_tree head.now)))) }
    ensures names { OnOk result (find (table_of here.new) ≡ with_name (find (table_of here.old)) (heading_tree head.now).name (n.procedure (n.profile_of (heading_tree head.now)))) }
    ensures waits { OnOk result (waits_of waiting.new ≡ waits_without (waits_of waiting.old) (heading_tree head.now).name) }
{
    body_heading(alloc, head, here, waiting, report)?;
    waiting.take_off(&head.name)?;
    procedure_name(alloc, here, head)?;
    procedure(alloc, here, head, items, list, report)?;
    Ok(())
}

/// A declaration of a unit, but for the rules of a subroutine's own and for the body that a FORWARD wants.
fn global(
    alloc: Global,
    around: &Around<'_>,
    others: &Others<'_>,
    here: &mut Table,
    waiting: &mut Waiting,
    item: &Decl,
    report: &mut Report,
) -> Result<(), AllocError>
    requires { find (table_of around.now.names.now) ≡ nothing_declared }
    ensures first { OnOk result (report.new ≡ walked (around_of around.now) (agrees_of others.now) (waits_of waiting.old) (find (table_of here.old)) (declaration item.now) report.old) }
    ensures names { OnOk result (find (table_of here.new) ≡ behind_declaration nothing_declared (find (table_of here.old)) (declaration item.now)) }
    ensures waits { OnOk result (waits_of waiting.new ≡ waits_behind (waits_of waiting.old) (declaration item.now)) }
{
    match item {
        Decl::Forward(head) => {
            named_heading(alloc, head, here, report)?;
            wait(alloc, head, waiting)?;
            procedure_name(alloc, here, head)?;
        }
        Decl::External(head) => {
            named_heading(alloc, head, here, report)?;
            elsewhere(alloc, others, head, report)?;
            procedure_name(alloc, here, head)?;
        }
        Decl::Procedure(head, body) => with_body(
            alloc,
            head,
            &body.items,
            &body.statements,
            here,
            waiting,
            report,
        )?,
        Decl::Data { .. }
        | Decl::Equate(_)
        | Decl::Intrinsic(_)
        | Decl::Label(_)
        | Decl::Subroutine(..) => declaration(alloc, around, here, item, report)?,
    }
    Ok(())
}

/// The list of a unit, but for the rules of its subroutines' own and for the bodies that FORWARDs want.
#[tactic(auto, using(crate::proofs::GlobalWalks::global_steps))]
pub fn globals(
    alloc: Global,
    around: &Around<'_>,
    others: &Others<'_>,
    here: &mut Table,
    waiting: &mut Waiting,
    items: &[Decl],
    report: &mut Report,
) -> Result<(), AllocError>
    requires { find (table_of around.now.names.now) ≡ nothing_declared }
    ensures first { OnOk result (report.new ≡ walked_list (around_of around.now) (agrees_of others.now) (waits_of waiting.old) (find (table_of here.old)) (declarations (map declaration items.now)) report.old) }
    ensures names { OnOk result (find (table_of here.new) ≡ behind_declarations nothing_declared (find (table_of here.old)) (declarations (map declaration items.now))) }
{
    for item in items {
        global(alloc, around, others, here, waiting, item, report)?;
    }
    Ok(())
}
