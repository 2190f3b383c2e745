//! Lists of declarations, in order. What a subroutine does is left to who has its whole list.
ghost use Rattle.std.specs.Prelude.{◌≡◌, OnOk, map};
ghost use Rattle.spl_tree.specs.DeclarationTrees as decl;
ghost use Rattle.spl_tree.specs.Spells as view;
ghost use Rattle.spl_tree.specs.Spells.{heading_tree};
ghost use Rattle.spl_sorts.specs.spl_meaning.Names as n;
ghost use Rattle.spl_sorts.specs.spl_meaning.Names.{find};
ghost use Rattle.spl_uses.specs.spl_found.OwnNames.{with_name, behind_declaration, behind_declarations};
ghost use Rattle.spl_uses.specs.spl_found.FoundDeclarations as found;
ghost use Rattle.spl_sorts.specs.Tables.{table_of};
ghost use Rattle.spl_lists.specs.Arounds.{around_of};

use crate::data::{Data, items};
use crate::listed_names::{intrinsics, labels};
use crate::named_sums::equates;
use crate::own::{Around, again, declare};
use spl_profiles::profile;
use spl_sorts::{Report, Sort, Table};
use spl_tree::{Decl, Heading};
use std::alloc::{AllocError, Global};

/// Declares the name of a procedure.
pub fn procedure_name(alloc: Global, here: &mut Table, heading: &Heading) -> Result<(), AllocError>
    ensures { OnOk result (find (table_of here.new) ≡ with_name (find (table_of here.old)) (heading_tree heading.now).name (n.procedure (n.profile_of (heading_tree heading.now)))) }
{
    let profile = profile(alloc, heading)?;
    declare(here, &heading.name, Sort::Procedure(profile))?;
    Ok(())
}

/// Declares the name of a subroutine. 2: it is declared twice. 28: it stands in a subprogram.
pub fn subroutine_name(
    alloc: Global,
    around: &Around<'_>,
    here: &mut Table,
    heading: &Heading,
    report: &mut Report,
) -> Result<(), AllocError>
    ensures first { OnOk result (report.new ≡ found.found_declared (around_of around.now) (find (table_of here.old)) (heading_tree heading.now) report.old) }
    ensures names { OnOk result (find (table_of here.new) ≡ with_name (find (table_of here.old)) (heading_tree heading.now).name (n.subroutine (n.profile_of (heading_tree heading.now)))) }
{
    again(here, &heading.name, heading.at, report);
    report.unless(!around.subprogram, 28, heading.at);
    let profile = profile(alloc, heading)?;
    declare(here, &heading.name, Sort::Subroutine(profile))?;
    Ok(())
}

/// Declares what a declaration of a procedure's body does, with the rules of it, but for a subroutine's own.
pub fn declaration(
    alloc: Global,
    around: &Around<'_>,
    here: &mut Table,
    declaration: &Decl,
    report: &mut Report,
) -> Result<(), AllocError>
    ensures first { OnOk result (report.new ≡ found.found_local (around_of around.now) (find (table_of here.old)) (view.declaration declaration.now) report.old) }
    ensures names { OnOk result (find (table_of here.new) ≡ behind_declaration (around_of around.now).names (find (table_of here.old)) (view.declaration declaration.now)) }
{
    match declaration {
        Decl::Data {
            own,
            kind,
            items: list,
        } => items(
            around,
            here,
            Data {
                own: *own,
                kind: *kind,
            },
            list,
            report,
        ),
        Decl::Equate(list) => equates(around, here, list, report),
        Decl::Intrinsic(names) => intrinsics(alloc, here, names, report),
        Decl::Label(names) => labels(here, names, report),
        Decl::Subroutine(heading, _) => subroutine_name(alloc, around, here, heading, report),
        Decl::Forward(heading) => procedure_name(alloc, here, heading),
        Decl::External(heading) => procedure_name(alloc, here, heading),
        Decl::Procedure(heading, _) => procedure_name(alloc, here, heading),
    }
}

/// The declarations of a procedure's body, in order.
#[tactic(auto, using(crate::proofs::ListWalks::declaration_steps))]
pub fn declarations(
    alloc: Global,
    around: &Around<'_>,
    here: &mut Table,
    list: &[Decl],
    report: &mut Report,
) -> Result<(), AllocError>
    ensures first { OnOk result (report.new ≡ found.found_locals (around_of around.now) (find (table_of here.old)) (decl.declarations (map view.declaration list.now)) report.old) }
    ensures names { OnOk result (find (table_of here.new) ≡ behind_declarations (around_of around.now).names (find (table_of here.old)) (decl.declarations (map view.declaration list.now))) }
{
    for d in list {
        declaration(alloc, around, here, d, report)?;
    }
    Ok(())
}
