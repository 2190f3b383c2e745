//! The first limit behind procedures and subroutines.
ghost use Rattle.std.specs.Prelude.{◌≡◌, ◌++◌, OnOk, IfOk, map};
ghost use Rattle.spl_tree.specs.DeclarationTrees as decl;
ghost use Rattle.spl_tree.specs.Spells as view;
ghost use Rattle.spl_tree.specs.Spells.{heading_tree};
ghost use Rattle.spl_tree.specs.Views as trees;
ghost use Rattle.spl_sound.specs.spl_meaning.Names as n;
ghost use Rattle.spl_sound.specs.spl_meaning.Names.{find};
ghost use Rattle.spl_sound.specs.spl_meaning.Limits as limits;
ghost use Rattle.spl_sorts.specs.Tables.{table_of};
ghost use Rattle.spl_areas.specs.spl_found.OwnNames.{over, behind_declarations};
ghost use Rattle.spl_areas.specs.spl_places.ListedData.{datum_of, list_data};
ghost use Rattle.spl_limits.specs.FirstPassed as passed;

use spl_areas::spl_lists::{formals, parameters, profile};
use spl_areas::spl_places::{Datum, declarations, local_limits};
use spl_areas::spl_spots::FirstFull;
use spl_depths::{heading_limits, subroutine_limits};
use spl_sorts::{Names, Table};
use spl_tree::{Decl, Heading, Stmt};
use std::alloc::{AllocError, Global};

/// Behind a subroutine, in a list with the names outside it.
fn subroutine(
    alloc: Global,
    own: &Table,
    outer: &Table,
    heading: &Heading,
    statement: &Stmt,
    first: &mut FirstFull,
) -> Result<(), AllocError>
    ensures { OnOk result (first.new ≡ passed.behind_subroutine (over (find (table_of own.now)) (find (table_of outer.now))) (heading_tree heading.now) (trees.statement statement.now) first.old) }
{
    let profile = profile(alloc, heading)?;
    let parameters = parameters(alloc, &profile.formals)?;
    let names = Names {
        inner: &parameters,
        own,
        outer,
    };
    subroutine_limits(alloc, &names, heading, &profile, statement, first)
}

/// Behind a declaration, where it is a subroutine.
fn inner(
    alloc: Global,
    own: &Table,
    outer: &Table,
    item: &Decl,
    first: &mut FirstFull,
) -> Result<(), AllocError>
    ensures { OnOk result (first.new ≡ passed.behind_inner (over (find (table_of own.now)) (find (table_of outer.now))) (view.declaration item.now) first.old) }
{
    match item {
        Decl::Subroutine(heading, statement) => {
            subroutine(alloc, own, outer, heading, statement, first)
        }
        Decl::Data { .. }
        | Decl::Equate(_)
        | Decl::Intrinsic(_)
        | Decl::Label(_)
        | Decl::Forward(_)
        | Decl::External(_)
        | Decl::Procedure(..) => Ok(()),
    }
}

/// Behind the subroutines of a list, which may use all of its names and those outside it.
#[tactic(auto, using(crate::proofs::LimitWalks::inner_steps))]
pub fn subroutines(
    alloc: Global,
    own: &Table,
    outer: &Table,
    list: &[Decl],
    first: &mut FirstFull,
) -> Result<(), AllocError>
    ensures { OnOk result (first.new ≡ passed.behind_subroutines (over (find (table_of own.now)) (find (table_of outer.now))) (decl.declarations (map view.declaration list.now)) first.old) }
{
    for d in list {
        inner(alloc, own, outer, d, first)?;
    }
    Ok(())
}

/// Behind a heading.
fn heading_passed(alloc: Global, heading: &Heading, first: &mut FirstFull) -> Result<(), AllocError>
    ensures { OnOk result (first.new ≡ limits.first_among first.old (limits.heading_limits (heading_tree heading.now))) }
{
    let profile = profile(alloc, heading)?;
    heading_limits(heading, &profile, first);
    Ok(())
}

/// The items of a procedure's list, behind its parameters, and its names.
fn own_list(
    alloc: Global,
    globals: &Table,
    heading: &Heading,
    list: &[Decl],
    all: &mut Vec<Datum>,
) -> Result<Table, AllocError>
    ensures items { OnOk result (map datum_of all.new.items ≡ map datum_of all.old.items ++ list_data (find (table_of globals.now)) (find (n.parameters (n.formals_of (heading_tree heading.now)))) (decl.declarations (map view.declaration list.now))) }
    ensures names { IfOk result (λ own. find (table_of own) ≡ behind_declarations (find (table_of globals.now)) (find (n.parameters (n.formals_of (heading_tree heading.now)))) (decl.declarations (map view.declaration list.now))) }
{
    let formals = formals(alloc, heading)?;
    let mut own = parameters(alloc, &formals)?;
    declarations(alloc, globals, &mut own, list, all)?;
    Ok(own)
}

/// Behind a procedure's list: its items, and then its subroutines.
fn list_passed(
    alloc: Global,
    globals: &Table,
    heading: &Heading,
    list: &[Decl],
    first: &mut FirstFull,
) -> Result<(), AllocError>
    ensures { OnOk result (first.new ≡ passed.behind_list (find (table_of globals.now)) (heading_tree heading.now) (decl.declarations (map view.declaration list.now)) first.old) }
{
    let mut items = Vec::new(alloc);
    let own = own_list(alloc, globals, heading, list, &mut items)?;
    local_limits(&items, first)?;
    subroutines(alloc, &own, globals, list, first)
}

/// Behind a procedure, where its unit's list up to it is `globals`: its heading, its items, its subroutines.
pub fn procedure(
    alloc: Global,
    globals: &Table,
    heading: &Heading,
    list: &[Decl],
    first: &mut FirstFull,
) -> Result<(), AllocError>
    ensures { OnOk result (first.new ≡ passed.behind_procedure (find (table_of globals.now)) (heading_tree heading.now) (decl.declarations (map view.declaration list.now)) first.old) }
{
    heading_passed(alloc, heading, first)?;
    list_passed(alloc, globals, heading, list, first)
}
