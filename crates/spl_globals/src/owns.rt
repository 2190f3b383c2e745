//! What is stored of the OWN items of procedures.
ghost use Rattle.std.specs.Prelude.{◌≡◌, ◌++◌, [], OnOk, IfOk, map};
ghost use Rattle.spl_tree.specs.DeclarationTrees as decl;
ghost use Rattle.spl_tree.specs.Spells as view;
ghost use Rattle.spl_tree.specs.Spells.{heading_tree};
ghost use Rattle.spl_sorts.specs.spl_meaning.Names as n;
ghost use Rattle.spl_sorts.specs.spl_meaning.Names.{find, nothing_declared};
ghost use Rattle.spl_sorts.specs.Tables.{table_of};
ghost use Rattle.spl_initials.specs.spl_places.ListedData.{datum_of};
ghost use Rattle.spl_areas.specs.Gathered.{items_under, items_in, items_among};
ghost use Rattle.spl_initials.specs.Memory.{memory_of};
ghost use Rattle.spl_globals.specs.Stored.{behind_owns, procedure_stored, declaration_stored, owns_stored};

use crate::areas::{Areas, behind_owns};
use crate::stored::{Listing, Pass, list_stored};
use spl_areas::list_items;
use spl_initials::spl_lists::{formals, parameters};
use spl_initials::spl_places::{Area, Datum, declare_all, frame_starts};
use spl_sorts::Table;
use spl_tree::{Decl, Heading};
use std::alloc::{AllocError, Global};

/// No name is declared.
pub fn nothing(alloc: Global) -> Table
    ensures { find (table_of result) ≡ nothing_declared }
{
    Table::new(alloc)
}

/// The parameters of a heading, as the first names of its list.
fn first_names(alloc: Global, heading: &Heading) -> Result<Table, AllocError>
    ensures { IfOk result (λ here. find (table_of here) ≡ find (n.parameters (n.formals_of (heading_tree heading.now)))) }
{
    let formals = formals(alloc, heading)?;
    parameters(alloc, &formals)
}

/// The OWN items of a procedure's list of these items.
fn items_stored(
    alloc: Global,
    pass: Pass,
    words: &mut [u16],
    at: Areas,
    outer: &Table,
    heading: &Heading,
    list: &[Decl],
    items: &[Datum],
) -> Result<(), AllocError>
    requires { map datum_of items.now ≡ items_under (find (table_of outer.now)) (heading_tree heading.now) (decl.declarations (map view.declaration list.now)) }
    ensures { OnOk result (memory_of words.new ≡ procedure_stored pass (find (table_of outer.now)) at.own at.own_arrays (heading_tree heading.now) (decl.declarations (map view.declaration list.now)) (memory_of words.old)) }
{
    let mut here = first_names(alloc, heading)?;
    let listing = Listing {
        own: true,
        area: Area::Frame,
        at: frame_starts(at.own, at.own_arrays, items)?,
        outer,
        items,
        list,
    };
    list_stored(alloc, pass, words, &listing, &mut here)
}

/// The OWN items of a procedure. Answers where those of the next start.
fn procedure_stored(
    alloc: Global,
    pass: Pass,
    words: &mut [u16],
    at: Areas,
    outer: &Table,
    heading: &Heading,
    list: &[Decl],
) -> Result<Areas, AllocError>
    ensures words { OnOk result (memory_of words.new ≡ procedure_stored pass (find (table_of outer.now)) at.own at.own_arrays (heading_tree heading.now) (decl.declarations (map view.declaration list.now)) (memory_of words.old)) }
    ensures next { IfOk result (λ next. next ≡ behind_owns at (items_under (find (table_of outer.now)) (heading_tree heading.now) (decl.declarations (map view.declaration list.now)))) }
{
    let mut items = Vec::new(alloc);
    list_items(alloc, outer, heading, list, &mut items)?;
    items_stored(alloc, pass, words, at, outer, heading, list, &items)?;
    behind_owns(at, &items)
}

/// The OWN items of the procedure that a declaration is, with the names behind it.
fn declaration_stored(
    alloc: Global,
    pass: Pass,
    words: &mut [u16],
    at: Areas,
    here: &Table,
    item: &Decl,
) -> Result<Areas, AllocError>
    ensures words { OnOk result (memory_of words.new ≡ declaration_stored pass (find (table_of here.now)) at.own at.own_arrays (view.declaration item.now) (memory_of words.old)) }
    ensures next { IfOk result (λ next. next ≡ behind_owns at (items_in (find (table_of here.now)) (view.declaration item.now))) }
{
    match item {
        Decl::Procedure(heading, body) => {
            procedure_stored(alloc, pass, words, at, here, heading, &body.items)
        }
        Decl::Data { .. }
        | Decl::Equate(_)
        | Decl::Intrinsic(_)
        | Decl::Label(_)
        | Decl::Forward(_)
        | Decl::External(_)
        | Decl::Subroutine(..) => Ok(at),
    }
}

/// The OWN items of the procedures of a unit. Answers where those of the next unit start.
#[tactic(auto, using(crate::proofs::StoredWalks::own_steps))]
pub fn owns_stored(
    alloc: Global,
    pass: Pass,
    words: &mut [u16],
    at: Areas,
    list: &[Decl],
) -> Result<Areas, AllocError>
    ensures words { OnOk result (memory_of words.new ≡ owns_stored pass nothing_declared at.own at.own_arrays (decl.declarations (map view.declaration list.now)) (memory_of words.old)) }
    ensures next { IfOk result (λ next. next ≡ behind_owns at (items_among nothing_declared (decl.declarations (map view.declaration list.now)))) }
{
    let outer = nothing(alloc);
    let mut here = nothing(alloc);
    let mut next = at;
    for d in list {
        declare_all(alloc, &outer, &mut here, d)?;
        next = declaration_stored(alloc, pass, words, next, &here, d)?;
    }
    Ok(next)
}
