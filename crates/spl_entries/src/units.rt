//! The places of the items and parameters of units.
ghost use Rattle.std.specs.Prelude.{◌≡◌, ◌++◌, OnOk, IfOk, map};
ghost use Rattle.spl_tree.specs.DeclarationTrees as decl;
ghost use Rattle.spl_tree.specs.Spells as view;
ghost use Rattle.spl_tree.specs.Spells.{item_tree, shape_tree};
ghost use Rattle.spl_sorts.specs.spl_meaning.Names.{find, nothing_declared};
ghost use Rattle.spl_sorts.specs.Tables.{table_of};
ghost use Rattle.spl_sorts.specs.spl_meaning.Tables as t;
ghost use Rattle.spl_formals.specs.spl_found.OwnNames.{over, behind_items, behind_declaration};
ghost use Rattle.spl_globals.specs.spl_sound.Spelled.{source_of};
ghost use Rattle.spl_globals.specs.spl_places.ListedData.{datum_of, items_data};
ghost use Rattle.spl_globals.specs.spl_places.Programs.{NewInAll};
ghost use Rattle.spl_globals.specs.Stored as stored;
ghost use Rattle.spl_entries.specs.Entries as entries;

use crate::items::item_places;
use crate::place_type::Place;
use crate::procedures::{inner, procedure};
use spl_formals::spl_lists::{Data, declare};
use spl_globals::spl_places::{Datum, Starts, declare_all, shaped_here};
use spl_globals::{Areas, behind_globals, first_areas};
use spl_sorts::Table;
use spl_tree::{Decl, Item, SplUnit};
use std::alloc::{AllocError, Global};

/// No name is declared.
fn nothing(alloc: Global) -> Table
    ensures { find (table_of result) ≡ nothing_declared }
{
    Table::new(alloc)
}

/// The globals of a declaration in a unit's list, where it has some.
fn data_places(at: Areas, items: &[Datum], all: &mut Vec<Place>) -> Result<Areas, AllocError>
    ensures places { OnOk result (all.new.items ≡ all.old.items ++ entries.item_entries (stored.global_starts at) (map datum_of items.now)) }
    ensures next { IfOk result (λ next. next ≡ stored.behind_globals at (map datum_of items.now)) }
{
    let starts = Starts {
        own: 0,
        own_arrays: 0,
        here: at.primary,
        here_arrays: at.secondary,
    };
    item_places(starts, items, all)?;
    behind_globals(at, items)
}

/// An item in a list.
fn datum(outer: &Table, here: &Table, form: Data, item: &Item) -> Datum
    ensures { datum_of result ≡ record { name = (item_tree item.now).name; at = item.now.at; sort = t.shaped (over (find (table_of here.now)) (find (table_of outer.now))) form.own form.kind (shape_tree item.now.shape) } }
{
    Datum {
        name: item.name.copy(),
        at: item.at,
        sort: shaped_here(outer, here, form, &item.shape),
    }
}

/// Takes in the items of a declaration of data, and declares them.
#[tactic(auto, using(crate::proofs::EntryWalks::listed_steps))]
fn listed(
    outer: &Table,
    here: &mut Table,
    form: Data,
    items: &[Item],
    all: &mut Vec<Datum>,
) -> Result<(), AllocError>
    ensures items { OnOk result (map datum_of all.new.items ≡ map datum_of all.old.items ++ items_data (find (table_of outer.now)) form.own form.kind (find (table_of here.old)) (map item_tree items.now)) }
    ensures names { OnOk result (find (table_of here.new) ≡ behind_items (find (table_of outer.now)) form.own form.kind (find (table_of here.old)) (map item_tree items.now)) }
{
    for item in items {
        all.push(datum(outer, here, form, item))?;
        let sort = shaped_here(outer, here, form, &item.shape);
        declare(here, &item.name, sort)?;
    }
    Ok(())
}

/// The globals of a declaration of data.
fn data_declaration(
    alloc: Global,
    outer: &Table,
    here: &mut Table,
    at: Areas,
    form: Data,
    items: &[Item],
    all: &mut Vec<Place>,
) -> Result<Areas, AllocError>
    ensures places { OnOk result (all.new.items ≡ all.old.items ++ entries.item_entries (stored.global_starts at) (items_data (find (table_of outer.now)) form.own form.kind (find (table_of here.old)) (map item_tree items.now))) }
    ensures next { IfOk result (λ next. next ≡ stored.behind_globals at (items_data (find (table_of outer.now)) form.own form.kind (find (table_of here.old)) (map item_tree items.now))) }
    ensures names { OnOk result (find (table_of here.new) ≡ behind_items (find (table_of outer.now)) form.own form.kind (find (table_of here.old)) (map item_tree items.now)) }
{
    let mut found = Vec::new(alloc);
    listed(outer, here, form, items, &mut found)?;
    data_places(at, &found, all)
}

/// The parameters and items of a procedure or a subroutine, with the names behind its heading.
fn bodies(
    alloc: Global,
    here: &Table,
    at: Areas,
    item: &Decl,
    all: &mut Vec<Place>,
) -> Result<Areas, AllocError>
    ensures places { OnOk result (all.new.items ≡ all.old.items ++ entries.bodies_entries (find (table_of here.now)) at (view.declaration item.now)) }
    ensures next { IfOk result (λ next. next ≡ entries.bodies_behind (find (table_of here.now)) at (view.declaration item.now)) }
{
    match item {
        Decl::Procedure(heading, body) => procedure(alloc, here, at, heading, &body.items, all),
        Decl::Subroutine(..) => {
            inner(alloc, item, all)?;
            Ok(at)
        }
        Decl::Data { .. }
        | Decl::Equate(_)
        | Decl::Intrinsic(_)
        | Decl::Label(_)
        | Decl::Forward(_)
        | Decl::External(_) => Ok(at),
    }
}

/// The places of a declaration in a unit's list; and declares what it does. Answers where the next data stand.
fn declaration(
    alloc: Global,
    outer: &Table,
    here: &mut Table,
    at: Areas,
    item: &Decl,
    all: &mut Vec<Place>,
) -> Result<Areas, AllocError>
    ensures places { OnOk result (all.new.items ≡ all.old.items ++ entries.entries_in (find (table_of outer.now)) (find (table_of here.old)) at (view.declaration item.now)) }
    ensures next { IfOk result (λ next. next ≡ entries.areas_behind (find (table_of outer.now)) (find (table_of here.old)) at (view.declaration item.now)) }
    ensures names { OnOk result (find (table_of here.new) ≡ behind_declaration (find (table_of outer.now)) (find (table_of here.old)) (view.declaration item.now)) }
{
    match item {
        Decl::Data { own, kind, items } => {
            let form = Data {
                own: *own,
                kind: *kind,
            };
            data_declaration(alloc, outer, here, at, form, items, all)
        }
        Decl::Equate(_)
        | Decl::Intrinsic(_)
        | Decl::Label(_)
        | Decl::Forward(_)
        | Decl::External(_)
        | Decl::Procedure(..)
        | Decl::Subroutine(..) => {
            declare_all(alloc, outer, here, item)?;
            bodies(alloc, here, at, item, all)
        }
    }
}

/// The places of a unit's list, the data of which start there. Answers where those of the next unit do.
#[tactic(auto, using(crate::proofs::EntryWalks::unit_steps))]
fn unit_places(
    alloc: Global,
    at: Areas,
    list: &[Decl],
    all: &mut Vec<Place>,
) -> Result<Areas, AllocError>
    ensures places { OnOk result (all.new.items ≡ all.old.items ++ entries.entries_among nothing_declared nothing_declared at (decl.declarations (map view.declaration list.now))) }
    ensures next { IfOk result (λ next. next ≡ entries.areas_among nothing_declared nothing_declared at (decl.declarations (map view.declaration list.now))) }
{
    let outer = nothing(alloc);
    let mut here = nothing(alloc);
    let mut next = at;
    for d in list {
        next = declaration(alloc, &outer, &mut here, next, d, all)?;
    }
    Ok(next)
}

/// The places of the items and parameters of units, in source order: one for each item of a declaration of data, and
/// one for each parameter of a heading with a body. An error is want of memory, or a sum beyond `u64`.
#[tactic(auto, using(crate::proofs::EntryWalks::program_steps))]
pub fn places(alloc: Global, units: &[SplUnit]) -> Result<Vec<Place>, AllocError>
    requires { NewInAll (map source_of units.now) }
    ensures { IfOk result (λ all. all.items ≡ entries.entries_of (map source_of units.now)) }
{
    let (areas, _) = first_areas(alloc, units)?;
    let mut next = areas;
    let mut all = Vec::new(alloc);
    for unit in units {
        next = unit_places(alloc, next, &unit.items, &mut all)?;
    }
    Ok(all)
}
