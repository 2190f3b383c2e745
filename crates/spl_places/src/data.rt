//! The items of lists of declarations, each with its name, its place and what it stands for.
ghost use Rattle.std.specs.Prelude.{◌≡◌, ◌++◌, OnOk, map};
ghost use Rattle.spl_tree.specs.DeclarationTrees as decl;
ghost use Rattle.spl_tree.specs.Spells as view;
ghost use Rattle.spl_tree.specs.Spells.{item_tree, shape_tree};
ghost use Rattle.spl_tree.specs.Views as trees;
ghost use Rattle.spl_sorts.specs.spl_meaning.Names as n;
ghost use Rattle.spl_sorts.specs.spl_meaning.Names.{find};
ghost use Rattle.spl_sorts.specs.spl_meaning.Tables as t;
ghost use Rattle.spl_spots.specs.spl_found.OwnNames.{over, behind_items, behind_declaration, behind_declarations};
ghost use Rattle.spl_sorts.specs.Sorts.{sort_of};
ghost use Rattle.spl_sorts.specs.Tables.{table_of, names_of};
ghost use Rattle.spl_places.specs.ListedData.{datum_of, items_data, declaration_data, list_data};

use spl_lists::{Around, Data, declare, seen};
use spl_sorts::{Names, Report, Sort, Table, constant_value};
use spl_tree::{At, Const, Decl, Item, Name, Shape};
use std::alloc::{AllocError, Global};

/// An item of a declaration of data, and what it stands for.
#[derive(Debug, Drop)]
pub struct Datum {
    pub name: Name,
    pub at: At,
    pub sort: Sort,
}

/// A constant as a whole number, or zero where it has no value.
pub fn constant_or_zero(names: &Names<'_>, constant: &Const) -> i64
    ensures { result ≡ n.constant_or_zero (names_of names.now) (trees.constant constant.now) }
{
    match constant_value(names, constant) {
        Some(value) => value,
        None => 0,
    }
}

/// What an item stands for.
fn shaped(names: &Names<'_>, form: Data, shape: &Shape) -> Sort
    ensures { sort_of result ≡ t.shaped (names_of names.now) form.own form.kind (shape_tree shape.now) }
{
    let Data { own, kind } = form;
    match shape {
        Shape::Simple => Sort::Simple(kind, own),
        Shape::Array { low, high } => Sort::Array {
            kind,
            own,
            low: constant_or_zero(names, low),
            high: constant_or_zero(names, high),
        },
        Shape::View(base) => Sort::View(kind, own, base.copy()),
        Shape::Pointer => Sort::Pointer(kind, own),
    }
}

/// What an item stands for in a list, with the names outside it.
pub fn shaped_here(outer: &Table, here: &Table, form: Data, shape: &Shape) -> Sort
    ensures { sort_of result ≡ t.shaped (over (find (table_of here.now)) (find (table_of outer.now))) form.own form.kind (shape_tree shape.now) }
{
    shaped(&seen(here, outer), form, shape)
}

/// An item in a list.
fn item_datum(outer: &Table, here: &Table, form: Data, item: &Item) -> Datum
    ensures { datum_of result ≡ record { name = (item_tree item.now).name; at = item.now.at; sort = t.shaped (over (find (table_of here.now)) (find (table_of outer.now))) form.own form.kind (shape_tree item.now.shape) } }
{
    Datum {
        name: item.name.copy(),
        at: item.at,
        sort: shaped_here(outer, here, form, &item.shape),
    }
}

/// Takes in the items of a declaration of data, and declares them.
#[tactic(auto, using(crate::proofs::DataWalks::item_steps))]
fn items(
    outer: &Table,
    here: &mut Table,
    form: Data,
    items: &[Item],
    all: &mut Vec<Datum>,
) -> Result<(), AllocError>
    ensures items { OnOk result (map datum_of all.new.items ≡ map datum_of all.old.items ++ items_data (find (table_of outer.now)) form.own form.kind (find (table_of here.old)) (map item_tree items.now)) }
    ensures names { OnOk result (find (table_of here.new) ≡ behind_items (find (table_of outer.now)) form.own form.kind (find (table_of here.old)) (map item_tree items.now)) }
{
    for item in items {
        all.push(item_datum(outer, here, form, item))?;
        let sort = shaped_here(outer, here, form, &item.shape);
        declare(here, &item.name, sort)?;
    }
    Ok(())
}

/// Declares what a declaration does. That it breaks no rule was checked before.
pub fn declare_all(
    alloc: Global,
    outer: &Table,
    here: &mut Table,
    declaration: &Decl,
) -> Result<(), AllocError>
    ensures { OnOk result (find (table_of here.new) ≡ behind_declaration (find (table_of outer.now)) (find (table_of here.old)) (view.declaration declaration.now)) }
{
    let around = Around {
        names: outer,
        in_procedure: true,
        split: false,
        subprogram: false,
    };
    let mut report = Report::new();
    spl_lists::declaration(alloc, &around, here, declaration, &mut report)
}

/// Takes in the items of a declaration, and declares what it does.
fn declaration(
    alloc: Global,
    outer: &Table,
    here: &mut Table,
    declaration: &Decl,
    all: &mut Vec<Datum>,
) -> Result<(), AllocError>
    ensures items { OnOk result (map datum_of all.new.items ≡ map datum_of all.old.items ++ declaration_data (find (table_of outer.now)) (find (table_of here.old)) (view.declaration declaration.now)) }
    ensures names { OnOk result (find (table_of here.new) ≡ behind_declaration (find (table_of outer.now)) (find (table_of here.old)) (view.declaration declaration.now)) }
{
    match declaration {
        Decl::Data {
            own,
            kind,
            items: list,
        } => {
            let form = Data {
                own: *own,
                kind: *kind,
            };
            items(outer, here, form, list, all)
        }
        Decl::Equate(_)
        | Decl::Intrinsic(_)
        | Decl::Label(_)
        | Decl::Forward(_)
        | Decl::External(_)
        | Decl::Procedure(..)
        | Decl::Subroutine(..) => declare_all(alloc, outer, here, declaration),
    }
}

/// Takes in the items of a list of declarations in order, and declares what it does, with the names outside it.
#[tactic(auto, using(crate::proofs::DataWalks::declaration_steps))]
pub fn declarations(
    alloc: Global,
    outer: &Table,
    here: &mut Table,
    list: &[Decl],
    all: &mut Vec<Datum>,
) -> Result<(), AllocError>
    ensures items { OnOk result (map datum_of all.new.items ≡ map datum_of all.old.items ++ list_data (find (table_of outer.now)) (find (table_of here.old)) (decl.declarations (map view.declaration list.now))) }
    ensures names { OnOk result (find (table_of here.new) ≡ behind_declarations (find (table_of outer.now)) (find (table_of here.old)) (decl.declarations (map view.declaration list.now))) }
{
    for d in list {
        declaration(alloc, outer, here, d, all)?;
    }
    Ok(())
}
