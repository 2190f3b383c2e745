//! Initial values of the items of lists of declarations.
ghost use Rattle.std.specs.Prelude.{◌≡◌, OnOk, map, option_map};
ghost use Rattle.spl_tree.specs.DeclarationTrees as decl;
ghost use Rattle.spl_tree.specs.Spells as view;
ghost use Rattle.spl_tree.specs.Spells.{item_tree};
ghost use Rattle.spl_tree.specs.Views as trees;
ghost use Rattle.spl_sorts.specs.spl_meaning.Names as n;
ghost use Rattle.spl_sorts.specs.spl_meaning.Names.{find};
ghost use Rattle.spl_sorts.specs.spl_meaning.Places as places;
ghost use Rattle.spl_sorts.specs.spl_meaning.Runs as runs;
ghost use Rattle.spl_places.specs.spl_found.OwnNames.{behind_items, behind_declaration, behind_declarations};
ghost use Rattle.spl_sorts.specs.Tables.{table_of, names_of};
ghost use Rattle.spl_places.specs.Spots.{spot_of, array_of};
ghost use Rattle.spl_initials.specs.Memory.{memory_of};
ghost use Rattle.spl_initials.specs.Cells.{found_in, item_initial, initials_of_items, initials_of_declaration, initials_by};

use crate::cells::{array_named, global_address, place_named};
use crate::values::put_constants;
use spl_places::spl_lists::{Data, declare, seen};
use spl_places::{Array, ListPlaces, Place, declare_all, shaped_here};
use spl_sorts::{Names, Table};
use spl_tree::{Const, Decl, Item, Kind};
use std::alloc::{AllocError, Global};

/// Where initial values begin: at an array's data, or at the item itself.
fn start_of(place: Option<Place>, array: Option<Array>) -> Option<Place>
    ensures { option_map spot_of result ≡ places.start_of (option_map spot_of place) (option_map array_of array) }
{
    match array {
        Some(array) => Some(array.from),
        None => place,
    }
}

/// Stores the values of constants from a place on, where it is known.
fn put_from(
    words: &mut [u16],
    names: &Names<'_>,
    kind: Kind,
    place: Option<Place>,
    values: &[Const],
)
    ensures { memory_of words.new ≡ places.put_initials runs.global_address (places.initial_at (option_map spot_of place) kind (map (n.constant_or_zero (names_of names.now)) (map trees.constant values.now))) (memory_of words.old) }
{
    if let Some(place) = place {
        put_constants(words, names, kind, global_address(place), values);
    }
}

/// Stores the initial values of an item, read with the names before it.
fn put_item(
    words: &mut [u16],
    outer: &Table,
    here: &Table,
    kind: Kind,
    list: &ListPlaces,
    item: &Item,
)
    ensures { memory_of words.new ≡ places.put_initials runs.global_address (item_initial (find (table_of outer.now)) kind (found_in list.now) (find (table_of here.now)) (item_tree item.now)) (memory_of words.old) }
{
    let names = seen(here, outer);
    let place = place_named(list, &item.name);
    let start = start_of(place, array_named(list, &item.name));
    put_from(words, &names, kind, start, &item.first);
}

/// Stores the initial values of the items of a declaration of data, and declares them.
#[tactic(auto, using(crate::proofs::InitialWalks::item_steps))]
fn put_items(
    words: &mut [u16],
    outer: &Table,
    here: &mut Table,
    form: Data,
    list: &ListPlaces,
    items: &[Item],
) -> Result<(), AllocError>
    ensures words { OnOk result (memory_of words.new ≡ places.put_initials runs.global_address (initials_of_items (find (table_of outer.now)) form.own form.kind (found_in list.now) (find (table_of here.old)) (map item_tree items.now)) (memory_of words.old)) }
    ensures names { OnOk result (find (table_of here.new) ≡ behind_items (find (table_of outer.now)) form.own form.kind (find (table_of here.old)) (map item_tree items.now)) }
{
    for item in items {
        put_item(words, outer, here, form.kind, list, item);
        let sort = shaped_here(outer, here, form, &item.shape);
        declare(here, &item.name, sort)?;
    }
    Ok(())
}

/// Stores the initial values of a declaration, where its items are OWN as is asked, and declares what it does.
fn put_declaration(
    alloc: Global,
    words: &mut [u16],
    own: bool,
    outer: &Table,
    here: &mut Table,
    list: &ListPlaces,
    declaration: &Decl,
) -> Result<(), AllocError>
    ensures words { OnOk result (memory_of words.new ≡ places.put_initials runs.global_address (initials_of_declaration own (find (table_of outer.now)) (found_in list.now) (find (table_of here.old)) (view.declaration declaration.now)) (memory_of words.old)) }
    ensures names { OnOk result (find (table_of here.new) ≡ behind_declaration (find (table_of outer.now)) (find (table_of here.old)) (view.declaration declaration.now)) }
{
    match declaration {
        Decl::Data {
            own: kept,
            kind,
            items,
        } => {
            if own == *kept {
                let form = Data {
                    own: *kept,
                    kind: *kind,
                };
                put_items(words, outer, here, form, list, items)
            } else {
                declare_all(alloc, outer, here, declaration)
            }
        }
        Decl::Equate(_)
        | Decl::Intrinsic(_)
        | Decl::Label(_)
        | Decl::Forward(_)
        | Decl::External(_)
        | Decl::Procedure(..)
        | Decl::Subroutine(..) => declare_all(alloc, outer, here, declaration),
    }
}

/// Stores the initial values of a list of declarations, of items that are OWN or of those that are not, and
/// declares what it does. The list's places are those of `list_places`, and its table has the names before it.
#[tactic(auto, using(crate::proofs::InitialWalks::declaration_steps))]
pub fn put_initials(
    alloc: Global,
    words: &mut [u16],
    own: bool,
    outer: &Table,
    here: &mut Table,
    list: &ListPlaces,
    declarations: &[Decl],
) -> Result<(), AllocError>
    ensures words { OnOk result (memory_of words.new ≡ places.put_initials runs.global_address (initials_by own (find (table_of outer.now)) (found_in list.now) (find (table_of here.old)) (decl.declarations (map view.declaration declarations.now))) (memory_of words.old)) }
    ensures names { OnOk result (find (table_of here.new) ≡ behind_declarations (find (table_of outer.now)) (find (table_of here.old)) (decl.declarations (map view.declaration declarations.now))) }
{
    for d in declarations {
        put_declaration(alloc, words, own, outer, here, list, d)?;
    }
    Ok(())
}
