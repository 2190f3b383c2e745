//! Initial values of local items.
ghost use Rattle.std.specs.Prelude.{◌≡◌, ◌∷◌, [], OnOk, map, option_map, false};
ghost use Rattle.hp_word.specs.Words.{double_of};
ghost use Rattle.spl_tree.specs.DeclarationTrees as decl;
ghost use Rattle.spl_tree.specs.Spells as view;
ghost use Rattle.spl_tree.specs.Spells.{item_tree};
ghost use Rattle.spl_tree.specs.Views as trees;
ghost use Rattle.spl_sorts.specs.spl_meaning.Names as n;
ghost use Rattle.spl_sorts.specs.spl_meaning.Names.{find};
ghost use Rattle.spl_sorts.specs.spl_meaning.Places as places;
ghost use Rattle.spl_gen_expr.specs.spl_found.OwnNames.{behind_items, behind_declaration, behind_declarations};
ghost use Rattle.spl_sorts.specs.Tables.{table_of, names_of};
ghost use Rattle.spl_initials.specs.spl_places.Spots.{spot_of, array_of};
ghost use Rattle.spl_initials.specs.Cells.{found_in, item_initial, initials_of_items, initials_of_declaration, initials_by};
ghost use Rattle.spl_body_code.specs.spl_code.Parts.{pieces};
ghost use Rattle.spl_body_code.specs.spl_code.Appends.{Appends};
ghost use Rattle.spl_body_code.specs.Cells as cells;

use crate::cells::{store, word_of};
use spl_branch::Code;
use spl_initials::spl_lists::{Data, declare, seen};
use spl_initials::spl_places::{
    Array, ListPlaces, Place, constant_or_zero, declare_all, shaped_here,
};
use spl_initials::{array_named, place_named};
use spl_operations::{push_double, push_word};
use spl_sorts::{Names, Table};
use spl_tree::{Const, Decl, Item, Kind};
use std::alloc::{AllocError, Global};

/// A whole number modulo 4,294,967,296.
#[tactic(auto, unfolding(hp_word::specs::Words::double_of))]
fn double_of(value: i64) -> u32
    ensures { result ≡ double_of value }
{
    value.rem_euclid(4294967296) as u32
}

/// Appends what pushes a value of a kind: of a DOUBLE both words, of a BYTE its code.
fn push_value(code: &mut Code, kind: Kind, value: i64) -> Result<(), AllocError>
    ensures { OnOk result (Appends (pieces (cells.value_pushed kind value)) code.old code.new) }
{
    match kind {
        Kind::Double => push_double(code, double_of(value)),
        Kind::Byte => push_word(code, word_of(i128::from(value)) % 256),
        Kind::Integer | Kind::Logical => push_word(code, word_of(i128::from(value))),
    }
}

/// Appends what stores a value of a kind at a place.
#[tactic(auto, using(spl_operations::proofs::PutLemmas::pieces_then))]
fn set_value(code: &mut Code, place: Place, kind: Kind, value: i64) -> Result<(), AllocError>
    ensures { OnOk result (Appends (pieces (cells.first_set (spot_of place) kind (value ∷ []))) code.old code.new) }
{
    push_value(code, kind, value)?;
    store(code, kind, place)
}

/// Appends what stores the first of some constants at a place.
fn set_first(
    code: &mut Code,
    names: &Names<'_>,
    place: Place,
    kind: Kind,
    values: &[Const],
) -> Result<(), AllocError>
    ensures { OnOk result (Appends (pieces (cells.first_set (spot_of place) kind (map (n.constant_or_zero (names_of names.now)) (map trees.constant values.now)))) code.old code.new) }
{
    match values {
        [first, ..] => set_value(code, place, kind, constant_or_zero(names, first)),
        [] => Ok(()),
    }
}

/// The same where the place is known.
fn set_if_known(
    code: &mut Code,
    names: &Names<'_>,
    place: Option<Place>,
    kind: Kind,
    values: &[Const],
) -> Result<(), AllocError>
    ensures { OnOk result (Appends (pieces (cells.initials_set (places.initial_at (option_map spot_of place) kind (map (n.constant_or_zero (names_of names.now)) (map trees.constant values.now))))) code.old code.new) }
{
    match place {
        Some(place) => set_first(code, names, place, kind, values),
        None => Ok(()),
    }
}

/// Where initial values begin: at an array's data, or at the item itself.
fn start_of(place: Option<Place>, array: Option<Array>) -> Option<Place>
    ensures { option_map spot_of result ≡ places.start_of (option_map spot_of place) (option_map array_of array) }
{
    match array {
        Some(array) => Some(array.from),
        None => place,
    }
}

/// Appends what stores the initial value of an item, read with the names before it.
fn set_item(
    code: &mut Code,
    outer: &Table,
    here: &Table,
    kind: Kind,
    list: &ListPlaces,
    item: &Item,
) -> Result<(), AllocError>
    ensures { OnOk result (Appends (pieces (cells.initials_set (item_initial (find (table_of outer.now)) kind (found_in list.now) (find (table_of here.now)) (item_tree item.now)))) code.old code.new) }
{
    let names = seen(here, outer);
    let place = place_named(list, &item.name);
    let start = start_of(place, array_named(list, &item.name));
    set_if_known(code, &names, start, kind, &item.first)
}

/// Appends what stores the initial values of the items of a declaration of data, and declares them.
#[tactic(auto, using(crate::proofs::InitialWalks::item_steps))]
fn set_items(
    code: &mut Code,
    outer: &Table,
    here: &mut Table,
    form: Data,
    list: &ListPlaces,
    items: &[Item],
) -> Result<(), AllocError>
    ensures code { OnOk result (Appends (pieces (cells.initials_set (initials_of_items (find (table_of outer.now)) form.own form.kind (found_in list.now) (find (table_of here.old)) (map item_tree items.now)))) code.old code.new) }
    ensures names { OnOk result (find (table_of here.new) ≡ behind_items (find (table_of outer.now)) form.own form.kind (find (table_of here.old)) (map item_tree items.now)) }
{
    for item in items {
        set_item(code, outer, here, form.kind, list, item)?;
        let sort = shaped_here(outer, here, form, &item.shape);
        declare(here, &item.name, sort)?;
    }
    Ok(())
}

/// Appends what stores the initial values of a declaration whose items are not OWN, and declares what it does.
fn set_declaration(
    alloc: Global,
    code: &mut Code,
    outer: &Table,
    here: &mut Table,
    list: &ListPlaces,
    declaration: &Decl,
) -> Result<(), AllocError>
    ensures code { OnOk result (Appends (pieces (cells.initials_set (initials_of_declaration false (find (table_of outer.now)) (found_in list.now) (find (table_of here.old)) (view.declaration declaration.now)))) code.old code.new) }
    ensures names { OnOk result (find (table_of here.new) ≡ behind_declaration (find (table_of outer.now)) (find (table_of here.old)) (view.declaration declaration.now)) }
{
    match declaration {
        Decl::Data { own, kind, items } => {
            if *own {
                declare_all(alloc, outer, here, declaration)
            } else {
                let form = Data {
                    own: *own,
                    kind: *kind,
                };
                set_items(code, outer, here, form, list, items)
            }
        }
        Decl::Equate(_)
        | Decl::Intrinsic(_)
        | Decl::Label(_)
        | Decl::Forward(_)
        | Decl::External(_)
        | Decl::Procedure(..)
        | Decl::Subroutine(..) => declare_all(alloc, outer, here, declaration),
    }
}

/// Appends what stores the initial values of a list of declarations, of the items that are not OWN, and declares what it
/// does. Places are those of the list, and `here` has the names before it.
#[tactic(auto, using(crate::proofs::InitialWalks::declaration_steps))]
pub fn set_initials(
    alloc: Global,
    code: &mut Code,
    outer: &Table,
    here: &mut Table,
    list: &ListPlaces,
    declarations: &[Decl],
) -> Result<(), AllocError>
    ensures code { OnOk result (Appends (pieces (cells.initials_set (initials_by false (find (table_of outer.now)) (found_in list.now) (find (table_of here.old)) (decl.declarations (map view.declaration declarations.now))))) code.old code.new) }
    ensures names { OnOk result (find (table_of here.new) ≡ behind_declarations (find (table_of outer.now)) (find (table_of here.old)) (decl.declarations (map view.declaration declarations.now))) }
{
    for d in declarations {
        set_declaration(alloc, code, outer, here, list, d)?;
    }
    Ok(())
}
