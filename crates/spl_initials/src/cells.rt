//! Cells of arrays and of views of arrays.
ghost use Rattle.std.specs.Prelude.{◌≡◌, map, option_map};
ghost use Rattle.spl_tree.specs.Views.{letters};
ghost use Rattle.spl_sorts.specs.spl_meaning.Names as n;
ghost use Rattle.spl_sorts.specs.spl_meaning.Places as places;
ghost use Rattle.spl_sorts.specs.spl_meaning.Runs as runs;
ghost use Rattle.spl_sorts.specs.Sorts.{sort_of};
ghost use Rattle.spl_places.specs.ListedData.{datum_of};
ghost use Rattle.spl_places.specs.Spots.{spot_of, array_of};
ghost use Rattle.spl_initials.specs.Memory.{memory_of};
ghost use Rattle.spl_initials.specs.Cells.{found_in, cell_by, item_cell, cells_by};

use crate::memory::{store, word_of};
use spl_places::{Array, Datum, ListPlaces, Place, is_own};
use spl_sorts::Sort;
use spl_tree::{Kind, Name};

/// The address of a data word; 0 where a place is none.
pub fn global_address(place: Place) -> u64
    ensures { result ≡ runs.global_address (spot_of place) }
{
    match place {
        Place::DataWord(address) => address,
        Place::AboveBase(_) | Place::BelowBase(_) | Place::BelowReturn(_) => 0,
    }
}

/// The word in the cell of an array whose data begin at an address: that address less the lower bound, twice
/// that for a DOUBLE; for a BYTE the byte address less it.
fn cell_word(kind: Kind, low: i64, address: u64) -> u16
    ensures { result ≡ places.cell_word kind low address }
{
    let from = i128::from(address);
    let below = i128::from(low);
    match kind {
        Kind::Double => word_of(from - 2 * below),
        Kind::Byte => word_of(2 * from - below),
        Kind::Integer | Kind::Logical => word_of(from - below),
    }
}

/// The same through a view: one of bytes has twice the word.
fn viewed(as_bytes: bool, word: u16) -> u16
    ensures { result ≡ places.viewed as_bytes word }
{
    if as_bytes {
        (2 * u32::from(word) % 65536) as u16
    } else {
        word
    }
}

/// Stores a cell, where its place and its array are known.
fn put_cell(words: &mut [u16], place: Option<Place>, as_bytes: bool, array: Option<Array>)
    ensures { memory_of words.new ≡ places.put_cells runs.global_address (places.cell_with (option_map spot_of place) as_bytes (option_map array_of array)) (memory_of words.old) }
{
    if let Some(place) = place {
        if let Some(array) = array {
            let word = cell_word(array.kind, array.low, global_address(array.from));
            let at = global_address(place);
            store(words, u128::from(at), viewed(as_bytes, word));
        }
    }
}

/// The place of a name in a list, where it has one.
#[tactic(auto, unfolding(spl_spots::specs::NameMaps::shown))]
pub fn place_named(list: &ListPlaces, name: &Name) -> Option<Place>
    ensures { option_map spot_of result ≡ (found_in list.now).place (letters name.now) }
{
    list.places.find(name)
}

/// The data of the array of a name in a list, where it is one.
#[tactic(auto, unfolding(spl_spots::specs::NameMaps::shown))]
pub fn array_named(list: &ListPlaces, name: &Name) -> Option<Array>
    ensures { option_map array_of result ≡ (found_in list.now).array (letters name.now) }
{
    list.arrays.find(name)
}

/// Whether a kind is BYTE.
fn is_byte(kind: Kind) -> bool
    ensures { result ≡ places.is_byte_kind kind }
{
    matches!(kind, Kind::Byte)
}

/// Stores the cell of an item, where it is an array or a view of one.
fn put_item_cell(words: &mut [u16], list: &ListPlaces, name: &Name, sort: &Sort)
    ensures { memory_of words.new ≡ places.put_cells runs.global_address (cell_by (found_in list.now) (letters name.now) (sort_of sort.now)) (memory_of words.old) }
{
    match sort {
        Sort::Array { .. } => {
            let place = place_named(list, name);
            put_cell(words, place, false, array_named(list, name));
        }
        Sort::View(kind, _, base) => {
            let place = place_named(list, name);
            put_cell(words, place, is_byte(*kind), array_named(list, base));
        }
        Sort::Simple(..)
        | Sort::Pointer(..)
        | Sort::Value(_)
        | Sort::ByReference(_)
        | Sort::ArrayParameter(_)
        | Sort::Equate(_)
        | Sort::Label
        | Sort::Intrinsic(_)
        | Sort::Procedure(_)
        | Sort::Subroutine(_)
        | Sort::Unknown => {}
    }
}

/// Stores the cell of an item, where it is OWN as is asked.
fn put_datum_cell(words: &mut [u16], own: bool, list: &ListPlaces, datum: &Datum)
    ensures { memory_of words.new ≡ places.put_cells runs.global_address (item_cell own (found_in list.now) (datum_of datum.now)) (memory_of words.old) }
{
    if own == is_own(&datum.sort) {
        put_item_cell(words, list, &datum.name, &datum.sort);
    }
}

/// Stores the cells of a list's items, where they are OWN or where they are not.
pub fn put_cells(words: &mut [u16], own: bool, list: &ListPlaces, items: &[Datum])
    ensures { memory_of words.new ≡ places.put_cells runs.global_address (cells_by own (found_in list.now) (map datum_of items.now)) (memory_of words.old) }
{
    for datum in items {
        put_datum_cell(words, own, list, datum);
    }
}
