//! Cells of local arrays and of views.
ghost use Rattle.std.specs.Prelude.{◌≡◌, OnOk, map, option_map, false};
ghost use Rattle.hp_word.specs.Words.{word_of};
ghost use Rattle.spl_tree.specs.Views.{letters};
ghost use Rattle.spl_sorts.specs.spl_meaning.Places as places;
ghost use Rattle.spl_sorts.specs.Sorts.{sort_of};
ghost use Rattle.spl_initials.specs.spl_places.ListedData.{datum_of};
ghost use Rattle.spl_initials.specs.spl_places.Spots.{spot_of, array_of};
ghost use Rattle.spl_initials.specs.Cells.{found_in, cell_by, item_cell, cells_by};
ghost use Rattle.spl_body_code.specs.spl_code.Operands.{mode_of};
ghost use Rattle.spl_body_code.specs.spl_code.Stores as stores;
ghost use Rattle.spl_body_code.specs.spl_code.Parts.{piece, pieces};
ghost use Rattle.spl_body_code.specs.spl_code.Appends.{Appends};
ghost use Rattle.spl_body_code.specs.Cells as cells;

use hp_instr::{Instr, Mode, Op, major, shift};
use spl_branch::Code;
use spl_initials::spl_places::{Array, Datum, ListPlaces, Place, is_own};
use spl_initials::{array_named, place_named};
use spl_operations::{Access, address_at, instruct, mode_of, operate, push_word, shift_by};
use spl_sorts::Sort;
use spl_tree::{Kind, Name};
use std::alloc::AllocError;

/// A whole number modulo 65,536.
#[tactic(auto, unfolding(hp_word::specs::Words::word_of))]
pub fn word_of(number: i128) -> u16
    ensures { result ≡ word_of number }
{
    number.rem_euclid(65536) as u16
}

/// The word in the cell of an array whose data begin at an address: that address less the lower bound, twice that for a
/// DOUBLE; for a BYTE the byte address less it.
fn cell_word(kind: Kind, low: i64, address: u64) -> u16
    ensures { result ≡ places.cell_word kind low address }
{
    let from = i128::from(address);
    let below = i128::from(low);
    match kind {
        Kind::Double => word_of(from - 2 * below),
        Kind::Byte => word_of(2 * from - below),
        Kind::Integer | Kind::Logical => word_of(from - below),
    }
}

/// Appends what pushes the word of an array's cell: a constant where its data have an address, else from the base of the
/// frame on.
#[tactic(auto, using(spl_operations::proofs::PutLemmas::pieces_then), unfolding(hp_instr::specs::Fields::is_op))]
fn push_cell(code: &mut Code, array: Array) -> Result<(), AllocError>
    ensures { OnOk result (Appends (pieces (cells.cell_from (spot_of array.from) array.kind array.low)) code.old code.new) }
{
    match array.from {
        Place::DataWord(address) => push_word(code, cell_word(array.kind, array.low, address)),
        Place::AboveBase(above) => {
            address_at(code, Access::Own(array.kind), false, Mode::QPlus(0))?;
            push_word(code, cell_word(array.kind, array.low, above))?;
            operate(code, Op::LADD)
        }
        Place::BelowBase(_) | Place::BelowReturn(_) => Ok(()),
    }
}

/// Appends what doubles a cell for a view of bytes.
fn view(code: &mut Code, as_bytes: bool) -> Result<(), AllocError>
    ensures { OnOk result (Appends (pieces (cells.viewed as_bytes)) code.old code.new) }
{
    if as_bytes {
        shift_by(code, shift::LSL, 1)
    } else {
        Ok(())
    }
}

/// Appends the store of a value of a kind at a place.
#[tactic(auto, unfolding(hp_instr::specs::Given::has_word, hp_instr::specs::Fields::is_reference))]
pub fn store(code: &mut Code, kind: Kind, place: Place) -> Result<(), AllocError>
    ensures { OnOk result (Appends (piece (stores.store kind false false (mode_of 0 (spot_of place)))) code.old code.new) }
{
    let mode = mode_of(0, place)?;
    let (major, second) = match kind {
        Kind::Integer | Kind::Logical => (major::STOR, true),
        Kind::Byte => (major::STB, false),
        Kind::Double => (major::STB, true),
    };
    instruct(
        code,
        Instr::Memory {
            major,
            second,
            x: false,
            i: false,
            mode,
        },
    )
}

/// Appends what sets the cell of an array at a place.
#[tactic(auto, using(spl_operations::proofs::PutLemmas::pieces_then))]
fn set_cell(code: &mut Code, place: Place, as_bytes: bool, array: Array) -> Result<(), AllocError>
    ensures { OnOk result (Appends (pieces (cells.cell_set (record { place = spot_of place; array = array_of array; as_bytes = as_bytes }))) code.old code.new) }
{
    push_cell(code, array)?;
    view(code, as_bytes)?;
    store(code, Kind::Integer, place)
}

/// Appends what sets a cell, where its place and its array are known.
fn set_if_known(
    code: &mut Code,
    place: Option<Place>,
    as_bytes: bool,
    array: Option<Array>,
) -> Result<(), AllocError>
    ensures { OnOk result (Appends (pieces (cells.cells_set (places.cell_with (option_map spot_of place) as_bytes (option_map array_of array)))) code.old code.new) }
{
    if let Some(place) = place {
        if let Some(array) = array {
            set_cell(code, place, as_bytes, array)?;
        }
    }
    Ok(())
}

/// Whether a kind is BYTE.
fn is_byte(kind: Kind) -> bool
    ensures { result ≡ places.is_byte_kind kind }
{
    matches!(kind, Kind::Byte)
}

/// Appends what sets the cell of an item, where it is an array or a view of one.
fn set_item_cell(
    code: &mut Code,
    list: &ListPlaces,
    name: &Name,
    sort: &Sort,
) -> Result<(), AllocError>
    ensures { OnOk result (Appends (pieces (cells.cells_set (cell_by (found_in list.now) (letters name.now) (sort_of sort.now)))) code.old code.new) }
{
    match sort {
        Sort::Array { .. } => {
            let place = place_named(list, name);
            set_if_known(code, place, false, array_named(list, name))
        }
        Sort::View(kind, _, base) => {
            let place = place_named(list, name);
            set_if_known(code, place, is_byte(*kind), array_named(list, base))
        }
        Sort::Simple(..)
        | Sort::Pointer(..)
        | Sort::Value(_)
        | Sort::ByReference(_)
        | Sort::ArrayParameter(_)
        | Sort::Equate(_)
        | Sort::Label
        | Sort::Intrinsic(_)
        | Sort::Procedure(_)
        | Sort::Subroutine(_)
        | Sort::Unknown => Ok(()),
    }
}

/// Appends what sets the cell of an item that is not OWN.
fn set_datum_cell(code: &mut Code, list: &ListPlaces, datum: &Datum) -> Result<(), AllocError>
    ensures { OnOk result (Appends (pieces (cells.cells_set (item_cell false (found_in list.now) (datum_of datum.now)))) code.old code.new) }
{
    if is_own(&datum.sort) {
        Ok(())
    } else {
        set_item_cell(code, list, &datum.name, &datum.sort)
    }
}

/// Appends what sets the cells of a list's items that are not OWN, in order.
#[tactic(auto, using(crate::proofs::CellWalks::cell_steps))]
pub fn set_cells(code: &mut Code, list: &ListPlaces, items: &[Datum]) -> Result<(), AllocError>
    ensures { OnOk result (Appends (pieces (cells.cells_set (cells_by false (found_in list.now) (map datum_of items.now)))) code.old code.new) }
{
    for datum in items {
        set_datum_cell(code, list, datum)?;
    }
    Ok(())
}
