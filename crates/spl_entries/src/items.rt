//! The places of items.
ghost use Rattle.std.specs.Prelude.{◌≡◌, ◌++◌, OnOk, IfOk, map};
ghost use Rattle.spl_sorts.specs.Sorts.{sort_of};
ghost use Rattle.spl_globals.specs.spl_places.ListedData.{datum_of};
ghost use Rattle.spl_globals.specs.spl_places.Spots.{behind_item};
ghost use Rattle.spl_entries.specs.Entries as entries;

use crate::place_type::Place;
use spl_formals::above;
use spl_formals::spl_spots::plus;
use spl_globals::spl_places::{Datum, Starts, array_words, is_own, item_words};
use spl_sorts::Sort;
use std::alloc::AllocError;

/// Where the next item stands, behind one. An error is as in `plus`.
fn behind(at: Starts, sort: &Sort) -> Result<Starts, AllocError>
    ensures { IfOk result (λ next. next ≡ behind_item at (sort_of sort.now)) }
{
    let items = item_words(sort);
    let arrays = array_words(sort)?;
    if is_own(sort) {
        Ok(Starts {
            own: plus(at.own, items)?,
            own_arrays: plus(at.own_arrays, arrays)?,
            here: at.here,
            here_arrays: at.here_arrays,
        })
    } else {
        Ok(Starts {
            own: at.own,
            own_arrays: at.own_arrays,
            here: plus(at.here, items)?,
            here_arrays: plus(at.here_arrays, arrays)?,
        })
    }
}

/// Where an array's data begin, if an item is an array.
fn array_word(at: Starts, sort: &Sort) -> Option<u16>
    ensures { result ≡ entries.array_word at (sort_of sort.now) }
{
    match sort {
        Sort::Array { own, .. } => {
            if *own {
                Some(above(at.own_arrays))
            } else {
                Some(above(at.here_arrays))
            }
        }
        Sort::Simple(..)
        | Sort::View(..)
        | Sort::Pointer(..)
        | Sort::Value(_)
        | Sort::ByReference(_)
        | Sort::ArrayParameter(_)
        | Sort::Equate(_)
        | Sort::Label
        | Sort::Intrinsic(_)
        | Sort::Procedure(_)
        | Sort::Subroutine(_)
        | Sort::Unknown => None,
    }
}

/// The place of an item.
fn item_place(at: Starts, datum: &Datum) -> Place
    ensures { result ≡ entries.item_entry at (datum_of datum.now) }
{
    let word = if is_own(&datum.sort) { at.own } else { at.here };
    Place {
        at: datum.at,
        word: above(word),
        array: array_word(at, &datum.sort),
    }
}

/// The places of items in order, where the first stands there.
#[tactic(auto, using(crate::proofs::EntryWalks::item_steps))]
pub fn item_places(at: Starts, items: &[Datum], all: &mut Vec<Place>) -> Result<(), AllocError>
    ensures { OnOk result (all.new.items ≡ all.old.items ++ entries.item_entries at (map datum_of items.now)) }
{
    let mut next = at;
    for datum in items {
        all.push(item_place(next, datum))?;
        next = behind(next, &datum.sort)?;
    }
    Ok(())
}
