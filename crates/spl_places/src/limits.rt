//! The limits that items pass: 1 the primary area, 2 the local items of a body, 4 data words.
ghost use Rattle.std.specs.Prelude.{◌≡◌, OnOk, map};
ghost use Rattle.spl_sorts.specs.spl_meaning.Limits.{first_among};
ghost use Rattle.spl_places.specs.ListedData.{datum_of};
ghost use Rattle.spl_places.specs.Passed.{global_passed, local_passed};

use crate::counters::{Counter, Part, total};
use crate::data::Datum;
use spl_spots::{FirstFull, plus};
use std::alloc::AllocError;

/// The most words of the primary area.
const MOST_PRIMARY: u64 = 256;

/// The most words of the local items of a body.
const MOST_LOCALS: u64 = 127;

/// The most words of both areas, and of the local words of a body.
const MOST_DATA: u64 = 32_000;

/// The limits of globals, and of the items of procedures, of which those that are OWN count.
///
/// 1: the primary area has more than 256 words. 4: both areas have more than 32,000. An error is as in `plus`.
pub fn global_limits(
    globals: &[Datum],
    locals: &[Datum],
    first: &mut FirstFull,
) -> Result<(), AllocError>
    ensures { OnOk result (first.new ≡ first_among first.old (global_passed (map datum_of globals.now) (map datum_of locals.now))) }
{
    let mut primary = Counter::new(1, MOST_PRIMARY, 0);
    primary.add_all(Part::Items, false, globals, first)?;
    primary.add_all(Part::Items, true, locals, first)?;
    let globals_words = total(Part::Items, false, globals)?;
    let own_words = total(Part::Items, true, locals)?;
    let mut both = Counter::new(4, MOST_DATA, plus(globals_words, own_words)?);
    both.add_all(Part::Arrays, false, globals, first)?;
    both.add_all(Part::Arrays, true, locals, first)?;
    Ok(())
}

/// The limits of the items of a procedure that are not OWN.
///
/// 2: they have more than 127 words. 4: with their arrays' data they have more than 32,000. An error is as in `plus`.
pub fn local_limits(locals: &[Datum], first: &mut FirstFull) -> Result<(), AllocError>
    ensures { OnOk result (first.new ≡ first_among first.old (local_passed (map datum_of locals.now))) }
{
    let mut items = Counter::new(2, MOST_LOCALS, 0);
    items.add_all(Part::Items, false, locals, first)?;
    let words = total(Part::Items, false, locals)?;
    let mut all = Counter::new(4, MOST_DATA, words);
    all.add_all(Part::Arrays, false, locals, first)?;
    Ok(())
}
