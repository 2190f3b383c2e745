//! Where the data of units stand.
ghost use Rattle.std.specs.Prelude.{◌≡◌, ◌+◌, IfOk, map};
ghost use Rattle.spl_sorts.specs.spl_meaning.Bodies as bodies;
ghost use Rattle.spl_areas.specs.spl_sound.Spelled.{source_of};
ghost use Rattle.spl_initials.specs.spl_places.Programs.{NewInAll};
ghost use Rattle.spl_initials.specs.spl_places.ListedData.{datum_of};
ghost use Rattle.spl_globals.specs.Stored.{first_areas, areas_of, words_of, behind_owns, behind_globals};

use spl_areas::{all_globals, all_locals};
use spl_initials::spl_places::{Datum, Part, total};
use spl_initials::spl_spots::plus;
use spl_tree::SplUnit;
use std::alloc::{AllocError, Global};

/// Where the data of the next unit start, as addresses: its globals, the data of their arrays, its OWN items, and the
/// data of their arrays.
#[derive(Clone, Copy, Debug, PartialEq, Eq)]
pub struct Areas {
    pub primary: u64,
    pub secondary: u64,
    pub own: u64,
    pub own_arrays: u64,
}

/// The sums of the words of these items.
fn sums(globals: &[Datum], locals: &[Datum]) -> Result<(Areas, u64), AllocError>
    ensures areas { IfOk result (λ r. r.0 ≡ areas_of (map datum_of globals.now) (map datum_of locals.now)) }
    ensures words { IfOk result (λ r. r.1 ≡ words_of (map datum_of globals.now) (map datum_of locals.now)) }
{
    let own = total(Part::Items, false, globals)?;
    let secondary = plus(own, total(Part::Items, true, locals)?)?;
    let own_arrays = plus(secondary, total(Part::Arrays, false, globals)?)?;
    let words = plus(own_arrays, total(Part::Arrays, true, locals)?)?;
    let areas = Areas {
        primary: 0,
        secondary,
        own,
        own_arrays,
    };
    Ok((areas, words))
}

/// Where the data of the first unit start, and how many data words there are. An error is want of memory, or a sum
/// beyond `u64`.
pub fn first_areas(alloc: Global, units: &[SplUnit]) -> Result<(Areas, u64), AllocError>
    requires { NewInAll (map source_of units.now) }
    ensures areas { IfOk result (λ r. r.0 ≡ first_areas (map source_of units.now)) }
    ensures words { IfOk result (λ r. r.1 ≡ bodies.data_words (map source_of units.now)) }
{
    let globals = all_globals(alloc, units)?;
    let locals = all_locals(alloc, units)?;
    let found = sums(&globals, &locals)?;
    Ok(found)
}

/// Behind globals.
pub fn behind_globals(at: Areas, items: &[Datum]) -> Result<Areas, AllocError>
    ensures { IfOk result (λ next. next ≡ behind_globals at (map datum_of items.now)) }
{
    Ok(Areas {
        primary: plus(at.primary, total(Part::Items, false, items)?)?,
        secondary: plus(at.secondary, total(Part::Arrays, false, items)?)?,
        own: at.own,
        own_arrays: at.own_arrays,
    })
}

/// Behind the items of a procedure, of which those that are OWN count.
pub fn behind_owns(at: Areas, items: &[Datum]) -> Result<Areas, AllocError>
    ensures { IfOk result (λ next. next ≡ behind_owns at (map datum_of items.now)) }
{
    Ok(Areas {
        primary: at.primary,
        secondary: at.secondary,
        own: plus(at.own, total(Part::Items, true, items)?)?,
        own_arrays: plus(at.own_arrays, total(Part::Arrays, true, items)?)?,
    })
}
