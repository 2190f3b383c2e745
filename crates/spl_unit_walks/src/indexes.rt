//! The indexes of procedures and subroutines, as a unit's modules have them.
ghost use Rattle.std.specs.Prelude.{◌≡◌};
ghost use Rattle.spl_sound.specs.spl_meaning.Names.{find};
ghost use Rattle.spl_unit_laws.specs.spl_places.NameMaps.{entries_of};
ghost use Rattle.spl_unit_walks.specs.Views.{fixed_of};

use crate::fixed::Fixed;
use spl_spots::NameMap;

/// The indexes of the procedures of a segment.
pub fn segment_procedures<'t>(fixed: &Fixed<'t>, segment: u16) -> &'t NameMap<usize>
    ensures { find (entries_of result.now) ≡ (fixed_of fixed.now).procedures segment }
{
    match fixed.entries.procedures(segment) {
        Some(map) => map,
        None => fixed.nothing,
    }
}

/// The indexes of a procedure's subroutines.
pub fn own_subroutines<'t>(fixed: &Fixed<'t>, routine: u64) -> &'t NameMap<usize>
    ensures { find (entries_of result.now) ≡ (fixed_of fixed.now).inner routine }
{
    match fixed.entries.inner(routine as usize) {
        Some(map) => map,
        None => fixed.nothing,
    }
}
