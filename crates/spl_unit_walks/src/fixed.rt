//! What is known along the declarations of a unit.
ghost use Rattle.std.specs.Prelude.{◌≡◌, []};
ghost use Rattle.spl_sound.specs.spl_meaning.Names.{find};
ghost use Rattle.spl_unit_laws.specs.spl_places.NameMaps.{entries_of};

use spl_body_scopes::Level;
use spl_layout::Room;
use spl_modules::UnitEntries;
use spl_spots::NameMap;
use spl_tree::SplUnit;

/// What stays the same for a whole unit.
#[derive(Debug, Drop)]
pub struct Fixed<'t> {
    pub unit: &'t SplUnit,
    pub entries: &'t UnitEntries,
    /// The level of its list, behind all declarations.
    pub whole: &'t Level,
    /// No index.
    pub nothing: &'t NameMap<usize>,
    /// The rooms of all bodies of the program.
    pub rooms: &'t [Room],
    pub ghost empty: { find (entries_of nothing.now) ≡ find [] },
}
