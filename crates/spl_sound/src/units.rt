//! Units that break no rule.
ghost use Rattle.std.specs.Prelude.{◌≡◌, ◌≤◌, length, map};
ghost use Rattle.spl_meaning.specs.Sound.{IsSound};
ghost use Rattle.spl_sound.specs.Spelled.{AreSpelled, most_units, source_of};

use spl_tree::SplUnit;

/// Units, at most 32, numbered from 1 in their order, each spelled by tokens within its limits, that break no rule.
#[derive(Debug, Drop)]
pub struct Sound {
    pub units: Vec<SplUnit>,
    ghost few: { length units.items ≤ most_units },
    ghost spelled: { AreSpelled (map source_of units.items) },
    ghost sound: { IsSound (map source_of units.items) },
}

impl Sound {
    /// These units, which break no rule.
    pub fn new(units: Vec<SplUnit>) -> Sound
        requires few { length units.items ≤ most_units }
        requires spelled { AreSpelled (map source_of units.items) }
        requires sound { IsSound (map source_of units.items) }
        ensures { result.units ≡ units }
    {
        Sound { units }
    }
}
