//! The laws of this crate, as the contracts of functions that do nothing.
ghost use Rattle.spl_routes.specs.Laws.{EntriesFind, WantsFind, RoutinesLand, NamesMean};

use spl_sound_jumps::sound_routines_land;

/// A call of a procedure leads to the code of the procedure of its name: by an entry of its module, or by a name that this wants.
pub fn calls_find()
    ensures entries { EntriesFind }
    ensures wants { WantsFind }
{}

/// Labels and jumps of a procedure that breaks no rule lead somewhere.
pub fn routines_land()
    ensures { RoutinesLand }
{
    sound_routines_land();
}

/// A procedure whose name no other has is the one that a program means by it.
pub fn names_mean()
    ensures { NamesMean }
{}
