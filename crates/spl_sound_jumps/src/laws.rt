//! The laws of this crate, as the contracts of functions that do nothing.
ghost use Rattle.spl_sound_jumps.specs.Laws.{SoundBodiesLand, SoundMainsLand, SoundRoutinesLand, SoundInnersLand};

/// Labels and jumps of a body that breaks no rule, and of the main bodies of units that do not.
pub fn sound_jumps_land()
    ensures body { SoundBodiesLand }
    ensures mains { SoundMainsLand }
{}

/// So it is with the procedures of such units.
pub fn sound_routines_land()
    ensures { SoundRoutinesLand }
{}

/// And with the subroutines of main bodies and of procedures, each of which is one statement.
pub fn sound_inners_land()
    ensures { SoundInnersLand }
{}
