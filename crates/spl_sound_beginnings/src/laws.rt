//! The laws of this crate, as the contracts of functions that do nothing.
ghost use Rattle.spl_sound_beginnings.specs.Laws.{BodyStatementsBeginWell, ModuleBeginsWell, CodesBeginWell, SoundBodiesAreFound, SoundUnitsAreFound, SoundCodesBeginWell, SoundCodesMayStand};

/// The statements of a body whose names are found begin well: its labels have landings.
pub fn bodies_begin_well()
    ensures { BodyStatementsBeginWell }
{}

/// So does all code of a unit in a segment, where the names of its bodies there are found.
pub fn modules_begin_well()
    ensures part { ModuleBeginsWell }
    ensures code { CodesBeginWell }
{}

/// The statements of a body that break no rule are found, where the names that it sees are.
pub fn sound_bodies_are_found()
    ensures { SoundBodiesAreFound }
{}

/// So are all bodies of units that break no rule and that tokens spell, and their code begins well in each segment.
pub fn sound_units_begin_well()
    ensures found { SoundUnitsAreFound }
    ensures code { SoundCodesBeginWell }
{}

/// So each code of such a unit meets what its place in a program asks of its pieces.
pub fn sound_codes_may_stand()
    ensures { SoundCodesMayStand }
{}
