//! The laws of this crate, as the contracts of functions that do nothing.
ghost use Rattle.spl_sites.specs.Laws.{GroundsSayStarts, StartsFit, ModulesFit, ProgramsStand};

/// In the words of a module, the program's ground has the starts of that module.
pub fn grounds_say_starts()
    ensures { GroundsSayStarts }
{}

/// Pieces that begin well fit a ground that says their starts.
pub fn starts_fit()
    ensures { StartsFit }
{}

/// So do those of a finished module, wherever it lies.
pub fn modules_fit()
    ensures { ModulesFit }
{}

/// So the pieces of each module of a program stand from its base to its end.
pub fn programs_stand()
    ensures { ProgramsStand }
{}
