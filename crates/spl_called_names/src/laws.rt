//! The law of this crate, as the contract of a function that does nothing.
ghost use Rattle.spl_called_names.specs.Laws.{ModulesWantWhatIsCalled};

/// Each name that the code of a unit in a segment wants is one that the unit's bodies there call, by what it stands for in them.
pub fn modules_want_what_is_called()
    ensures { ModulesWantWhatIsCalled }
{}
