//! The laws of this crate, as the contracts of a function that does nothing.
ghost use Rattle.spl_wanted_names.specs.Laws.{ModulesWantFewNames, WantsAreKnown};

/// The code of a unit in a segment wants no more names than its bodies there have calls, and of the system intrinsics alone.
pub fn modules_want_few_names()
    ensures part { ModulesWantFewNames }
    ensures code { WantsAreKnown }
{}
