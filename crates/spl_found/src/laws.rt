//! The laws of this crate, as the contracts of functions that do nothing.
ghost use Rattle.spl_found.specs.FoundDeclarations.{FirstRulesAreFound};
ghost use Rattle.spl_found.specs.FoundUnits.{FirstRulesAreWalked};

/// What is found along the trees of units, part by part, is the first rule that they break.
pub fn first_rules_are_found()
    ensures { FirstRulesAreFound }
{}

/// So is what is found where FORWARDs wait by their names, and their bodies are looked for from the last declaration back.
pub fn first_rules_are_walked()
    ensures { FirstRulesAreWalked }
{}
