//! The laws of this crate, as the contracts of functions that do nothing.
ghost use Rattle.spl_targets.specs.Laws.{WordStoresAreWhole, WordStoresPerform, WordsAssignedAreWhole, WordsAssigned};

/// An assignment of one word to what a name or its word leads to, by index or not.
pub fn words_are_assigned()
    ensures whole { WordsAssignedAreWhole }
    ensures one { WordsAssigned }
    ensures stores_whole { WordStoresAreWhole }
    ensures stores { WordStoresPerform }
{}
