//! The laws of this crate, as the contracts of functions that do nothing.
ghost use Rattle.spl_variables.specs.Laws.{OwnWordsSimulate, OwnWordsAssigned};

/// A variable of any kind is read.
pub fn own_words_simulate()
    ensures { OwnWordsSimulate }
{}

/// A value of one word is stored in a variable.
pub fn own_words_are_assigned()
    ensures { OwnWordsAssigned }
{}
