//! The laws of this crate, as the contracts of functions that do nothing.
ghost use Rattle.hp_yields.specs.Laws.{IntegerOperators, LogicalOperators, BitOperators, DoubleOperators, Comparisons, Placements, Immediates, Counts, Loads, Stores, StoresPut, PlacesThere};

/// Operators on INTEGERs leave their result, or trap where it is out of range.
pub fn integer_operators_yield()
    ensures { IntegerOperators }
{}

/// Operators on LOGICALs leave their result.
pub fn logical_operators_yield()
    ensures { LogicalOperators }
{}

/// Operators on bits leave their word and its code.
pub fn bit_operators_yield()
    ensures { BitOperators }
{}

/// Operators on DOUBLEs leave their result, or trap where it is out of range.
pub fn double_operators_yield()
    ensures { DoubleOperators }
{}

/// Comparisons delete their operands and leave their code.
pub fn comparisons_yield()
    ensures { Comparisons }
{}

/// Words are pushed, copied, deleted and exchanged, and no flag and no code changes.
pub fn placements_yield()
    ensures { Placements }
{}

/// Shifts, immediate numbers and fields leave their word.
pub fn immediates_yield()
    ensures { Immediates }
{}

/// ROOM asks for room, ADDS and SUBS push zeros and delete words, SPLT and JOIN change the mode.
pub fn counts_yield()
    ensures { Counts }
{}

/// Loads push what is at their operand, or trap where it is not there.
pub fn loads_yield()
    ensures { Loads }
{}

/// Stores put the top words at their operand and delete them, or trap where it is not there.
pub fn stores_yield()
    ensures { Stores }
{}

/// Stores change one word of the stack or of the extra segment, those of doubles two.
pub fn stores_put()
    ensures { StoresPut }
{}

/// What is read and stored at a place is among the words on its side.
pub fn places_are_there()
    ensures { PlacesThere }
{}
