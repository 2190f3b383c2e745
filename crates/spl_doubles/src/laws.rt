//! The laws of this crate, as the contracts of functions that do nothing.
ghost use Rattle.spl_doubles.specs.Laws.{DoubleConstantsSimulate, DoubleSumsSimulate, DoubleRelationsSimulate, DoubleSignsSimulate, LowWordsSimulate, ExtensionsSimulate, DoubleVariablesAssigned, DoubleCellsAssigned, DoubleElementsAssigned};

/// A DOUBLE constant.
pub fn constants_simulate()
    ensures { DoubleConstantsSimulate }
{}

/// + and - of DOUBLEs.
pub fn sums_simulate()
    ensures { DoubleSumsSimulate }
{}

/// A relation of DOUBLEs.
pub fn relations_simulate()
    ensures { DoubleRelationsSimulate }
{}

/// + and - of one DOUBLE.
pub fn signs_simulate()
    ensures { DoubleSignsSimulate }
{}

/// A DOUBLE as a value of one word.
pub fn low_words_simulate()
    ensures { LowWordsSimulate }
{}

/// A value of one word as a DOUBLE.
pub fn extensions_simulate()
    ensures { ExtensionsSimulate }
{}

/// A DOUBLE that is stored in a variable.
pub fn variables_are_assigned()
    ensures { DoubleVariablesAssigned }
{}

/// A DOUBLE that is stored through the word of a name.
pub fn cells_are_assigned()
    ensures { DoubleCellsAssigned }
{}

/// A DOUBLE that is stored in an element, whose index waits below it.
pub fn elements_are_assigned()
    ensures { DoubleElementsAssigned }
{}
