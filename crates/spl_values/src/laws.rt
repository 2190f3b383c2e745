//! The laws of this crate, as the contracts of functions that do nothing.
ghost use Rattle.spl_values.specs.Laws.{ConstantsSimulate, VariablesSimulate, SumsSimulate};

/// A word that is pushed.
pub fn constants_simulate()
    ensures { ConstantsSimulate }
{}

/// A variable of one word.
pub fn variables_simulate()
    ensures { VariablesSimulate }
{}

/// Sums and differences of two single words.
pub fn sums_simulate()
    ensures { SumsSimulate }
{}
