//! The laws of this crate, as the contracts of functions that do nothing.
ghost use Rattle.spl_covered.specs.Laws.{CoveredCodeIsWhole, CoveredTestsAreWhole, CoveredValuesSimulate, CoveredTestsSimulate};
ghost use Rattle.spl_covered.specs.Laws.{WideCodeIsWhole, WideValuesSimulate, ArgumentsAreWhole, ArgumentsSimulate};

/// All expressions of one word that are covered, as values.
pub fn covered_values_simulate()
    ensures whole { CoveredCodeIsWhole }
    ensures value { CoveredValuesSimulate }
{}

/// The same as conditions.
pub fn covered_tests_simulate()
    ensures whole { CoveredTestsAreWhole }
    ensures truth { CoveredTestsSimulate }
{}

/// All DOUBLE expressions that are covered.
pub fn wide_values_simulate()
    ensures whole { WideCodeIsWhole }
    ensures value { WideValuesSimulate }
{}

/// Arguments by value and by reference, one for each parameter.
pub fn arguments_simulate()
    ensures whole { ArgumentsAreWhole }
    ensures simulates { ArgumentsSimulate }
{}
