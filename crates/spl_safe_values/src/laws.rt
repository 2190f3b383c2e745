//! The laws of this crate, as the contracts of functions that do nothing.
ghost use Rattle.spl_safe_values.specs.Laws.{CoveredValuesAreSafe, WideValuesAreSafe, ConditionsAreSafe, ArgumentsAreSafe, ReferencesAreSafe};

/// Values of one word.
pub fn covered_values_are_safe()
    ensures { CoveredValuesAreSafe }
{}

/// DOUBLEs.
pub fn wide_values_are_safe()
    ensures { WideValuesAreSafe }
{}

/// Conditions.
pub fn conditions_are_safe()
    ensures { ConditionsAreSafe }
{}

/// Arguments.
pub fn arguments_are_safe()
    ensures { ArgumentsAreSafe }
{}

/// References.
pub fn references_are_safe()
    ensures { ReferencesAreSafe }
{}
