//! The law of this crate, as the contract of a function that does nothing.
ghost use Rattle.spl_linked_values.specs.Laws.{CoveredValuesAreLinked};

/// Values and references that are covered are so with calls of procedures alone that are linked.
pub fn covered_values_are_linked()
    ensures { CoveredValuesAreLinked }
{}
