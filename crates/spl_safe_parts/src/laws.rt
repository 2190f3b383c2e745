//! The law of this crate, as the contract of a function that does nothing.
ghost use Rattle.spl_safe_parts.specs.Laws.{CoveredPartsAreSafe};

/// The parts of statements that are covered are never lost, where the calls in them are not.
pub fn covered_parts_are_safe()
    ensures { CoveredPartsAreSafe }
{}
