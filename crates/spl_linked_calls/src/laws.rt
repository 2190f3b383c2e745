//! The law of this crate, as the contract of a function that does nothing.
ghost use Rattle.spl_linked_calls.specs.Laws.{CoveredListsAreLinked};

/// Statements that are covered are so with calls of procedures alone that are linked.
pub fn covered_lists_are_linked()
    ensures { CoveredListsAreLinked }
{}
