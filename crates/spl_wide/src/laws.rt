//! The laws of this crate, as the contract of a function that does nothing.
ghost use Rattle.spl_wide.specs.Laws.{WideStoresAreWhole, WideStoresPerform, WideAssignmentsAreWhole, WideAssignmentsPerform};

/// Assignments of DOUBLE expressions.
pub fn wide_assignments_perform()
    ensures whole { WideAssignmentsAreWhole }
    ensures one { WideAssignmentsPerform }
    ensures stores_whole { WideStoresAreWhole }
    ensures stores { WideStoresPerform }
{}
