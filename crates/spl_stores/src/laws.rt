//! The laws of this crate, as the contracts of functions that do nothing.
ghost use Rattle.spl_stores.specs.Laws.{AssignmentsPerform, CoveredStatementsAreWhole, CoveredStatementsPerform, CoveredListsPerform};

/// A value is stored in a variable of one word.
pub fn assignments_perform()
    ensures { AssignmentsPerform }
{}

/// All statements that are covered, and lists of them.
pub fn covered_statements_perform()
    ensures whole { CoveredStatementsAreWhole }
    ensures one { CoveredStatementsPerform }
    ensures all { CoveredListsPerform }
{}
