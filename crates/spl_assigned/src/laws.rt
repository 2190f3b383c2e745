//! The laws of this crate, as the contract of a function that does nothing.
ghost use Rattle.spl_assigned.specs.Assigned.{AnswersPut};
ghost use Rattle.spl_assigned.specs.Laws.{AssignmentsAreWhole, AssignmentsPerform};

/// Assignments of values of one word and of DOUBLEs, and of answers alone.
pub fn assignments_perform()
    ensures answers { AnswersPut }
    ensures whole { AssignmentsAreWhole }
    ensures performs { AssignmentsPerform }
{}
