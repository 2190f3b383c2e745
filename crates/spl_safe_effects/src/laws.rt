//! The laws of this crate, as the contracts of functions that do nothing.
ghost use Rattle.spl_safe_effects.specs.Laws.{EffectsAreSafe, AssignmentsAreSafe, StoredEffectsAreSafe, CallStatementsAreSafe};
ghost use Rattle.spl_safe_effects.specs.Laws.{CallsSetCodes, AssignmentsSetCodes, CountersAreSafe};

/// MOVE and SCAN.
pub fn effects_are_safe()
    ensures { EffectsAreSafe }
{}

/// Assignments of values, and of what a MOVE or a SCAN answers.
pub fn assignments_are_safe()
    ensures values { AssignmentsAreSafe }
    ensures answers { StoredEffectsAreSafe }
{}

/// Calls by themselves.
pub fn call_statements_are_safe()
    ensures { CallStatementsAreSafe }
{}

/// What leaves a condition code that is known.
pub fn intrinsics_set_codes()
    ensures calls { CallsSetCodes }
    ensures assignments { AssignmentsSetCodes }
{}

/// The variable of a FOR.
pub fn counters_are_safe()
    ensures { CountersAreSafe }
{}
