//! The laws of this crate, as the contract of a function that does nothing.
ghost use Rattle.spl_whom.specs.Laws.{NamedCallsAreWhole, NamedCallsSimulate};

/// Calls of procedures, subroutines and intrinsics by their names, as values.
pub fn named_calls_simulate()
    ensures whole { NamedCallsAreWhole }
    ensures simulates { NamedCallsSimulate }
{}
