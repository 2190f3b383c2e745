//! The laws of this crate, as the contract of a function that does nothing.
ghost use Rattle.spl_calls.specs.Laws.{CallsAreWhole, CallsPerform};

/// Calls by themselves.
pub fn covered_calls_perform()
    ensures whole { CallsAreWhole }
    ensures performs { CallsPerform }
{}
