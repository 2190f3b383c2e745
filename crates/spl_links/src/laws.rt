//! The laws of this crate, as the contract of a function that does nothing.
ghost use Rattle.spl_links.specs.Laws.{CallsAreWhole, CallsSimulate, CallsPerform};

/// Calls of procedures and subroutines, as values and as statements.
pub fn calls_simulate()
    ensures whole { CallsAreWhole }
    ensures simulates { CallsSimulate }
    ensures performs { CallsPerform }
{}
