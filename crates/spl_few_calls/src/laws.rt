//! The laws of this crate, as the contracts of a function that does nothing.
ghost use Rattle.spl_few_calls.specs.Laws.{FewCalls, FewCallsInUnits};

/// In a unit that tokens spell there are no more calls and entries than tokens, and so in each unit of a program at most as many
/// as tokens may be.
pub fn units_have_few_calls()
    ensures tokens { FewCalls }
    ensures units { FewCallsInUnits }
{}
