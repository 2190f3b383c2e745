//! The laws of this crate, as the contract of a function that does nothing.
ghost use Rattle.spl_counts.specs.Laws.{CountsPerform, OwnCounters, PassedCounters};

/// FOR with an INTEGER variable of its own words, or one that is a parameter by reference.
pub fn counts_perform()
    ensures counts { CountsPerform }
    ensures own { OwnCounters }
    ensures passed { PassedCounters }
{}
