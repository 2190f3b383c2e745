//! The law of this crate, as the contract of a function that does nothing.
ghost use Rattle.spl_complete_codes.specs.Laws.{CodesAreComplete};

/// The code of a unit in a segment may be finished: each mark that it names is set, and each call has its want or its entry.
pub fn codes_are_complete()
    ensures { CodesAreComplete }
{}
