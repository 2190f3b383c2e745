//! The laws of this crate, as the contracts of functions that do nothing.
ghost use Rattle.spl_endings.specs.Laws.{TerminatePerforms, QuitPerforms, LastCallsEnd};

/// TERMINATE, and QUIT with a value, as statements.
pub fn ending_calls_perform()
    ensures terminate { TerminatePerforms }
    ensures quit { QuitPerforms }
{}

/// The call behind a main body.
pub fn last_calls_end()
    ensures { LastCallsEnd }
{}
