//! The laws of this crate, as the contracts of functions that do nothing.
ghost use Rattle.spl_safe_calls.specs.Laws.{CallsAreNeverLost, ReadyProgramsAreNeverLost};

use spl_frames::values_have_their_words;

/// Where all procedures are ready, and so is a body, the calls in it are never lost.
pub fn calls_are_safe()
    ensures { CallsAreNeverLost }
{
    values_have_their_words();
}

/// A program whose procedures and whose main body are ready is never lost.
pub fn programs_are_safe()
    ensures { ReadyProgramsAreNeverLost }
{
    values_have_their_words();
}
