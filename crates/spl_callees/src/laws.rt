//! The laws of this crate, as the contract of a function that does nothing.
ghost use Rattle.spl_callees.specs.Callees.{CalleesFollow, CalleesFollowWithin};

use spl_cells::settable_procedures_are_called;
use spl_subroutines::subroutines_are_called;

/// By the number of calls one within another, procedures that call each other and their subroutines are followed; and so are
/// procedures in which no subroutine may be called.
pub fn callees_follow()
    ensures within { CalleesFollowWithin }
    ensures alone { CalleesFollow }
{
    settable_procedures_are_called();
    subroutines_are_called();
}
