//! The laws of this crate, as the contracts of functions that do nothing.
ghost use Rattle.hp_near_calls.specs.Laws.{StepsStayNear, SubroutineCallsAreNear};

/// A step stays in its segment, or begins and ends in whole mode.
pub fn steps_stay_near()
    ensures { StepsStayNear }
{}

/// What does what a call of a subroutine does, does it in the subroutine's segment.
pub fn subroutine_calls_are_near()
    ensures { SubroutineCallsAreNear }
{}
