//! The laws of this crate, as the contracts of functions that do nothing.
ghost use Rattle.spl_subroutines.specs.Laws.{SubroutinesAreCalled, SubroutineBodiesAreSubroutines};

/// A call of a subroutine, from SCAL to SXIT.
pub fn subroutines_are_called()
    ensures { SubroutinesAreCalled }
{}

/// The bodies of subroutines in the body around them.
pub fn subroutine_bodies_are_subroutines()
    ensures { SubroutineBodiesAreSubroutines }
{}
