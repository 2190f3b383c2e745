//! The laws of this crate, as the contracts of functions that do nothing.
ghost use Rattle.spl_seen.specs.Laws.{MainBodiesAreGrounded, RoutinesAreGrounded, SubroutinesAreGrounded, GroundsAreSeen, OuterUsesAreAllowed, InnerUsesAreAllowed, SubroutinesPassNone};

/// The names of a main body are found, near, and as their uses ask.
pub fn main_bodies_are_grounded()
    ensures { MainBodiesAreGrounded }
{}

/// So are those of a procedure.
pub fn routines_are_grounded()
    ensures { RoutinesAreGrounded }
{}

/// And those of a subroutine of one of them.
pub fn subroutines_are_grounded()
    ensures { SubroutinesAreGrounded }
{}

/// And so they are where code is made of them, outside subroutines.
pub fn grounds_are_seen()
    ensures { GroundsAreSeen }
{}

/// What a main body or a procedure uses it may use.
pub fn outer_uses_are_allowed()
    ensures { OuterUsesAreAllowed }
{}

/// So it is with a subroutine that passes no limit.
pub fn inner_uses_are_allowed()
    ensures { InnerUsesAreAllowed }
{}

/// Subroutines of units that pass no limit pass none.
pub fn subroutines_pass_none()
    ensures { SubroutinesPassNone }
{}
