//! The laws of this crate, as the contracts of functions that do nothing.
ghost use Rattle.spl_ruled_bodies.specs.Laws.{RoutinesAreRuled, MainBodiesAreRuled};

/// Where units break no rule, neither do the heading, the list and the statements of a procedure.
pub fn routines_are_ruled()
    ensures { RoutinesAreRuled }
{}

/// So it is with main bodies.
pub fn main_bodies_are_ruled()
    ensures { MainBodiesAreRuled }
{}
