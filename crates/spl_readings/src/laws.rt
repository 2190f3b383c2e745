//! The laws of this crate, as the contracts of functions that do nothing.
ghost use Rattle.spl_readings.specs.Readings.{BodiesReadAlike, StatementsReadAlike};

/// A body means the same with two tables of places that differ at names of procedures and subroutines alone.
pub fn bodies_read_alike()
    ensures { BodiesReadAlike }
{}

/// And so do statements in order that take no jump.
pub fn statements_read_alike()
    ensures { StatementsReadAlike }
{}
