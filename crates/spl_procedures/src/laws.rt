//! The laws of this crate, as the contracts of functions that do nothing.
ghost use Rattle.spl_procedures.specs.Laws.{NoneAreSet, ProceduresAreCalled, RoutinesAreProcedures};

/// A call of a procedure, from PCAL to EXIT.
pub fn procedures_are_called()
    ensures { ProceduresAreCalled }
{}

/// A body without cells and initial values.
pub fn none_are_set()
    ensures { NoneAreSet }
{}

/// The bodies of a unit's procedures.
pub fn routines_are_procedures()
    ensures { RoutinesAreProcedures }
{}
