//! The laws of this crate, as the contracts of functions that do nothing but call those whose laws they stand on.
ghost use Rattle.spl_cells.specs.Laws.{SettableAreSet, SettableProceduresAreCalled};

use spl_procedures::procedures_are_called;

/// Cells and initial values at a procedure's entry.
pub fn settable_are_set()
    ensures { SettableAreSet }
{}

/// A call of a procedure that has such ones, from PCAL to EXIT.
pub fn settable_procedures_are_called()
    ensures { SettableProceduresAreCalled }
{
    procedures_are_called();
    settable_are_set();
}
