//! The laws of this crate, as the contracts of functions that do nothing.
ghost use Rattle.spl_operands.specs.Laws.{CellsSimulate, ElementsSimulate, CellsAssigned, ElementsAssigned};

/// A word through the word of a name.
pub fn cells_simulate()
    ensures { CellsSimulate }
{}

/// An element, whose index goes to X.
pub fn elements_simulate()
    ensures { ElementsSimulate }
{}

/// A value that is stored through the word of a name.
pub fn cells_are_assigned()
    ensures { CellsAssigned }
{}

/// A value that is stored in an element, whose index waits below it.
pub fn elements_are_assigned()
    ensures { ElementsAssigned }
{}
