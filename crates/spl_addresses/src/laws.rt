//! The laws of this crate, as the contracts of functions that do nothing.
ghost use Rattle.spl_addresses.specs.Laws.{AddressesOfVariablesSimulate, AddressesOfCellsSimulate, AddressesOfElementsSimulate, PointersAssigned};

/// The address of a variable.
pub fn addresses_of_variables_simulate()
    ensures { AddressesOfVariablesSimulate }
{}

/// The address to which the word of a name leads.
pub fn addresses_of_cells_simulate()
    ensures { AddressesOfCellsSimulate }
{}

/// The address of an element, whose index goes to X.
pub fn addresses_of_elements_simulate()
    ensures { AddressesOfElementsSimulate }
{}

/// An address that is stored in a pointer's own word.
pub fn pointers_are_assigned()
    ensures { PointersAssigned }
{}
