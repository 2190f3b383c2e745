//! The laws of this crate, as the contracts of functions that do nothing.
ghost use Rattle.spl_field_stores.specs.Laws.{FieldsOfVariablesAssigned, FieldsOfCellsAssigned, FieldsOfElementsAssigned};

/// A bit field of a variable.
pub fn fields_of_variables_are_assigned()
    ensures { FieldsOfVariablesAssigned }
{}

/// One of the word to which the word of a name leads.
pub fn fields_of_cells_are_assigned()
    ensures { FieldsOfCellsAssigned }
{}

/// One of an element, whose index waits below the value.
pub fn fields_of_elements_are_assigned()
    ensures { FieldsOfElementsAssigned }
{}
