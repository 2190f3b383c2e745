//! The laws of this crate, as the contracts of functions that do nothing.
ghost use Rattle.spl_top_fields.specs.Laws.{FieldsOfVariablesPut, FieldsOfCellsPut, FieldsOfElementsPut};

/// Bit fields of variables, of the words to which the words of names lead, and of elements.
pub fn fields_are_put()
    ensures variables { FieldsOfVariablesPut }
    ensures cells { FieldsOfCellsPut }
    ensures elements { FieldsOfElementsPut }
{}
