//! Bit fields on the left of :=, stored by their code wherever it stands.
#![tactic(auto)]

mod laws;

pub use laws::{
    fields_of_cells_are_assigned, fields_of_elements_are_assigned, fields_of_variables_are_assigned,
};
