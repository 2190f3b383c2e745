//! Addresses of what names lead to, as values, and addresses that are stored in pointers, by their code wherever it stands.
#![tactic(auto)]

mod laws;

pub use laws::{
    addresses_of_cells_simulate, addresses_of_elements_simulate, addresses_of_variables_simulate,
    pointers_are_assigned,
};
