//! Operators of single words, given by their code wherever it stands.
#![tactic(auto)]

mod laws;

pub use laws::{
    bits_simulate, fields_simulate, products_simulate, quotients_simulate, shifts_simulate,
    signs_simulate, transfers_simulate,
};
