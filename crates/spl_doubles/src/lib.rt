//! Values of two words: DOUBLE constants, sums, relations, signs and transfers, and stores, by their code wherever it stands.
#![tactic(auto)]

mod laws;

pub use laws::{
    cells_are_assigned, constants_simulate, elements_are_assigned, extensions_simulate,
    low_words_simulate, relations_simulate, signs_simulate, sums_simulate, variables_are_assigned,
};
