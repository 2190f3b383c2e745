//! What rows leave, told of the stack: operations, immediate numbers, counts, loads and stores.
#![tactic(auto)]

mod laws;

pub use laws::{
    bit_operators_yield, comparisons_yield, counts_yield, double_operators_yield, immediates_yield,
    integer_operators_yield, loads_yield, logical_operators_yield, placements_yield,
    places_are_there, stores_put, stores_yield,
};
