//! How deep statements nest in what tokens spell, and how much waits there, as laws.
#![tactic(auto)]

mod laws;

pub use laws::{
    depths_fit, few_fors_nest, few_parts_wait, few_parts_wait_in_units, parts_have_few_words,
    spelled_units_nest, statements_nest,
};
