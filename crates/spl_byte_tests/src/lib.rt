//! Comparisons of bytes, as values and as tests, over the code of their references.
#![tactic(auto)]

mod laws;

pub use laws::byte_comparisons_simulate;
