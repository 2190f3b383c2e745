//! Readings: which places a body's parts do not hang on.
#![tactic(auto)]

mod laws;

pub use laws::{bodies_read_alike, statements_read_alike};
