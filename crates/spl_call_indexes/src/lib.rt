//! Calls in the code of modules: each has its want or its entry.
#![tactic(auto)]

mod laws;

pub use laws::{
    bodies_are_indexed, expressions_are_indexed, modules_are_indexed, statements_are_indexed,
};
