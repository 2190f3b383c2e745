//! Pieces in the code of modules: each has an instruction of its kind.
#![tactic(auto)]

mod laws;

pub use laws::{
    bodies_have_kinds, expressions_have_kinds, modules_have_kinds, statements_have_kinds,
};
