//! The scopes of the statements of bodies, in which results are variables behind all others.
#![tactic(auto)]

mod levels;
mod scopes;

pub use levels::{no_names, with_results};
pub use scopes::statement_scope;
