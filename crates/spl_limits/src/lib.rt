//! The first limit of places that a program passes.
#![tactic(auto)]

mod bodies;
mod faults;
mod first_limit;
mod units;

pub use faults::LimitFault;
pub use first_limit::limits;
