//! The places of items and parameters, in source order.
#![tactic(auto)]

mod items;
mod parameters;
mod place_type;
mod procedures;
mod units;

pub use place_type::Place;
pub use spl_globals;
pub use units::places;
