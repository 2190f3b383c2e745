//! What fits where a program passes no limit of places.
#![tactic(auto)]

mod laws;

pub use laws::{locals_fit, own_items_stand_apart, programs_fit, units_stand_in_order};
