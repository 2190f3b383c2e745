//! The rooms of bodies: their local words, depths and results.
#![tactic(auto)]

mod bodies;
mod room_type;
mod units;

pub use room_type::Room;
pub use spl_formals;
pub use units::rooms;
