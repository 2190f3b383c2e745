//! Where the data of a program stand, and what its bodies need.
#![tactic(auto)]

mod layouts;

pub use layouts::{Layout, places};
pub use spl_entries::Place;
pub use spl_entries::spl_globals::first_areas;
pub use spl_limits::LimitFault;
pub use spl_rooms::Room;
