//! The code area of the machine: which segments are loaded, where each lies, and which was used longest ago.
#![tactic(auto)]

mod laws;
mod region;
mod regions;
mod searches;
mod tables;

pub use laws::{
    holes_are_found, holes_are_lowest, regions_lie_apart, regions_lie_inside, small_ones_are_loaded,
};
pub use region::Region;
pub use regions::Regions;
