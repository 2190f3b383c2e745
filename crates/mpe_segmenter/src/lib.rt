//! Programs out of modules: segments, their entries, and what is put into the words.
#![tactic(auto)]

mod counts;
mod defined;
mod entering;
mod entries;
mod faults;
mod fixes;
mod gates;
mod homes;
mod labels;
mod laying;
mod mains;
mod names;
mod parts;
mod places;
mod preparing;
mod program;
mod segments;
mod tables;
mod wants;

pub use counts::{are_ready, is_well_formed};
pub use faults::PrepFault;
pub use gates::gate_number;
pub use preparing::prepare;
