//! The modules of a program's units: the code of every body, in the segment in which it stands.
#![tactic(auto)]

mod compiling;
mod units;
mod walk;

pub use compiling::compile;
pub use spl_layout::{Layout, LimitFault, places};
