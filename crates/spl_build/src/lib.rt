//! Programs out of units that break no rule.
#![tactic(auto)]

mod building;

pub use building::{BuildFault, build};
pub use mpe_segmenter::PrepFault;
