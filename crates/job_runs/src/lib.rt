//! The sessions of a job: their turns, and the report on where they stand.
#![tactic(auto)]

mod reports;
mod turns;

pub use mpe_turns::{Event, Monitor, OpenFault};
pub use reports::{report_on, summary_on};
pub use turns::take_turns;
