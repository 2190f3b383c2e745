//! What is reported of a job, why an input is refused, the listing of a program, and the summary of a generated job, as texts.
#![tactic(auto)]

mod endings;
mod lines;
mod listings;
mod numbers;
mod point;
mod refusals;
mod reports;

pub use listings::listing;
pub use point::Point;
pub use refusals::{FileRefusal, ModulesRefusal, Refusal, UnitRefusal, refusal_line};
pub use reports::{report, summary};
