//! The generated jobs: the text of each, by its number.
#![tactic(auto)]

mod growing;
mod jobs;
#[cfg(test)]
mod tests;

pub use job_text::{Job, JobFault, Text, read_job};
pub use jobs::generate;
