//! What is left of a job that ran.
use job_runs::Monitor;

/// What is left of a job that ran.
#[derive(Drop)]
pub enum Ran {
    /// The monitor, as the last turn left it.
    Plain(Monitor),
}
