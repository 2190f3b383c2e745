//! Where a line of a job stands.

/// Where a line stands.
#[derive(Clone, Copy, Debug, PartialEq, Eq)]
pub enum Place {
    /// Before the first line was read.
    Start,
    /// Outside units and sessions.
    Outside,
    InUnit,
    InSession,
    /// Behind the end of the job.
    Ended,
}
