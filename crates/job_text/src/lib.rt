//! The text of a job: read line by line, or refused at its first faulty line.
#![tactic(auto)]

mod faults;
mod job;
mod laws;
mod parts;
mod reader;
mod reading;
mod rules;
mod taking;

pub use faults::JobFault;
pub use job::{Job, Text};
pub use laws::{
    faults_are_unique, jobs_are_unique, jobs_break_nothing, jobs_fit, lines_are_of_texts,
    prepared_jobs_are_single, texts_are_read,
};
pub use reader::read_job;
