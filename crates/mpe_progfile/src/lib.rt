//! Program files, written and read.
#![tactic(auto)]

mod faults;
mod file;
mod laws;
mod reader;
mod writer;

pub use faults::FileFault;
pub use file::read;
pub use laws::{files_are_no_fronts, files_are_of_one_program, files_are_read};
pub use writer::write;
