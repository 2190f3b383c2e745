//! The top call: from the words of the command line and the bytes of the input to the bytes of the output.
#![tactic(auto)]

mod answer;
mod answering;
mod exit;
mod filing;
mod linking;
mod programs;
mod ran;
mod running;
mod top;
mod unmade;
mod verbs;

pub use exit::Exit;
pub use job_runs::{Event, Monitor};
pub use ran::Ran;
pub use top::hp3000_main;
