//! A program, from the texts of its units: units that break no rule and pass no limit, or the first fault of the texts.
#![tactic(auto)]

mod faults;
mod reading;

pub use faults::ProgramFault;
pub use reading::read_program;
pub use spl_sound::Sound;
