//! The flat machine: one list for the stack, every segment present, one row for each operation and instruction.
#![tactic(auto)]

mod flat;
mod laws;
mod opening;
mod step;
#[cfg(test)]
mod step_tests;
mod stepping;
#[cfg(test)]
mod tests;
#[cfg(test)]
mod word_tests;

pub use flat::{Flat, OpenFlat};
pub use hp_program;
pub use hp_program::{CodeStore, Defect, Fetched, Program};
pub use hp_session::{Line, Regs};
pub use laws::{ended_runs_stay, runs_continue, steps_add_up};
