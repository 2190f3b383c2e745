//! A processor over any store of code: one step is one step of the flat machine, or the answer that a segment is absent.
#![tactic(auto)]

mod acts;
mod cpu;
mod pairs;
mod step;
mod transfers;
mod words;

pub use cpu::{Cpu, Stepped};
pub use hp_calls;
pub use hp_calls::Phase;
pub use hp_fields;
pub use hp_flat;
pub use hp_memref;
pub use hp_moves;
pub use hp_session::Regs;
pub use hp_stackops;
pub use hp_tos::Stack;
