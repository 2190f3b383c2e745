//! Worlds: what a monitor stands for, and what turns, evictions and lists of events make of it. It is definitions and their laws;
//! the one type is that of events.
#![tactic(auto)]

mod event;
mod laws;

pub use event::Event;
pub use hp_cpu;
pub use laws::{events_leave_each_alone, turns_leave_each_alone};
