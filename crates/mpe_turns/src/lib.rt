//! The monitor: sessions take turns over one code area, and each goes on as if it ran alone.
#![tactic(auto)]

mod events;
mod fault;
mod monitor;
mod opening;
mod session;
mod stepping;
mod turn;

pub use fault::OpenFault;
pub use monitor::Monitor;
pub use mpe_worlds::Event;
pub use session::{Session, Turned};

#[cfg(test)]
mod tests;

pub use mpe_worlds::hp_cpu;
