//! Seats and terminals of sessions.
#![tactic(auto)]

mod seat;
mod terminal;
#[cfg(test)]
mod tests;

pub use seat::Seat;
pub use terminal::Terminal;
