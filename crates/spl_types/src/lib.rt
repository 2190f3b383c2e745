//! The rules of units, and the first rule that units break.
#![tactic(auto)]

mod alike;
mod check_faults;
mod checking;
mod heads;
mod insides;
mod main_bodies;
mod others;
mod procedures;
mod silence;
mod unit_lists;
mod waiting;
mod wanted;

pub use check_faults::CheckFault;
pub use checking::check;
