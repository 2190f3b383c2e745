//! Tests of the top call. They stand beside the crate that they test, since a crate with tests is proved a second time with them.
#![tactic(auto)]

mod steady;

pub use steady::steady_main;

#[cfg(test)]
mod calls;
#[cfg(test)]
mod faults;
#[cfg(test)]
mod runs;
#[cfg(test)]
mod storms;
