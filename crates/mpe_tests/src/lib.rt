//! Tests of the code area and of the gate. They stand beside the crates that they test, since a crate with tests is proved a second time
//! with them.
#![tactic(auto)]

#[cfg(test)]
mod gate;
#[cfg(test)]
mod histories;
#[cfg(test)]
mod regions;
