//! Tests of jobs and of reports. They stand beside the crates that they test, since a crate with tests is
//! proved a second time with them.
#![tactic(auto)]

#[cfg(test)]
mod lines;
#[cfg(test)]
mod reports;
#[cfg(test)]
mod texts;
