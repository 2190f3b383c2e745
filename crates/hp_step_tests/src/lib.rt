//! Tests of the instructions and of the processor over the register stack. They stand beside the crates that they test, since a
//! crate with tests is proved a second time with them.
#![tactic(auto)]

#[cfg(test)]
mod calls;
#[cfg(test)]
mod fields;
#[cfg(test)]
mod moves;
#[cfg(test)]
mod operations;
#[cfg(test)]
mod processor;
#[cfg(test)]
mod references;
#[cfg(test)]
mod stacks;
