//! Tests of words, of instruction words and of the stack with registers. They stand beside the crates that they test, since a crate
//! with tests is proved a second time with them.
#![tactic(auto)]

#[cfg(test)]
mod instructions;
#[cfg(test)]
mod stacks;
#[cfg(test)]
mod words;
