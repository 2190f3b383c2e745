//! Tests of tokens. They stand beside the crate that they test, since a crate with tests is proved a second time with them.
#![tactic(auto)]

#[cfg(test)]
mod tokens;
