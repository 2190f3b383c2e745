//! Tests of the layout of whole programs: where their data stand and what their bodies need, beside numbers that were worked out by hand.
#![tactic(auto)]

#[cfg(test)]
mod layouts;
