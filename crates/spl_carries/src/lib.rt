//! What it means that a program carries sources, as definitions.
#![tactic(auto)]
