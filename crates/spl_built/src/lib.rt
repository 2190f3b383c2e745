//! What it means that a program is built of units, as definitions, beside the code that builds it.
#![tactic(auto)]
