//! The code of modules, as definitions: what a unit has in a segment, body by body.
#![tactic(auto)]
