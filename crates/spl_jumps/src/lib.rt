//! GO TO and RETURN, statements that bear a label, and lists, blocks and arms that take jumps, performed by their code wherever it stands.
#![tactic(auto)]

mod laws;

pub use laws::{arms_land, jumps_perform, labelled_statements_perform, lists_land};
