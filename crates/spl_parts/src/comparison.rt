//! Two references with a relation between them.
ghost use Rattle.std.specs.Prelude.{◌<◌};

use spl_tree::{At, Ref};

/// A comparison that may be one of words or, with a count behind it, one of bytes.
#[derive(Debug, Drop)]
pub struct Comparison {
    /// The number of the relation.
    pub op: u8,
    pub left: Ref,
    pub right: Ref,
    /// The place of its first token.
    pub at: At,
    ghost is_relation: { op < 6 },
}
