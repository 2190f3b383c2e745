//! One link is written.
ghost use Rattle.std.specs.Prelude.{ℕ, ◌==◌, if◌then◌else◌, length};
ghost use Rattle.mpe_links.specs.Nodes.{right_of, left_of, newer_of, older_of, IsLink, less_right, less_left, less_newer, less_older};
ghost use Rattle.mpe_links.specs.Ways.{Writes};
ghost use Rattle.mpe_links.specs.Writes.{Same};

use crate::node::{NONE, Node};

/// Writes the link to the right; that of `NONE` is the head of the list.
pub(crate) fn set_right(nodes: &mut [Node], first: &mut u16, at: u16, to: u16)
    requires { IsLink (length nodes.old) at }
    ensures written { Writes (right_of nodes.old first.old) (right_of nodes.new first.new) at to }
    ensures same { Same less_right nodes.old nodes.new }
{
    if at == NONE {
        *first = to;
    } else {
        nodes[at as usize].right = to;
    }
}

/// Writes the link to the left. The last of a list has no head, so where `NONE` would stand nothing is written.
pub(crate) fn set_left(nodes: &mut [Node], at: u16, to: u16)
    requires { IsLink (length nodes.old) at }
    ensures written { (last : ℕ) → Writes (left_of nodes.old last) (left_of nodes.new (if at == 65535 then to else last)) at to }
    ensures same { Same less_left nodes.old nodes.new }
{
    if at != NONE {
        nodes[at as usize].left = to;
    }
}

/// Writes the link to the next newer one; that of `NONE` is the oldest.
pub(crate) fn set_newer(nodes: &mut [Node], oldest: &mut u16, at: u16, to: u16)
    requires { IsLink (length nodes.old) at }
    ensures written { Writes (newer_of nodes.old oldest.old) (newer_of nodes.new oldest.new) at to }
    ensures same { Same less_newer nodes.old nodes.new }
{
    if at == NONE {
        *oldest = to;
    } else {
        nodes[at as usize].newer = to;
    }
}

/// Writes the link to the next older one; that of `NONE` is the newest.
pub(crate) fn set_older(nodes: &mut [Node], newest: &mut u16, at: u16, to: u16)
    requires { IsLink (length nodes.old) at }
    ensures written { Writes (older_of nodes.old newest.old) (older_of nodes.new newest.new) at to }
    ensures same { Same less_older nodes.old nodes.new }
{
    if at == NONE {
        *newest = to;
    } else {
        nodes[at as usize].older = to;
    }
}
