//! Nodes are taken out of the rings and put into them.
ghost use Rattle.std.specs.Prelude.{◌≡◌, ◌<◌, ◌≤◌, ℕ, List, [], ◌∷◌, ◌++◌, length, slice_set, false};
ghost use Rattle.mpe_links.specs.Lists.{times, last_or};
ghost use Rattle.mpe_links.specs.Nodes.{node_at, right_of, IsLink};
ghost use Rattle.mpe_links.specs.Writes.{Same, less_use, less_place};
ghost use Rattle.mpe_links.specs.Rings.{InUse, InPlace, AreFree};

use crate::node::{NONE, Node};
use crate::setters::{set_left, set_newer, set_older, set_right};

/// Takes a node out of the order of use.
pub fn unlink_use(nodes: &mut [Node], oldest: &mut u16, newest: &mut u16, x: u16)
    requires few { length nodes.old ≤ 65535 }
    requires within { x < length nodes.old }
    requires older { IsLink (length nodes.old) (node_at nodes.old x).older }
    requires newer { IsLink (length nodes.old) (node_at nodes.old x).newer }
    ensures taken { (us vs : List ℕ) → InUse nodes.old oldest.old newest.old (us ++ x ∷ vs) → InUse nodes.new oldest.new newest.new (us ++ vs) }
    ensures same { Same less_use nodes.old nodes.new }
{
    let older = nodes[x as usize].older;
    let newer = nodes[x as usize].newer;
    set_newer(nodes, oldest, older, newer);
    set_older(nodes, newest, newer, older);
}

/// Puts a node at the end of the order of use.
pub fn link_last(nodes: &mut [Node], oldest: &mut u16, newest: &mut u16, x: u16)
    requires few { length nodes.old ≤ 65535 }
    requires within { x < length nodes.old }
    requires newest { IsLink (length nodes.old) newest.old }
    ensures put { (us : List ℕ) → times x us ≡ 0 → InUse nodes.old oldest.old newest.old us → InUse nodes.new oldest.new newest.new (us ++ x ∷ []) }
    ensures same { Same less_use nodes.old nodes.new }
{
    let before = *newest;
    set_newer(nodes, oldest, x, NONE);
    set_newer(nodes, oldest, before, x);
    set_older(nodes, newest, x, before);
    set_older(nodes, newest, NONE, x);
}

/// Takes a node out of the order of place.
pub fn unlink_place(nodes: &mut [Node], first: &mut u16, x: u16)
    requires few { length nodes.old ≤ 65535 }
    requires within { x < length nodes.old }
    requires left { IsLink (length nodes.old) (node_at nodes.old x).left }
    requires right { IsLink (length nodes.old) (node_at nodes.old x).right }
    ensures taken { (xs ys : List ℕ) → InPlace nodes.old first.old (xs ++ x ∷ ys) → InPlace nodes.new first.new (xs ++ ys) }
    ensures same { Same less_place nodes.old nodes.new }
    ensures free { (free : ℕ) (fs : List ℕ) → times 65535 fs ≡ 0 → times (node_at nodes.old x).left fs ≡ 0 → AreFree nodes.old free fs → AreFree nodes.new free fs }
{
    let left = nodes[x as usize].left;
    let right = nodes[x as usize].right;
    set_right(nodes, first, left, right);
    set_left(nodes, right, left);
}

/// The link to the right; that of `NONE` is the head of the list.
#[tactic(auto, unfolding(crate::specs::Nodes::node_at))]
pub fn right_at(nodes: &[Node], first: u16, at: u16) -> u16
    requires { IsLink (length nodes.now) at }
    ensures { result ≡ right_of nodes.now first at }
{
    if at == NONE {
        first
    } else {
        nodes[at as usize].right
    }
}

/// Puts a node into the order of place, behind a node or, where that is `NONE`, at the front.
pub fn link_place(nodes: &mut [Node], first: &mut u16, before: u16, x: u16)
    requires few { length nodes.old ≤ 65535 }
    requires within { x < length nodes.old }
    requires before { IsLink (length nodes.old) before }
    requires behind { IsLink (length nodes.old) (right_of nodes.old first.old before) }
    ensures put { (xs ys : List ℕ) → last_or 65535 xs ≡ before → times x (xs ++ ys) ≡ 0 → InPlace nodes.old first.old (xs ++ ys) → InPlace nodes.new first.new (xs ++ x ∷ ys) }
    ensures same { Same less_place nodes.old nodes.new }
    ensures free { (free : ℕ) (fs : List ℕ) → times 65535 fs ≡ 0 → times before fs ≡ 0 → times x fs ≡ 0 → AreFree nodes.old free fs → AreFree nodes.new free fs }
{
    let behind = right_at(nodes, *first, before);
    set_right(nodes, first, x, behind);
    set_right(nodes, first, before, x);
    set_left(nodes, x, before);
    set_left(nodes, behind, x);
}

/// Puts a node in front of the free ones.
#[tactic(auto, unfolding(crate::specs::Nodes::node_at))]
pub fn free_node(nodes: &mut [Node], free: &mut u16, x: u16)
    requires { x < length nodes.old }
    ensures nodes { nodes.new ≡ slice_set nodes.old x (record (node_at nodes.old x) { right = free.old; live = false }) }
    ensures free { free.new ≡ x }
{
    let node = &mut nodes[x as usize];
    node.right = *free;
    node.live = false;
    *free = x;
}
