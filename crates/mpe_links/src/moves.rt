//! What happens to a region: it is entered, used again, or given up.
ghost use Rattle.std.specs.Prelude.{◌≡◌, ◌≢◌, ◌<◌, ◌≤◌, ℕ, List, [], ◌∷◌, ◌++◌, length, false};
ghost use Rattle.mpe_links.specs.Lists.{times, last_or};
ghost use Rattle.mpe_links.specs.Nodes.{node_at, right_of, IsLink};
ghost use Rattle.mpe_links.specs.Writes.{Same, less_use, less_links};
ghost use Rattle.mpe_links.specs.Rings.{InUse, InPlace, AreFree};

use crate::node::Node;
use crate::rings::{free_node, link_last, link_place, unlink_place, unlink_use};

/// Moves a node to the end of the order of use.
pub fn renew(nodes: &mut [Node], oldest: &mut u16, newest: &mut u16, x: u16)
    requires few { length nodes.old ≤ 65535 }
    requires within { x < length nodes.old }
    requires listed { (us vs : List ℕ) × InUse nodes.old oldest.old newest.old (us ++ x ∷ vs) × ((k : ℕ) → 0 < times k (us ++ x ∷ vs) → k < length nodes.old) }
    ensures moved { (us vs : List ℕ) → InUse nodes.old oldest.old newest.old (us ++ x ∷ vs) → InUse nodes.new oldest.new newest.new ((us ++ vs) ++ x ∷ []) }
    ensures same { Same less_use nodes.old nodes.new }
{
    unlink_use(nodes, oldest, newest, x);
    link_last(nodes, oldest, newest, x);
}

/// Gives a node up: it is in neither order, and is the first free one.
pub fn release(
    nodes: &mut [Node],
    first: &mut u16,
    oldest: &mut u16,
    newest: &mut u16,
    free: &mut u16,
    x: u16,
)
    requires few { length nodes.old ≤ 65535 }
    requires within { x < length nodes.old }
    requires left { IsLink (length nodes.old) (node_at nodes.old x).left }
    requires right { IsLink (length nodes.old) (node_at nodes.old x).right }
    requires older { IsLink (length nodes.old) (node_at nodes.old x).older }
    requires newer { IsLink (length nodes.old) (node_at nodes.old x).newer }
    ensures placed { (xs ys : List ℕ) → InPlace nodes.old first.old (xs ++ x ∷ ys) → InPlace nodes.new first.new (xs ++ ys) }
    ensures used { (us vs : List ℕ) → InUse nodes.old oldest.old newest.old (us ++ x ∷ vs) → InUse nodes.new oldest.new newest.new (us ++ vs) }
    ensures freed { (fs : List ℕ) → times 65535 fs ≡ 0 → times x fs ≡ 0 → times (node_at nodes.old x).left fs ≡ 0 → AreFree nodes.old free.old fs → AreFree nodes.new free.new (x ∷ fs) }
    ensures others { (k : ℕ) → k ≢ x → less_links (node_at nodes.new k) ≡ less_links (node_at nodes.old k) }
    ensures dead { (node_at nodes.new x).live ≡ false }
{
    unlink_place(nodes, first, x);
    unlink_use(nodes, oldest, newest, x);
    free_node(nodes, free, x);
}

/// Enters a region in a node, behind another in order of place and last in order of use.
pub fn occupy(
    nodes: &mut [Node],
    first: &mut u16,
    oldest: &mut u16,
    newest: &mut u16,
    before: u16,
    x: u16,
)
    requires few { length nodes.old ≤ 65535 }
    requires within { x < length nodes.old }
    requires before { IsLink (length nodes.old) before }
    requires behind { IsLink (length nodes.old) (right_of nodes.old first.old before) }
    requires newest { IsLink (length nodes.old) newest.old }
    ensures placed { (xs ys : List ℕ) → last_or 65535 xs ≡ before → times x (xs ++ ys) ≡ 0 → InPlace nodes.old first.old (xs ++ ys) → InPlace nodes.new first.new (xs ++ x ∷ ys) }
    ensures used { (us : List ℕ) → times x us ≡ 0 → InUse nodes.old oldest.old newest.old us → InUse nodes.new oldest.new newest.new (us ++ x ∷ []) }
    ensures spare { (free : ℕ) (fs : List ℕ) → times 65535 fs ≡ 0 → times before fs ≡ 0 → times x fs ≡ 0 → AreFree nodes.old free fs → AreFree nodes.new free fs }
    ensures same { Same less_links nodes.old nodes.new }
{
    link_place(nodes, first, before, x);
    link_last(nodes, oldest, newest, x);
}
