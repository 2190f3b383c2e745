//! Tables of nodes: made, and a region entered.
ghost use Rattle.std.specs.Prelude.{◌≡◌, ◌≢◌, ◌<◌, ◌≤◌, ℕ, List, [], ◌∷◌, ◌++◌, length, IfOk, true, slice_set};
ghost use Rattle.mpe_links.specs.Lists.{times, last_or};
ghost use Rattle.mpe_links.specs.Nodes.{node_at, right_of, IsLink};
ghost use Rattle.mpe_links.specs.Writes.{less_links};
ghost use Rattle.mpe_links.specs.Rings.{InUse, InPlace, AreFree};
ghost use Rattle.mpe_regions.specs.Fresh.{IsFresh};

use crate::region::Region;
use mpe_links::{NONE, Node, occupy};
use std::alloc::{AllocError, Global};

/// Nodes that are all free, and the first of them.
#[derive(Debug, Drop)]
pub struct FreeNodes {
    pub nodes: Vec<Node>,
    pub free: u16,
}

/// So many free nodes.
pub(crate) fn free_nodes(alloc: Global, count: u16) -> Result<FreeNodes, AllocError>
    ensures { IfOk result (λ f. IsFresh f.nodes.items f.free count) }
{
    let mut nodes = Vec::with_capacity(alloc, count as usize)?;
    let mut free = NONE;
    for i in 0..count {
        nodes.push(Node {
            key: 0,
            place: 0,
            size: 0,
            left: NONE,
            right: free,
            older: NONE,
            newer: NONE,
            live: false,
        })?;
        free = i;
    }
    Ok(FreeNodes { nodes, free })
}

/// Nothing noted, for so many keys.
pub(crate) fn no_guesses(alloc: Global, count: u16) -> Result<Vec<u16>, AllocError>
    ensures { IfOk result (λ v. length v.items ≡ count) }
{
    let mut guesses = Vec::with_capacity(alloc, count as usize)?;
    for i in 0..count {
        guesses.push(NONE)?;
    }
    Ok(guesses)
}

/// Enters a region in the first free node, behind another or, where that is `NONE`, in front of all. Answers which node it is.
pub(crate) fn enter(
    nodes: &mut [Node],
    first: &mut u16,
    oldest: &mut u16,
    newest: &mut u16,
    free: &mut u16,
    before: u16,
    region: Region,
)
    requires few { length nodes.old ≤ 65535 }
    requires within { free.old < length nodes.old }
    requires before { IsLink (length nodes.old) before }
    requires behind { IsLink (length nodes.old) (right_of nodes.old first.old before) }
    requires newest { IsLink (length nodes.old) newest.old }
    ensures placed { (xs ys : List ℕ) → last_or 65535 xs ≡ before → times free.old (xs ++ ys) ≡ 0 → InPlace nodes.old first.old (xs ++ ys) → InPlace nodes.new first.new (xs ++ free.old ∷ ys) }
    ensures used { (us : List ℕ) → times free.old us ≡ 0 → InUse nodes.old oldest.old newest.old us → InUse nodes.new oldest.new newest.new (us ++ free.old ∷ []) }
    ensures spare { (fs : List ℕ) → times 65535 fs ≡ 0 → times before fs ≡ 0 → times free.old fs ≡ 0 → AreFree nodes.old free.old (free.old ∷ fs) → AreFree nodes.new free.new fs }
    ensures others { (k : ℕ) → k ≢ free.old → less_links (node_at nodes.new k) ≡ less_links (node_at nodes.old k) }
    ensures here { less_links (node_at nodes.new free.old) ≡ record { key = region.key; place = region.place; size = region.size; left = 0; right = 0; older = 0; newer = 0; live = true } }
{
    let x = *free;
    *free = fill(nodes, x, region);
    occupy(nodes, first, oldest, newest, before, x);
}

/// Writes a region into a node. Answers the link to the right that it had.
#[tactic(auto, unfolding(mpe_links::specs::Nodes::node_at))]
fn fill(nodes: &mut [Node], x: u16, region: Region) -> u16
    requires { x < length nodes.old }
    ensures right { result ≡ (node_at nodes.old x).right }
    ensures filled { nodes.new ≡ slice_set nodes.old x (record (node_at nodes.old x) { key = region.key; place = region.place; size = region.size; live = true }) }
{
    let node = &mut nodes[x as usize];
    node.key = region.key;
    node.place = region.place;
    node.size = region.size;
    node.live = true;
    node.right
}
