//! Searches in the table: for a key, and for a hole.
ghost use Rattle.std.specs.Prelude.{◌≡◌, ◌<◌, ◌^◌, ℕ, List, length, IfSome, true, option_map, nat_lt, if◌then◌else◌, None, Some};
ghost use Rattle.mpe_links.specs.Nodes.{node_at};
ghost use Rattle.mpe_regions.specs.Searches.{sought, last_hole, hole_sought};
ghost use Rattle.mpe_regions.specs.LinkedForm.{IsListed, found_in, region_at, key_at};

use crate::region::Region;
use mpe_links::{NONE, Node};

/// A hole: where it begins, in words from the start of the area, and the node that lies before it, or `NONE`.
#[derive(Clone, Copy, Debug, PartialEq, Eq)]
pub struct Hole {
    pub place: u32,
    pub before: u16,
}

/// The node that is noted for a key, where it has that key. No region is walked over.
#[tactic(auto, unfolding(mpe_links::specs::Nodes::node_at))]
fn guessed(nodes: &[Node], guesses: &[u16], key: u32) -> Option<u16>
    ensures { IfSome result (λ x. (x < length nodes.now) × ((node_at nodes.now x).live ≡ true) × ((node_at nodes.now x).key ≡ key)) }
{
    let Some(&x) = guesses.get(key as usize) else {
        return None;
    };
    if x as usize >= nodes.len() {
        return None;
    }
    let node = nodes[x as usize];
    if node.live && node.key == key {
        Some(x)
    } else {
        None
    }
}

/// The first node with a key, from the first region on.
#[tactic(auto, unfolding(mpe_links::specs::Nodes::node_at))]
fn searched(nodes: &[Node], first: u16, key: u32) -> Option<u16>
    ensures { result ≡ sought nodes.now key (length nodes.now) first }
{
    let mut at = first;
    for i in 0..nodes.len() {
        if at as usize >= nodes.len() {
            return None;
        }
        let node = nodes[at as usize];
        if node.key == key {
            return Some(at);
        }
        at = node.right;
    }
    None
}

/// The node of a live key.
pub(crate) fn find(nodes: &[Node], guesses: &[u16], first: u16, key: u32) -> Option<u16>
    ensures { (xs : List ℕ) → IsListed nodes.now first xs → result ≡ found_in nodes.now key xs }
{
    match guessed(nodes, guesses, key) {
        Some(x) => Some(x),
        None => searched(nodes, first, key),
    }
}

/// A hole behind a node, where `want` words fit from a place on below an end.
fn last_hole(end: u32, want: u16, from: u64, before: u16) -> Option<Hole>
    requires { from < 2 ^ 33 }
    ensures { result ≡ last_hole end want from before }
{
    if from + want as u64 <= end as u64 {
        Some(Hole {
            place: from as u32,
            before,
        })
    } else {
        None
    }
}

/// The lowest hole of `want` words below an end.
#[tactic(auto, unfolding(mpe_links::specs::Nodes::node_at))]
pub(crate) fn first_hole(nodes: &[Node], first: u16, end: u32, want: u16) -> Option<Hole>
    ensures { result ≡ hole_sought nodes.now end want (length nodes.now) 0 65535 first }
{
    let mut from: u64 = 0;
    let mut before = NONE;
    let mut at = first;
    for i in 0..nodes.len() {
        if at as usize >= nodes.len() {
            return last_hole(end, want, from, before);
        }
        let node = nodes[at as usize];
        if from + want as u64 <= node.place as u64 {
            return Some(Hole {
                place: from as u32,
                before,
            });
        }
        from = node.place as u64 + node.size as u64;
        before = at;
        at = node.right;
    }
    last_hole(end, want, from, before)
}

/// Notes a node for a key.
pub(crate) fn note(guesses: &mut [u16], key: u32, x: u16) {
    if (key as usize) < guesses.len() {
        guesses[key as usize] = x;
    }
}

/// The key in a node, where there is one.
#[tactic(auto, unfolding(mpe_links::specs::Nodes::node_at))]
pub(crate) fn key_in(nodes: &[Node], at: u16) -> Option<u32>
    ensures { result ≡ (if nat_lt at (length nodes.now) then Some (key_at nodes.now at) else None) }
{
    if (at as usize) < nodes.len() {
        Some(nodes[at as usize].key)
    } else {
        None
    }
}

/// The region in a node.
#[tactic(auto, unfolding(mpe_links::specs::Nodes::node_at))]
pub(crate) fn region_in(nodes: &[Node], at: Option<u16>) -> Option<Region>
    requires { IfSome at (λ x. x < length nodes.now) }
    ensures { result ≡ option_map (region_at nodes.now) at }
{
    match at {
        None => None,
        Some(x) => {
            let node = nodes[x as usize];
            Some(Region {
                key: node.key,
                place: node.place,
                size: node.size,
            })
        }
    }
}
