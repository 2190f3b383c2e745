//! The table of regions: nodes that are linked in order of place and in order of use. No contract names a field of it.
ghost use Rattle.std.specs.Prelude.{◌≡◌, ◌<◌, nat_le, [], length, IfOk, option_map};
ghost use Rattle.std.specs.Bool.{OnFalse};
ghost use Rattle.mpe_regions.specs.Area.{region_of, is_live, IsAbsent, oldest_of};
ghost use Rattle.mpe_regions.specs.Loads.{hole, put_if, dropped, touched};
ghost use Rattle.mpe_regions.specs.Sound.{IsSound};

use crate::region::Region;
use crate::searches::{find, first_hole, key_in, note, region_in};
use crate::tables::{enter, free_nodes, no_guesses};
use mpe_links::{NONE, Node, release, renew};
use std::alloc::{AllocError, Global};
use std::marker::Model;

/// The regions of an area, each with a key. Only `make` takes memory.
#[derive(Debug, Drop)]
pub struct Regions {
    /// The size of the area, in words.
    pub size: u32,
    /// The nodes: those of regions, and free ones. A hole is none.
    pub nodes: Vec<Node>,
    /// The node of the lowest region, or `NONE`.
    pub first: u16,
    /// The node of the region that was used longest ago, and of the one used last.
    pub oldest: u16,
    pub newest: u16,
    /// The first free node.
    pub free: u16,
    /// For each number below the length of the table, a node that may have a key that leaves it. What is noted is looked at and
    /// not relied on: a search for a key that is live and noted walks over no region.
    pub guesses: Vec<u16>,
}

impl Model for Regions {
    ghost use Rattle.mpe_regions.specs.Kept.{Kept};

    ghost Value = { Kept };

    ghost use Rattle.mpe_regions.specs.LinkedForm.{kept_by, IsTable};

    ghost view = { kept_by };

    ghost invariant = { IsTable };
}

impl Regions {
    /// An empty area of `size` words, with room for `nodes` regions.
    pub fn make(alloc: Global, size: u32, nodes: u16) -> Result<Regions, AllocError>
        ensures empty { IfOk result (λ r. r.area ≡ record { size = size; list = []; order = [] }) }
        ensures room { IfOk result (λ r. r.room ≡ nodes) }
        ensures sound { IfOk result (λ r. IsSound r.area) }
    {
        let table = free_nodes(alloc, nodes)?;
        let guesses = no_guesses(alloc, nodes)?;
        Ok(Regions {
            size,
            nodes: table.nodes,
            first: NONE,
            oldest: NONE,
            newest: NONE,
            free: table.free,
            guesses,
        })
    }

    /// Whether as many regions are live as there is room for.
    pub fn is_full(&self) -> bool
        ensures value { result ≡ nat_le self.now.room (length self.now.area.list) }
        ensures sound { IsSound self.now.area }
    {
        self.free == NONE
    }

    /// Takes the lowest hole of at least `size` words for a new key, which is then the one used last. Answers its
    /// place, and None exactly where no hole is large enough.
    pub fn take(&mut self, key: u32, size: u16) -> Option<u32>
        requires fresh { IsAbsent key self.old.area }
        requires some { 0 < size }
        requires free { length self.old.area.list < self.old.room }
        ensures place { result ≡ hole self.old.area size }
        ensures taken { self.new.area ≡ put_if key size (hole self.old.area size) self.old.area }
        ensures room { self.new.room ≡ self.old.room }
        ensures sound { IsSound self.new.area }
    {
        match first_hole(&self.nodes, self.first, self.size, size) {
            None => None,
            Some(hole) => {
                let x = self.free;
                let place = hole.place;
                enter(
                    &mut self.nodes,
                    &mut self.first,
                    &mut self.oldest,
                    &mut self.newest,
                    &mut self.free,
                    hole.before,
                    Region { key, place, size },
                );
                note(&mut self.guesses, key, x);
                Some(place)
            }
        }
    }

    /// Gives a region up. Answers whether the key was live; where it was not, nothing changes.
    pub fn give(&mut self, key: u32) -> bool
        ensures live { result ≡ is_live key self.old.area }
        ensures dropped { self.new.area ≡ dropped key self.old.area }
        ensures kept { OnFalse result (self.new ≡ self.old) }
        ensures room { self.new.room ≡ self.old.room }
        ensures sound { IsSound self.new.area }
    {
        match find(&self.nodes, &self.guesses, self.first, key) {
            None => false,
            Some(x) => {
                release(
                    &mut self.nodes,
                    &mut self.first,
                    &mut self.oldest,
                    &mut self.newest,
                    &mut self.free,
                    x,
                );
                true
            }
        }
    }

    /// Makes a region the one used last. Answers whether the key was live; where it was not, nothing changes.
    pub fn touch(&mut self, key: u32) -> bool
        ensures live { result ≡ is_live key self.old.area }
        ensures touched { self.new.area ≡ touched key self.old.area }
        ensures kept { OnFalse result (self.new ≡ self.old) }
        ensures room { self.new.room ≡ self.old.room }
        ensures sound { IsSound self.new.area }
    {
        match find(&self.nodes, &self.guesses, self.first, key) {
            None => false,
            Some(x) => {
                renew(&mut self.nodes, &mut self.oldest, &mut self.newest, x);
                true
            }
        }
    }

    /// The key that was used longest ago, and None exactly where no key is live.
    pub fn oldest(&self) -> Option<u32>
        ensures value { result ≡ oldest_of self.now.area }
        ensures sound { IsSound self.now.area }
    {
        key_in(&self.nodes, self.oldest)
    }

    /// The region of a key, and None exactly where the key is not live.
    pub fn region(&self, key: u32) -> Option<Region>
        ensures value { result ≡ region_of key self.now.area.list }
        ensures sound { IsSound self.now.area }
    {
        region_in(
            &self.nodes,
            find(&self.nodes, &self.guesses, self.first, key),
        )
    }

    /// The place of a key's region, in words from the start of the area, and None exactly where the key is not live.
    pub fn place(&self, key: u32) -> Option<u32>
        ensures value { result ≡ option_map (λ r. r.place) (region_of key self.now.area.list) }
        ensures sound { IsSound self.now.area }
    {
        self.region(key).map(|r| r.place)
    }

    /// The size of a key's region, in words, and None exactly where the key is not live.
    pub fn length(&self, key: u32) -> Option<u16>
        ensures value { result ≡ option_map (λ r. r.size) (region_of key self.now.area.list) }
        ensures sound { IsSound self.now.area }
    {
        self.region(key).map(|r| r.size)
    }
}
