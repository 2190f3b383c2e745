//! The code area with its programs: a segment is brought in when it is needed, and may be given up at any time.
ghost use Rattle.std.specs.Prelude.{◌≡◌, ℕ, ◌+◌, ◌≤◌, [], List, length, Some, slice_get, option_map, IfOk, IsSomeAnd, IsTrue, ◌↔◌, true};
ghost use Rattle.std.specs.Bool.{OnFalse};
ghost use Rattle.mpe_regions.specs.Area.{region_of, is_live};
ghost use Rattle.mpe_regions.specs.Loads.{needed, dropped};
ghost use Rattle.mpe_overlay.specs.Codes.{codes_of, key_of, segment_at, size_of};
ghost use Rattle.mpe_overlay.specs.Holds.{HoldsCode};
ghost use Rattle.mpe_overlay.specs.Held.{held_by};
ghost use Rattle.mpe_overlay.specs.Needs.{answer, counted};

use crate::loaded::Loaded;
use crate::room::make_room;
use crate::view::View;
use crate::words::{copy_words, find_segment, key, segment_of};
use hp_program::Program;
use mpe_regions::Regions;
use std::alloc::{AllocError as NoMemory, Global};

/// How many regions there is room for: a key for each of 256 segments of 16 programs.
const ROOM: u16 = 4096;

/// The code area and the programs that it is loaded from. Each region has the words of its segment.
#[derive(Drop)]
pub struct Overlay {
    /// Where the area begins, in words from the start of memory.
    pub base: u32,
    /// The words of the area.
    pub area: Vec<u16>,
    /// Which segments are loaded, and where.
    pub regions: Regions,
    /// The programs, by number.
    pub programs: Vec<Program>,
    /// How many loads there were, modulo 2 to the power 64.
    pub loads: u64,
    pub ghost holds: { HoldsCode base area.items regions (codes_of programs.items) },
}

impl Overlay {
    /// An area of `size` words that begins at `base`, with nothing loaded.
    pub fn make(
        alloc: Global,
        base: u32,
        size: u32,
        programs: Vec<Program>,
    ) -> Result<Overlay, NoMemory>
        requires few { length programs.items ≤ 16 }
        requires small { base + size ≤ 1048576 }
        ensures base { IfOk result (λ o. o.base ≡ base) }
        ensures area { IfOk result (λ o. o.regions.area ≡ record { size = size; list = []; order = [] }) }
        ensures programs { IfOk result (λ o. o.programs ≡ programs) }
        ensures loads { IfOk result (λ o. o.loads ≡ 0) }
    {
        let regions = Regions::make(alloc, size, ROOM)?;
        let area = vec![in alloc; 0; size as usize]?;
        Ok(Overlay {
            base,
            area,
            regions,
            programs,
            loads: 0,
        })
    }

    /// Whether a segment exists and is no larger than the area.
    pub fn fits(&self, program: u8, seg: u8) -> bool
        ensures { IsTrue result ↔ IsSomeAnd (segment_at (codes_of self.now.programs.items) (key_of program seg)) (λ words. length words ≤ self.now.regions.area.size) }
    {
        match find_segment(&self.programs, program, seg) {
            None => false,
            Some(words) => words.len() <= self.area.len(),
        }
    }

    /// Brings a segment in, unless it is there, and makes it the one used last.
    pub fn need(&mut self, program: u8, seg: u8) -> Loaded
        requires { IsSomeAnd (segment_at (codes_of self.old.programs.items) (key_of program seg)) (λ words. length words ≤ self.old.regions.area.size) }
        ensures value { result ≡ answer self.old.base (key_of program seg) (size_of (codes_of self.old.programs.items) (key_of program seg)) self.old.regions.area }
        ensures area { self.new.regions.area ≡ needed (key_of program seg) (size_of (codes_of self.old.programs.items) (key_of program seg)) self.old.regions.area }
        ensures there { is_live (key_of program seg) self.new.regions.area ≡ true }
        ensures loads { self.new.loads ≡ counted (key_of program seg) self.old.regions.area self.old.loads }

        // What it leaves alone.
        ensures base { self.new.base ≡ self.old.base }
        ensures size { self.new.regions.area.size ≡ self.old.regions.area.size }
        ensures programs { self.new.programs ≡ self.old.programs }
    {
        let key = key(program, seg);
        if self.regions.touch(key) {
            return Loaded::There;
        }
        let words = segment_of(&self.programs, program, seg);
        let (place, given_up) = make_room(&mut self.regions, key, words.len() as u16);
        copy_words(&mut self.area, place as usize, words);
        self.loads = self.loads.wrapping_add(1);
        Loaded::Brought {
            place: self.base + place,
            given_up,
        }
    }

    /// Gives a segment up. Answers whether it was loaded; where it was not, nothing changes.
    pub fn evict(&mut self, program: u8, seg: u8) -> bool
        ensures live { result ≡ is_live (key_of program seg) self.old.regions.area }
        ensures area { self.new.regions.area ≡ dropped (key_of program seg) self.old.regions.area }
        ensures kept { OnFalse result (self.new.regions ≡ self.old.regions) }

        // What it leaves alone.
        ensures base { self.new.base ≡ self.old.base }
        ensures words { self.new.area ≡ self.old.area }
        ensures programs { self.new.programs ≡ self.old.programs }
        ensures loads { self.new.loads ≡ self.old.loads }
    {
        self.regions.give(key(program, seg))
    }

    /// The place of a segment, in words from the start of memory, and None exactly where it is not loaded.
    pub fn place(&self, program: u8, seg: u8) -> Option<u32>
        ensures { result ≡ option_map (λ r. self.now.base + r.place) (region_of (key_of program seg) self.now.regions.area.list) }
    {
        match self.regions.place(key(program, seg)) {
            None => None,
            Some(place) => Some(self.base + place),
        }
    }

    /// The code of a program, as far as it is loaded: the view holds segments of the program with their words.
    pub fn view(&self, program: u8) -> View<'_>
        ensures area { result.area.now ≡ self.now.area }
        ensures regions { result.regions.now ≡ self.now.regions }
        ensures program { result.program ≡ program }
        ensures holds { (segments : List (List ℕ)) (seg : ℕ) (words : List ℕ) → slice_get (codes_of self.now.programs.items) program ≡ Some segments → held_by result seg ≡ Some words → slice_get segments seg ≡ Some words }
    {
        View {
            area: &self.area,
            regions: &self.regions,
            program,
        }
    }
}
