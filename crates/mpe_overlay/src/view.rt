//! Views of the area: the code of one program, as far as it is loaded. A view looks its region up at each word.
ghost use Rattle.std.specs.Prelude.{◌≡◌, ◌≤◌, ◌+◌, Some, length, option_map, IfSome};
ghost use Rattle.hp_program.specs.Stores.{fetched};
ghost use Rattle.mpe_overlay.specs.Holds.{words_in, LiesWithin};

use crate::words::key;
use hp_program::{CodeStore, Fetched};
use mpe_regions::{Region, Regions};

/// The loaded segments of one program. It has no program, and reads the area alone.
#[derive(Clone, Copy)]
pub struct View<'a> {
    /// The words of the area.
    pub area: &'a Vec<u16>,
    /// Which segments are loaded, and where.
    pub regions: &'a Regions,
    /// The number of the program.
    pub program: u8,
    pub ghost within: { LiesWithin area.now.items regions.now.area },
}

/// The words of a region.
fn words_of(area: &[u16], r: Region) -> &[u16]
    requires { r.place + r.size ≤ length area.now }
    ensures value { result.now ≡ words_in area.now r }
    ensures short { length result.now ≤ 65535 }
{
    &area[r.place as usize..r.place as usize + r.size as usize]
}

/// The word at an offset of a segment's words.
#[inline(always)]
#[tactic(auto, unfolding(hp_program::specs::Stores::fetched))]
pub(crate) fn read(words: &[u16], offset: u16) -> Fetched
    ensures { result ≡ fetched (Some words.now) offset }
{
    match words.get(offset as usize) {
        None => Fetched::Outside,
        Some(word) => Fetched::Word(*word),
    }
}

impl<'a> View<'a> {
    ghost use Rattle.mpe_overlay.specs.Held.{held_by};

    /// The words of one of the segments; None exactly where it is not loaded.
    pub(crate) fn find(self, seg: u8) -> Option<&'a [u16]>
        ensures value { held_by self.entry seg ≡ option_map (λ w. w.now) result }
        ensures short { IfSome result (λ w. length w.now ≤ 65535) }
    {
        match self.regions.region(key(self.program, seg)) {
            None => None,
            Some(r) => Some(words_of(self.area, r)),
        }
    }
}

impl CodeStore for View<'_> {
    ghost use Rattle.mpe_overlay.specs.Held.{held_by};

    ghost held = { held_by };

    fn size(&self, seg: u8) -> Option<u16> {
        self.regions.length(key(self.program, seg))
    }

    #[tactic(auto, unfolding(hp_program::specs::Stores::fetched))]
    fn fetch(&self, seg: u8, offset: u16) -> Fetched {
        match self.find(seg) {
            None => Fetched::Absent,
            Some(words) => read(words, offset),
        }
    }
}
