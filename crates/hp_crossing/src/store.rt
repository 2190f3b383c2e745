//! A store of code that holds two segments.
ghost use Rattle.std.specs.Prelude.{◌≡◌, ◌≤◌, Some, length};
ghost use Rattle.hp_program.specs.Stores.{fetched};

use hp_program::{CodeStore, Fetched};

/// The words of segments 0 and 1, each at most as many as a segment may have. No other segment is held.
#[derive(Drop)]
pub struct TwoSegments<'a> {
    pub first: &'a [u16],
    pub second: &'a [u16],
    ghost first_short: { length first.now ≤ 16383 },
    ghost second_short: { length second.now ≤ 16383 },
}

/// The word at an offset.
#[inline(always)]
#[tactic(auto, unfolding(hp_program::specs::Stores::fetched))]
fn read(words: &[u16], offset: u16) -> Fetched
    ensures { result ≡ fetched (Some words.now) offset }
{
    match words.get(offset as usize).copied() {
        None => Fetched::Outside,
        Some(word) => Fetched::Word(word),
    }
}

impl CodeStore for TwoSegments<'_> {
    ghost use Rattle.std.specs.Prelude.{None, Some, ◌==◌, if◌then◌else◌};

    ghost held = { λ store seg. if seg == 0 then Some store.first.now else if seg == 1 then Some store.second.now else None };

    #[inline(always)]
    fn size(&self, seg: u8) -> Option<u16> {
        if seg == 0 {
            Some(self.first.len() as u16)
        } else if seg == 1 {
            Some(self.second.len() as u16)
        } else {
            None
        }
    }

    #[inline(always)]
    #[tactic(auto, unfolding(hp_program::specs::Stores::fetched))]
    fn fetch(&self, seg: u8, offset: u16) -> Fetched {
        if seg == 0 {
            read(self.first, offset)
        } else if seg == 1 {
            read(self.second, offset)
        } else {
            Fetched::Absent
        }
    }
}
