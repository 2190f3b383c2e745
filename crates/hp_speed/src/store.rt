//! A store of code that holds one segment.
ghost use Rattle.std.specs.Prelude.{◌≤◌, length};

use hp_program::{CodeStore, Fetched};

/// The words of segment 0, at most as many as a segment may have. No other segment is held.
#[derive(Drop)]
pub struct OneSegment<'a> {
    pub words: &'a [u16],
    ghost short: { length words.now ≤ 16383 },
}

impl CodeStore for OneSegment<'_> {
    ghost use Rattle.std.specs.Prelude.{None, Some, ◌==◌, if◌then◌else◌};

    ghost held = { λ store seg. if seg == 0 then Some store.words.now else None };

    #[inline]
    fn size(&self, seg: u8) -> Option<u16> {
        if seg == 0 {
            Some(self.words.len() as u16)
        } else {
            None
        }
    }

    #[inline]
    #[tactic(auto, unfolding(hp_program::specs::Stores::fetched))]
    fn fetch(&self, seg: u8, offset: u16) -> Fetched {
        if seg != 0 {
            return Fetched::Absent;
        }
        match self.words.get(offset as usize).copied() {
            None => Fetched::Outside,
            Some(word) => Fetched::Word(word),
        }
    }
}
