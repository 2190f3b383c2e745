//! Where a processor's code comes from: a store that holds some segments, or all.
ghost use Rattle.std.specs.Prelude.{◌≡◌, ℕ, List, Option, option_map, length};
ghost use Rattle.hp_program.specs.Stores.{fetched};

use crate::program::Program;
use crate::valid::segment;

/// What a store answers for a word of code.
#[derive(Clone, Copy, Debug, PartialEq, Eq)]
pub enum Fetched {
    /// The word.
    Word(u16),
    /// The segment is not held.
    Absent,
    /// The offset is not below the segment's length.
    Outside,
}

/// A store of code: it holds some segments, by their numbers, as lists of words.
pub trait CodeStore {
    ghost held: { Self → ℕ → Option (List ℕ) };

    /// The length of a segment, in words; none where it is not held.
    fn size(&self, seg: u8) -> Option<u16>
        ensures { result ≡ option_map length (held self.now seg) };

    /// The word at an offset of a segment.
    fn fetch(&self, seg: u8, offset: u16) -> Fetched
        ensures { result ≡ fetched (held self.now seg) offset };
}

/// A program holds each of its segments.
impl CodeStore for Program {
    ghost use Rattle.std.specs.Prelude.{slice_get};
    ghost use Rattle.hp_program.specs.Programs.{segments_of};

    ghost held = { λ p. slice_get (segments_of p) };

    fn size(&self, seg: u8) -> Option<u16> {
        match segment(&self.segments, seg as usize) {
            None => None,
            Some(words) => Some(words.len() as u16),
        }
    }

    #[tactic(auto, unfolding(crate::specs::Stores::fetched))]
    fn fetch(&self, seg: u8, offset: u16) -> Fetched {
        match segment(&self.segments, seg as usize) {
            None => Fetched::Absent,
            Some(words) => match words.get(offset as usize).copied() {
                None => Fetched::Outside,
                Some(word) => Fetched::Word(word),
            },
        }
    }
}
