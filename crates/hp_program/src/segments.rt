//! The words of a program's segments, by number and offset.
ghost use Rattle.std.specs.Prelude.{◌≡◌, map, slice_get, option_and_then, unwrap_or};
ghost use Rattle.hp_program.specs.Programs.{words_of, code_word, segments_of};

use crate::program::Program;

/// The words of a segment; none of one that is not there.
pub fn segment_words(program: &Program, seg: u8) -> &[u16]
    ensures { result.now ≡ words_of (segments_of program.now) seg }
{
    match program.segments.get(seg as usize) {
        None => &[],
        Some(words) => words.as_slice(),
    }
}

/// The word at an offset of a segment.
#[inline]
#[tactic(auto, unfolding(crate::specs::Programs::code_word))]
pub fn fetch(program: &Program, seg: u8, offset: u16) -> Option<u16>
    ensures { result ≡ code_word (segments_of program.now) seg offset }
{
    match program.segments.get(seg as usize) {
        None => None,
        Some(words) => words.get(offset as usize).copied(),
    }
}
