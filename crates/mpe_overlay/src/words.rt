//! The words of the area, and those of a program's segment.
ghost use Rattle.std.specs.Prelude.{◌≡◌, ◌+◌, ◌<◌, ◌≤◌, ◌++◌, Some, IsSome, option_map, slice_get, map, length, take, drop};
ghost use Rattle.mpe_overlay.specs.Codes.{key_of, codes_of, segment_at};

use hp_program::{Program, segment_words};

/// The key of a segment.
#[inline]
pub fn key(program: u8, seg: u8) -> u32
    ensures { result ≡ key_of program seg }
{
    program as u32 * 256 + seg as u32
}

/// The words of a segment of a program, if it has that one.
fn segment_in(segments: &[Vec<u16>], seg: u8) -> Option<&[u16]>
    ensures { option_map (λ w. w.now) result ≡ slice_get (map (λ s. s.items) segments.now) seg }
{
    match segments.get(seg as usize) {
        None => None,
        Some(words) => Some(words.as_slice()),
    }
}

/// The words of a segment, if there is one.
pub fn find_segment(programs: &[Program], program: u8, seg: u8) -> Option<&[u16]>
    ensures { option_map (λ w. w.now) result ≡ segment_at (codes_of programs.now) (key_of program seg) }
{
    match programs.get(program as usize) {
        None => None,
        Some(program) => segment_in(&program.segments, seg),
    }
}

/// The words of a segment that exists.
pub fn segment_of(programs: &[Program], program: u8, seg: u8) -> &[u16]
    requires { IsSome (segment_at (codes_of programs.now) (key_of program seg)) }
    ensures value { segment_at (codes_of programs.now) (key_of program seg) ≡ Some result.now }
    ensures some { 0 < length result.now }
    ensures few { length result.now ≤ 16383 }
{
    segment_words(&programs[program as usize], seg)
}

/// Copies the words of a segment into the area.
pub fn copy_words(area: &mut [u16], at: usize, words: &[u16])
    requires { at + length words.now ≤ length area.old }
    ensures { area.new ≡ take at area.old ++ (words.now ++ drop (at + length words.now) area.old) }
{
    area[at..at + words.len()].copy_from_slice(words);
}
