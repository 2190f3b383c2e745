//! Where the main body is.
ghost use Rattle.std.specs.Prelude.{◌≡◌, ◌≤◌, length, true, option_map};
ghost use Rattle.std.specs.List.{list_all};
ghost use Rattle.mpe_segmenter.specs.Entries.{owned};
ghost use Rattle.mpe_segmenter.specs.Counts.{is_fitting};
ghost use Rattle.mpe_segmenter.specs.Programs.{main_at, main_from};
ghost use Rattle.mpe_segmenter.specs.SegmentViews.{segments_in};

use crate::entries::own_count;
use crate::segments::Segment;
use spl_branch::Module;

/// The entry of the main body among those of modules.
fn main_entry(modules: &[Module]) -> Option<u8>
    requires { owned modules.now ≤ 127 }
    ensures { result ≡ main_at 1 modules.now }
{
    let mut first = 1u8;
    for one in modules {
        if one.main.is_some() {
            return Some(first + one.defines.len() as u8);
        }
        first += own_count(one) as u8;
    }
    None
}

/// The segment of the main body, by its number, and its entry there.
pub fn main_place(segments: &[Segment]) -> Option<(u8, u8)>
    requires count { length segments.now ≤ 62 }
    requires fitting { list_all is_fitting (segments_in segments.now) ≡ true }
    ensures { result ≡ main_from 0 (segments_in segments.now) }
{
    for (number, segment) in segments.iter().enumerate() {
        if let Some(entry) = main_entry(segment.modules.as_slice()) {
            return Some((number as u8, entry));
        }
    }
    None
}
