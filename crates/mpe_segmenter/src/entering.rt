//! The entries of segments, found.
ghost use Rattle.std.specs.Prelude.{◌≡◌, ◌<◌, ◌^◌, true, IfOk};
ghost use Rattle.std.specs.List.{list_all};
ghost use Rattle.mpe_segmenter.specs.Entered.{total, is_few};
ghost use Rattle.mpe_segmenter.specs.PartViews.{part_of, parts_in};
ghost use Rattle.mpe_segmenter.specs.SegmentViews.{segment_in, segments_in};

use crate::entries::entries_of;
use crate::parts::Part;
use crate::segments::Segment;
use std::alloc::{AllocError, Global};

/// A segment with its entries.
fn enter(alloc: Global, part: Part) -> Result<Segment, AllocError>
    requires { total part.modules.items < 2 ^ 32 }
    ensures { IfOk result (λ s. segment_in s ≡ part_of part) }
{
    let Part { name, modules } = part;
    let entries = entries_of(alloc, modules.as_slice())?;
    Ok(Segment {
        name,
        modules,
        entries,
    })
}

/// Segments with their entries.
pub fn entered(alloc: Global, parts: Vec<Part>) -> Result<Vec<Segment>, AllocError>
    requires { list_all is_few (parts_in parts.items) ≡ true }
    ensures { IfOk result (λ v. segments_in v.items ≡ parts_in parts.items) }
{
    let mut segments = Vec::with_capacity(alloc, parts.len())?;
    for part in parts {
        segments.push(enter(alloc, part)?)?;
    }
    Ok(segments)
}
