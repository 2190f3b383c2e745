//! A program of whole segments.
ghost use Rattle.std.specs.Prelude.{◌≡◌, ◌≤◌, length, IfOk};
ghost use Rattle.hp_program.specs.Programs.{segments_of};
ghost use Rattle.mpe_segmenter.specs.Programs.{MakesOf};
ghost use Rattle.mpe_segmenter.specs.Sites.{Links};
ghost use Rattle.mpe_segmenter.specs.Whole.{IsWhole};
ghost use Rattle.mpe_segmenter.specs.SegmentViews.{segments_in};

use crate::homes::homes_of;
use crate::labels::all_labels;
use crate::laying::lay_all;
use crate::mains::main_place;
use crate::segments::Segment;
use hp_program::Program;
use std::alloc::{AllocError, Global};

/// The program of whole segments, with these initial data words.
pub fn make(alloc: Global, segments: Vec<Segment>, globals: Vec<u16>) -> Result<Program, AllocError>
    requires whole { IsWhole (segments_in segments.items) }
    requires globals { length globals.items ≤ 32000 }
    ensures made { IfOk result (λ p. MakesOf (segments_in segments.items) globals.items p) }
    ensures links { IfOk result (λ p. Links (segments_in segments.items) (segments_of p)) }
{
    let homes = homes_of(alloc, segments.as_slice())?;
    let labels = all_labels(alloc, segments.as_slice(), &homes)?;
    let (main, entry) = main_place(segments.as_slice()).unwrap();
    let words = lay_all(alloc, segments, labels.as_slice())?;
    Ok(Program {
        segments: words,
        main,
        entry,
        globals,
    })
}
