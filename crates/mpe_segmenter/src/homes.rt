//! Where procedures are that may be called from anywhere.
ghost use Rattle.std.specs.Prelude.{◌≡◌, ◌+◌, ◌≤◌, ◌<◌, length, true, option_map, IfOk, OnOk, IsTrue};
ghost use Rattle.std.specs.List.{list_all};
ghost use Rattle.hp_instr.specs.Labels.{is_label};
ghost use Rattle.mpe_segmenter.specs.Entries.{owns, called_at, home_from};
ghost use Rattle.mpe_segmenter.specs.Segments.{home_label};
ghost use Rattle.mpe_segmenter.specs.Counts.{entries_in, is_fitting};
ghost use Rattle.mpe_segmenter.specs.Faults.{define_names, callables};
ghost use Rattle.mpe_segmenter.specs.Homes.{IsHomes, with_names, with_parts};
ghost use Rattle.mpe_segmenter.specs.Programs.{tables_of};
ghost use Rattle.mpe_segmenter.specs.SegmentViews.{segment_in, segments_in};

use crate::places::Places;
use crate::segments::Segment;
use arrayvec::ArrayVec;
use hp_instr::Label;
use spl_branch::{Define, Module};
use std::alloc::{AllocError, Global};

/// Notes the names of defines that may be called from anywhere.
fn note_defines(homes: &mut Places, number: usize, defines: &[Define]) -> Result<(), AllocError>
    ensures { OnOk result (homes.new ≡ with_names homes.old number (define_names defines.now)) }
{
    for define in defines {
        if define.callable {
            homes.note(&define.name, number)?;
        }
    }
    Ok(())
}

/// Notes the names of procedures that may be called from anywhere.
fn note_modules(homes: &mut Places, number: usize, modules: &[Module]) -> Result<(), AllocError>
    ensures { OnOk result (homes.new ≡ with_names homes.old number (callables modules.now)) }
{
    for one in modules {
        note_defines(homes, number, one.defines.as_slice())?;
    }
    Ok(())
}

/// The segments, by their numbers, of the procedures that may be called from anywhere.
pub fn homes_of(alloc: Global, segments: &[Segment]) -> Result<Places, AllocError>
    ensures { IfOk result (λ h. IsHomes h (segments_in segments.now)) }
{
    let mut homes = Places::new(alloc);
    for (number, segment) in segments.iter().enumerate() {
        note_modules(&mut homes, number, segment.modules.as_slice())?;
    }
    Ok(homes)
}

/// The label of a procedure of this name in the segment with this number.
fn label_in(segment: &Segment, number: usize, name: &ArrayVec<u8, 15>) -> Label
    requires count { number < 62 }
    requires few { entries_in (segment_in segment.now) ≤ 127 }
    ensures value { result ≡ home_label (option_map (λ k. (number, 1 + k)) (called_at name.now.items (owns 0 segment.now.modules.items))) }
    ensures formed { IsTrue (is_label result) }
{
    match segment.entries.called.find(name) {
        None => Label::External { seg: 0, entry: 0 },
        Some(place) => Label::External {
            seg: number as u8,
            entry: (1 + place) as u8,
        },
    }
}

/// The label of a procedure of this name.
pub fn home_label(segments: &[Segment], homes: &Places, name: &ArrayVec<u8, 15>) -> Label
    requires count { length segments.now ≤ 62 }
    requires fitting { list_all is_fitting (segments_in segments.now) ≡ true }
    requires homes { IsHomes homes.now (segments_in segments.now) }
    ensures value { result ≡ home_label (home_from 0 (tables_of (segments_in segments.now)) name.now.items) }
    ensures formed { IsTrue (is_label result) }
{
    match homes.find(name) {
        None => Label::External { seg: 0, entry: 0 },
        Some(number) => label_in(&segments[number], number, name),
    }
}
