//! The entries and words of segments, counted.
ghost use Rattle.std.specs.Prelude.{◌≡◌, ◌≤◌, ◌<◌, ◌^◌, ◌&&◌, true, None, option_map, nat_lt, IsTrue};
ghost use Rattle.mpe_segmenter.specs.Entered.{total};
ghost use Rattle.std.specs.List.{list_all};
ghost use Rattle.mpe_segmenter.specs.Counts.{is_well_formed, entries_in, entries_full, passed_by, segment_full, is_gate_or_name, is_below};
ghost use Rattle.mpe_segmenter.specs.Faults.{fault_of, size_faults, EntriesFull, SegmentFull};
ghost use Rattle.mpe_segmenter.specs.SegmentViews.{segment_in, segments_in};

use crate::faults::PrepFault;
use crate::gates::gate_number;
use crate::segments::Segment;
use spl_branch::{Define, Module, Want};

/// Whether a want for an intrinsic names one.
fn names_gate(want: &Want) -> bool
    ensures { result ≡ is_gate_or_name want.now }
{
    !want.gate || 0 < gate_number(want.name.text.as_slice())
}

/// Whether an offset, where there is one, is below a size.
fn below(size: u32, offset: Option<u16>) -> bool
    ensures { result ≡ is_below size offset }
{
    match offset {
        None => true,
        Some(offset) => u32::from(offset) < size,
    }
}

/// Whether the offsets of defines are below a size.
fn defines_below(size: u32, defines: &[Define]) -> bool
    ensures { result ≡ list_all (λ d. nat_lt d.offset size) defines.now }
{
    defines.iter().all(|define| u32::from(define.offset) < size)
}

/// Whether each want for an intrinsic names one.
fn name_gates(wants: &[Want]) -> bool
    ensures { result ≡ list_all is_gate_or_name wants.now }
{
    wants.iter().all(|want| names_gate(want))
}

/// Whether a module is well formed: it has words, its entries stand at them, and each want for an intrinsic names one.
pub fn is_well_formed(one: &Module) -> bool
    ensures { result ≡ is_well_formed one.now }
{
    0 < one.size
        && defines_below(one.size, one.defines.as_slice())
        && below(one.size, one.main)
        && name_gates(one.wants.as_slice())
}

/// Whether each module is well formed.
fn are_well_formed(modules: &[Module]) -> bool
    ensures { result ≡ list_all is_well_formed modules.now }
{
    modules.iter().all(|one| is_well_formed(one))
}

/// Whether there are fewer than 2 to the power 32 modules, defines and wants in all.
fn are_few(modules: &[Module]) -> bool
    ensures { result ≡ nat_lt (total modules.now) (2 ^ 32) }
{
    let mut left = 4294967295usize;
    for one in modules {
        let some = 1 + one.defines.len() + one.wants.len();
        if left < some {
            return false;
        }
        left -= some;
    }
    true
}

/// Whether a program may be made of modules, or the first of their faults told: each is well formed, and there are fewer than
/// 2 to the power 32 modules, defines and wants in all.
pub fn are_ready(modules: &[Module]) -> bool
    ensures value { result ≡ (list_all is_well_formed modules.now && nat_lt (total modules.now) (2 ^ 32)) }
    ensures formed { IsTrue result → list_all is_well_formed modules.now ≡ true }
    ensures few { IsTrue result → total modules.now < 2 ^ 32 }
{
    are_well_formed(modules) && are_few(modules)
}

/// How many entries a segment has.
fn count_entries(segment: &Segment) -> u32
    ensures { result ≡ entries_in (segment_in segment.now) }
{
    (segment.entries.own + segment.entries.wanted.len()) as u32
}

/// The first segment of more than 127 entries.
fn entries_fault(segments: &[Segment]) -> Option<PrepFault>
    ensures { option_map fault_of result ≡ option_map (λ p. Some (EntriesFull p.0 p.1)) (entries_full (segments_in segments.now)) }
{
    for segment in segments {
        let count = count_entries(segment);
        if count > 127 {
            return Some(PrepFault::EntriesFull {
                segment: segment.name.copy(),
                count,
            });
        }
    }
    None
}

/// The sum at which the words of modules pass 16,383, where so many words are before them.
fn passed(before: u32, modules: &[Module]) -> Option<u32>
    requires { before ≤ 16383 }
    ensures { result ≡ passed_by before modules.now }
{
    let mut sum = before;
    for one in modules {
        sum += one.size;
        if sum > 16383 {
            return Some(sum);
        }
    }
    None
}

/// The first segment of more than 16,383 words, where none has more than 127 entries.
fn words_fault(segments: &[Segment]) -> Option<PrepFault>
    requires { entries_full (segments_in segments.now) ≡ None }
    ensures { option_map fault_of result ≡ option_map (λ p. Some (SegmentFull p.0 p.1)) (segment_full (segments_in segments.now)) }
{
    for segment in segments {
        if let Some(words) = passed(count_entries(segment) + 1, segment.modules.as_slice()) {
            return Some(PrepFault::SegmentFull {
                segment: segment.name.copy(),
                words,
            });
        }
    }
    None
}

/// What is wrong first with the entries and the words of segments.
pub fn size_fault(segments: &[Segment]) -> Option<PrepFault>
    ensures { option_map fault_of result ≡ option_map Some (size_faults (segments_in segments.now)) }
{
    match entries_fault(segments) {
        Some(fault) => Some(fault),
        None => words_fault(segments),
    }
}
