//! The labels of segments.
ghost use Rattle.std.specs.Prelude.{◌≡◌, ◌+◌, ◌<◌, ◌≤◌, ◌++◌, nat_lt, length, map, [], true, false, IfOk, OnOk, IsTrue};
ghost use Rattle.std.specs.List.{list_all};
ghost use Rattle.hp_instr.specs.Labels.{is_label, label_bits};
ghost use Rattle.mpe_segmenter.specs.Entries.{own_of, main_of, owns};
ghost use Rattle.mpe_segmenter.specs.Segments.{own_bits, wanted_label};
ghost use Rattle.mpe_segmenter.specs.Counts.{sizes, is_well_formed, is_fitting};
ghost use Rattle.mpe_segmenter.specs.Homes.{IsHomes};
ghost use Rattle.mpe_segmenter.specs.Programs.{tables_of, label_words};
ghost use Rattle.mpe_segmenter.specs.PlaceViews.{seen};
ghost use Rattle.mpe_segmenter.specs.SegmentViews.{segment_in, segments_in};

use crate::gates::gate_number;
use crate::homes::home_label;
use crate::places::Places;
use crate::segments::Segment;
use crate::wants::Key;
use hp_instr::{Label, label_word};
use spl_branch::{Define, Module};
use std::alloc::{AllocError, Global};

/// The label of a name that is wanted.
fn label_of(segments: &[Segment], homes: &Places, key: &Key) -> Label
    requires count { length segments.now ≤ 62 }
    requires fitting { list_all is_fitting (segments_in segments.now) ≡ true }
    requires homes { IsHomes homes.now (segments_in segments.now) }
    ensures value { result ≡ wanted_label (tables_of (segments_in segments.now)) (seen key.now) }
    ensures formed { IsTrue (is_label result) }
{
    if key.gate {
        Label::External {
            seg: 255,
            entry: gate_number(key.name.as_slice()),
        }
    } else {
        home_label(segments, homes, &key.name)
    }
}

/// Appends the labels of names that are wanted.
fn put_wanted(
    labels: &mut Vec<u16>,
    segments: &[Segment],
    homes: &Places,
    keys: &[Key],
) -> Result<(), AllocError>
    requires count { length segments.now ≤ 62 }
    requires fitting { list_all is_fitting (segments_in segments.now) ≡ true }
    requires homes { IsHomes homes.now (segments_in segments.now) }
    ensures { OnOk result (labels.new.items ≡ labels.old.items ++ map (λ k. label_bits (wanted_label (tables_of (segments_in segments.now)) (seen k))) keys.now) }
{
    for key in keys {
        labels.push(label_word(label_of(segments, homes, key)))?;
    }
    Ok(())
}

/// The word of the label that leads to an offset.
fn local_word(offset: u32) -> u16
    requires { offset < 16384 }
    ensures { result ≡ own_bits (record { name = []; callable = false; offset = offset }) }
{
    label_word(Label::Local(offset as u16))
}

/// Appends the labels of defines, in a module of so many words that begin at `base`.
fn put_defines(
    labels: &mut Vec<u16>,
    base: u32,
    size: u32,
    defines: &[Define],
) -> Result<(), AllocError>
    requires within { base + size ≤ 16383 }
    requires below { list_all (λ d. nat_lt d.offset size) defines.now ≡ true }
    ensures { OnOk result (labels.new.items ≡ labels.old.items ++ map own_bits (map (own_of base) defines.now)) }
{
    for define in defines {
        labels.push(local_word(base + u32::from(define.offset)))?;
    }
    Ok(())
}

/// Appends the labels of a module whose words begin at `base`.
fn put_module(labels: &mut Vec<u16>, base: u32, one: &Module) -> Result<(), AllocError>
    requires within { base + one.now.size ≤ 16383 }
    requires formed { is_well_formed one.now ≡ true }
    ensures { OnOk result (labels.new.items ≡ labels.old.items ++ map own_bits (map (own_of base) one.now.defines.items ++ main_of base one.now.main)) }
{
    put_defines(labels, base, one.size, one.defines.as_slice())?;
    if let Some(offset) = one.main {
        labels.push(local_word(base + u32::from(offset)))?;
    }
    Ok(())
}

/// Appends the labels of modules, the first one's words beginning at 0.
fn put_modules(labels: &mut Vec<u16>, modules: &[Module]) -> Result<(), AllocError>
    requires within { sizes modules.now ≤ 16383 }
    requires formed { list_all is_well_formed modules.now ≡ true }
    ensures { OnOk result (labels.new.items ≡ labels.old.items ++ map own_bits (owns 0 modules.now)) }
{
    let mut base = 0u32;
    for one in modules {
        put_module(labels, base, one)?;
        base += one.size;
    }
    Ok(())
}

/// The labels of a segment, the first entry's first.
fn labels_of(
    alloc: Global,
    segments: &[Segment],
    homes: &Places,
    segment: &Segment,
) -> Result<Vec<u16>, AllocError>
    requires count { length segments.now ≤ 62 }
    requires fitting { list_all is_fitting (segments_in segments.now) ≡ true }
    requires homes { IsHomes homes.now (segments_in segments.now) }
    requires fits { is_fitting (segment_in segment.now) ≡ true }
    ensures { IfOk result (λ v. v.items ≡ label_words (tables_of (segments_in segments.now)) (segment_in segment.now)) }
{
    let mut labels = Vec::new(alloc);
    put_modules(&mut labels, segment.modules.as_slice())?;
    put_wanted(&mut labels, segments, homes, segment.entries.wanted.keys())?;
    Ok(labels)
}

/// The labels of each segment.
pub fn all_labels(
    alloc: Global,
    segments: &[Segment],
    homes: &Places,
) -> Result<Vec<Vec<u16>>, AllocError>
    requires count { length segments.now ≤ 62 }
    requires fitting { list_all is_fitting (segments_in segments.now) ≡ true }
    requires homes { IsHomes homes.now (segments_in segments.now) }
    ensures { IfOk result (λ v. map (λ l. l.items) v.items ≡ map (label_words (tables_of (segments_in segments.now))) (segments_in segments.now)) }
{
    let mut all = Vec::with_capacity(alloc, segments.len())?;
    for segment in segments {
        all.push(labels_of(alloc, segments, homes, segment)?)?;
    }
    Ok(all)
}
