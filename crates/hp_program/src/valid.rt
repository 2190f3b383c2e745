//! The tests that make a program valid, each by its definition, and the first of them that fails.
ghost use Rattle.std.specs.Prelude.{◌≡◌, ℕ, ◌≤◌, List, map, slice_index, slice_get, option_map, length, None};
ghost use Rattle.hp_instr.specs.Labels.{label};
ghost use Rattle.hp_program.specs.Valid.{entries_of, label_of, is_well_sized, is_local, is_local_entry, is_external, leads, is_head, bad_segment, bad_label, bad_table, first_defect};

use crate::program::Defect;
use hp_instr::{Label, read_label};

/// The word at an index, and 0 past the end.
fn word_at(words: &[u16], index: usize) -> u16
    ensures { result ≡ slice_index words.now index }
{
    words.get(index).copied().unwrap_or(0)
}

/// The number of entries of a segment, from its last word.
pub fn entry_count(words: &[u16]) -> u16
    ensures { result ≡ entries_of words.now }
{
    word_at(words, words.len().saturating_sub(1))
}

/// The label of entry `n` of a segment.
pub fn label_word(words: &[u16], n: u16) -> u16
    ensures { result ≡ label_of words.now n }
{
    word_at(
        words,
        words.len().saturating_sub(1).saturating_sub(n as usize),
    )
}

#[tactic(auto, unfolding(crate::specs::Valid::is_well_sized))]
fn well_sized(words: &[u16]) -> bool
    ensures { result ≡ is_well_sized words.now }
{
    let entries = entry_count(words);
    2 <= words.len()
        && words.len() <= 16383
        && entries <= 127
        && entries as usize <= words.len() - 1
}

/// A label is local, and leads to a word before its segment's table.
#[tactic(auto, unfolding(crate::specs::Valid::is_local))]
fn local(words: &[u16], label: Label) -> bool
    ensures { result ≡ is_local words.now label }
{
    let before_table = words
        .len()
        .saturating_sub(1)
        .saturating_sub(entry_count(words) as usize);
    match label {
        Label::Local(offset) => (offset as usize) < before_table,
        Label::External { .. } | Label::Bad(_) => false,
    }
}

/// Entry `n` of a segment that may be missing is there, and its label is local.
#[tactic(auto, unfolding(crate::specs::Valid::is_local_entry))]
fn local_entry(words: Option<&[u16]>, n: u16) -> bool
    ensures { result ≡ is_local_entry (option_map (λ w. w.now) words.entry) n }
{
    match words {
        None => false,
        Some(words) => n != 0
            && n <= entry_count(words)
            && local(words, read_label(label_word(words, n))),
    }
}

/// The words of segment `seg`, if there is one.
pub(crate) fn segment(segments: &[Vec<u16>], seg: usize) -> Option<&[u16]>
    ensures { option_map (λ w. w.now) result ≡ slice_get (map (λ s. s.items) segments.now) seg }
{
    match segments.get(seg) {
        None => None,
        Some(words) => Some(words.as_slice()),
    }
}

/// An external label leads to a local entry, or to an intrinsic.
#[tactic(auto, unfolding(crate::specs::Valid::is_external))]
fn external(segments: &[Vec<u16>], seg: u8, entry: u8) -> bool
    ensures { result ≡ is_external (map (λ s. s.items) segments.now) seg entry }
{
    if seg == 255 {
        0 < entry && entry <= 8
    } else {
        local_entry(segment(segments, seg as usize), entry as u16)
    }
}

/// A label of a segment's table leads somewhere.
#[tactic(auto, unfolding(crate::specs::Valid::leads))]
fn leads(segments: &[Vec<u16>], words: &[u16], label: Label) -> bool
    ensures { result ≡ leads (map (λ s. s.items) segments.now) words.now label }
{
    match label {
        Label::Local(_) => local(words, label),
        Label::External { seg, entry } => external(segments, seg, entry),
        Label::Bad(_) => false,
    }
}

#[tactic(auto, unfolding(crate::specs::Valid::is_head))]
fn good_head(segments: &[Vec<u16>], main: u8, globals: &[u16]) -> bool
    ensures { result ≡ is_head (map (λ s. s.items) segments.now) main globals.now }
{
    !segments.is_empty()
        && segments.len() <= 62
        && (main as usize) < segments.len()
        && globals.len() <= 32000
}

/// The first segment that is not well sized.
#[tactic(auto, using(crate::proofs::ValidLemmas::segment_steps))]
fn first_bad_segment(segments: &[Vec<u16>]) -> Option<Defect>
    requires { length segments.now ≤ 62 }
    ensures { result ≡ bad_segment 0 (map (λ s. s.items) segments.now) }
{
    for (s, words) in segments.iter().enumerate() {
        if !well_sized(words) {
            return Some(Defect::Segment(s as u8));
        }
    }
    None
}

/// The first bad label of segment `s`.
#[tactic(auto, using(crate::proofs::ValidLemmas::label_steps))]
fn first_bad_label(segments: &[Vec<u16>], s: u8, words: &[u16]) -> Option<Defect>
    requires { entries_of words.now ≤ 127 }
    ensures { result ≡ bad_label (map (λ s. s.items) segments.now) s words.now 1 (entries_of words.now) }
{
    let entries = entry_count(words);
    for k in 0..entries {
        if !leads(segments, words, read_label(label_word(words, k + 1))) {
            return Some(Defect::Label {
                seg: s,
                entry: (k + 1) as u8,
            });
        }
    }
    None
}

/// The first bad label of all segments.
#[tactic(auto, using(crate::proofs::ValidLemmas::table_steps))]
fn first_bad_table(segments: &[Vec<u16>]) -> Option<Defect>
    requires count { length segments.now ≤ 62 }
    requires sized { bad_segment 0 (map (λ s. s.items) segments.now) ≡ None }
    ensures { result ≡ bad_table (map (λ s. s.items) segments.now) 0 (map (λ s. s.items) segments.now) }
{
    for (s, words) in segments.iter().enumerate() {
        if let Some(defect) = first_bad_label(segments, s as u8, words) {
            return Some(defect);
        }
    }
    None
}

/// What is wrong first with a program of these parts.
#[tactic(auto, unfolding(crate::specs::Valid::first_defect, crate::specs::Valid::is_head))]
pub(crate) fn find_defect(
    segments: &[Vec<u16>],
    main: u8,
    entry: u8,
    globals: &[u16],
) -> Option<Defect>
    ensures { result ≡ first_defect (map (λ s. s.items) segments.now) main entry globals.now }
{
    if !good_head(segments, main, globals) {
        return Some(Defect::Head);
    }
    if let Some(defect) = first_bad_segment(segments) {
        return Some(defect);
    }
    if !local_entry(segment(segments, main as usize), entry as u16) {
        return Some(Defect::Main);
    }
    first_bad_table(segments)
}
