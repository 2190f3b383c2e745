//! The words of segments: their modules' one behind the other, and then the table.
ghost use Rattle.std.specs.Prelude.{◌≡◌, ◌+◌, ◌≤◌, ◌++◌, length, map, true, IfOk, OnOk};
ghost use Rattle.std.specs.List.{list_all};
ghost use Rattle.mpe_segmenter.specs.Entries.{wanted_of, owned, entry_of, table_of};
ghost use Rattle.mpe_segmenter.specs.Entered.{HasRoom, entry_by};
ghost use Rattle.mpe_segmenter.specs.Segments.{laid_from, entries_for, body_from, table_words};
ghost use Rattle.mpe_segmenter.specs.Counts.{sizes, is_fitting};
ghost use Rattle.mpe_segmenter.specs.Programs.{tables_of, label_words, program_words};
ghost use Rattle.mpe_segmenter.specs.SegmentViews.{segment_in, segments_in};

use crate::entries::{Entries, own_count};
use crate::fixes::lay;
use crate::segments::Segment;
use crate::tables::put_table;
use spl_branch::{Module, Want};
use std::alloc::{AllocError, Global};

/// The entry of a want.
fn entry_of(entries: &Entries, want: &Want) -> u8
    requires { HasRoom entries.now.own entries.now.called entries.now.wanted }
    ensures { result ≡ entry_by entries.now.own entries.now.called entries.now.wanted (wanted_of want.now) }
{
    let behind = entries.own + entries.wanted.place(want);
    if want.gate {
        (1 + behind) as u8
    } else {
        match entries.called.find(&want.name.text) {
            None => (1 + behind) as u8,
            Some(place) => (1 + place) as u8,
        }
    }
}

/// The entries of wants.
fn entries_of(alloc: Global, entries: &Entries, wants: &[Want]) -> Result<Vec<u8>, AllocError>
    requires { HasRoom entries.now.own entries.now.called entries.now.wanted }
    ensures { IfOk result (λ v. v.items ≡ map (λ w. entry_by entries.now.own entries.now.called entries.now.wanted (wanted_of w)) wants.now) }
{
    let mut found = Vec::with_capacity(alloc, wants.len())?;
    for want in wants {
        found.push(entry_of(entries, want))?;
    }
    Ok(found)
}

/// Appends the words of a module, whose defines have the entries from `first` on.
fn lay_module(
    alloc: Global,
    words: &mut Vec<u16>,
    one: Module,
    first: u8,
    entries: &Entries,
) -> Result<(), AllocError>
    requires room { HasRoom entries.now.own entries.now.called entries.now.wanted }
    requires first { first + length one.defines.items ≤ 255 }
    requires within { length words.old.items + one.size ≤ 16383 }
    ensures { OnOk result (words.new.items ≡ words.old.items ++ laid_from (length words.old.items) (entries_for (entry_by entries.now.own entries.now.called entries.now.wanted) first one) one.fixes.items 0 one.words.items) }
{
    let given = entries_of(alloc, entries, one.wants.as_slice())?;
    lay(
        words,
        one.words,
        first,
        given.as_slice(),
        one.fixes.as_slice(),
    )?;
    Ok(())
}

/// The words of modules one behind the other.
fn lay_modules(
    alloc: Global,
    modules: Vec<Module>,
    entries: &Entries,
) -> Result<Vec<u16>, AllocError>
    requires room { HasRoom entries.now.own entries.now.called entries.now.wanted }
    requires own { owned modules.items ≤ 127 }
    requires within { sizes modules.items ≤ 16383 }
    ensures { IfOk result (λ v. v.items ≡ body_from (entry_by entries.now.own entries.now.called entries.now.wanted) 0 1 modules.items) }
{
    let mut words = Vec::new(alloc);
    let mut first = 1u8;
    for one in modules {
        let own = own_count(&one);
        lay_module(alloc, &mut words, one, first, entries)?;
        first += own as u8;
    }
    Ok(words)
}

/// The words of a segment with these labels.
fn lay_segment(alloc: Global, segment: Segment, labels: &[u16]) -> Result<Vec<u16>, AllocError>
    requires fits { is_fitting (segment_in segment) ≡ true }
    requires few { length labels.now ≤ 127 }
    ensures { IfOk result (λ v. v.items ≡ body_from (entry_of (table_of segment.modules.items)) 0 1 segment.modules.items ++ table_words labels.now) }
{
    let mut words = lay_modules(alloc, segment.modules, &segment.entries)?;
    put_table(&mut words, labels)?;
    Ok(words)
}

/// The words of each segment, with these labels.
pub fn lay_all(
    alloc: Global,
    segments: Vec<Segment>,
    labels: &[Vec<u16>],
) -> Result<Vec<Vec<u16>>, AllocError>
    requires fitting { list_all is_fitting (segments_in segments.items) ≡ true }
    requires labels { map (λ l. l.items) labels.now ≡ map (label_words (tables_of (segments_in segments.items))) (segments_in segments.items) }
    ensures { IfOk result (λ v. map (λ w. w.items) v.items ≡ program_words (segments_in segments.items)) }
{
    let mut all = Vec::with_capacity(alloc, segments.len())?;
    for segment in segments {
        let words = lay_segment(alloc, segment, labels[all.len()].as_slice())?;
        all.push(words)?;
    }
    Ok(all)
}
