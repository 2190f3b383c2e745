//! The words of a module in its segment, with the entries and offsets put in at its fixes.
ghost use Rattle.std.specs.Prelude.{◌≡◌, ℕ, ◌+◌, ◌*◌, ◌/◌, ◌≤◌, ◌<◌, ◌++◌, ◌^◌, length, slice_index, true, OnOk, Some};
ghost use Rattle.std.specs.List.{list_all};
ghost use Rattle.spl_branch.specs.Modules.{with_entry, put_in};
ghost use Rattle.mpe_segmenter.specs.Segments.{laid_from, entries_by, is_layable, IsApart};

use spl_branch::{Fix, FixKind};
use std::alloc::AllocError;

/// A call's word with this entry.
fn entered(word: u16, entry: u8) -> u16
    ensures { result ≡ with_entry word entry }
{
    word / 256 * 256 + entry as u16
}

/// A word with what its fix asks for, in a module that begins at `base`, whose defines have the entries from `first` on, and
/// its wants these.
fn completed(word: u16, base: usize, first: u8, wants: &[u8], fix: &Fix) -> u16
    requires { is_layable base first fix.now ≡ true }
    ensures { result ≡ put_in base (entries_by first wants.now) (Some fix.now) word }
{
    match fix.kind {
        FixKind::Define => entered(word, first + fix.index as u8),
        FixKind::Want => entered(word, wants.get(fix.index).copied().unwrap_or(0)),
        FixKind::Place => (base + fix.index) as u16,
    }
}

/// Puts into the words of a module, which begin at `base`, what its fixes ask for.
pub fn complete(words: &mut [u16], base: usize, first: u8, wants: &[u8], fixes: &[Fix])
    requires layable { list_all (is_layable base first) fixes.now ≡ true }
    requires within { base + length words.old < 65536 }
    requires apart { IsApart (length words.old) fixes.now }
    ensures { words.new ≡ laid_from base (entries_by first wants.now) fixes.now 0 words.old }
{
    for fix in fixes {
        let at = fix.offset as usize;
        words[at] = completed(words[at], base, first, wants, fix);
    }
}

/// Appends the words of a module to those of its segment, with what its fixes ask for put in. Those of the first module are
/// moved.
pub fn lay(
    segment: &mut Vec<u16>,
    words: Vec<u16>,
    first: u8,
    wants: &[u8],
    fixes: &[Fix],
) -> Result<(), AllocError>
    requires layable { list_all (is_layable (length segment.old.items) first) fixes.now ≡ true }
    requires within { length segment.old.items + length words.items < 65536 }
    requires apart { IsApart (length words.items) fixes.now }
    ensures { OnOk result (segment.new.items ≡ segment.old.items ++ laid_from (length segment.old.items) (entries_by first wants.now) fixes.now 0 words.items) }
{
    let mut words = words;
    complete(&mut words, segment.len(), first, wants, fixes);
    if segment.is_empty() {
        *segment = words;
    } else {
        segment.extend_from_slice(words.as_slice())?;
    }
    Ok(())
}
