//! The table of labels at a segment's end.
ghost use Rattle.std.specs.Prelude.{◌≡◌, ◌+◌, ◌≤◌, ◌<◌, ◌++◌, length, OnOk};
ghost use Rattle.mpe_segmenter.specs.Segments.{table_words};

use std::alloc::AllocError;

/// Appends a table: the labels from the last entry's to the first one's, and their number.
pub fn put_table(words: &mut Vec<u16>, labels: &[u16]) -> Result<(), AllocError>
    requires { length labels.now ≤ 127 }
    ensures { OnOk result (words.new.items ≡ words.old.items ++ table_words labels.now) }
{
    for k in 0..labels.len() {
        words.push(labels[labels.len() - 1 - k])?;
    }
    words.push(labels.len() as u16)?;
    Ok(())
}
