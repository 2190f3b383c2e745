//! Lines put together from pieces.
ghost use Rattle.std.specs.Prelude.{◌≡◌, ◌++◌, map, OnOk};
ghost use Rattle.job_report.specs.Lines.{line};

use std::alloc::AllocError as NoMemory;

/// Appends a line: its pieces one behind the other, and a line feed.
#[tactic(auto, using(crate::proofs::LineLemmas::line_turns))]
pub(crate) fn push_line(text: &mut Vec<u8>, pieces: &[&[u8]]) -> Result<(), NoMemory>
    ensures { OnOk result (text.new.items ≡ text.old.items ++ line (map (λ p. p.now) pieces.now)) }
{
    for piece in pieces {
        text.extend_from_slice(piece)?;
    }
    text.push(b'\n')?;
    Ok(())
}
