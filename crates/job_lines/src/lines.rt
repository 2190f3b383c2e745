//! The lines of a text, and the words of a line.
ghost use Rattle.std.specs.Prelude.{◌≡◌, ◌<◌, ◌==◌, ◌∷◌, [], length, map, MatchOption, IfSome, IfOk};
ghost use Rattle.std.specs.List.{position, slice_split, list_all};
ghost use Rattle.std.specs.Char.{to_ascii_uppercase};
ghost use Rattle.job_lines.specs.Lines.{without_return, lines, is_blank, is_blank_line, words, same};

use std::alloc::{AllocError, Global};

/// Two words are equal.
pub fn same(a: &[u8], b: &[u8]) -> bool
    ensures { result ≡ same a.now b.now }
{
    a == b
}

/// The place of the first line feed.
fn feed(text: &[u8]) -> Option<usize>
    ensures { result ≡ position (λ b. b == 10) text.now }
{
    text.iter().position(|b| *b == b'\n')
}

/// Drops one carriage return at the end of a line.
fn without_return(line: &[u8]) -> &[u8]
    ensures { result.now ≡ without_return line.now }
{
    match line {
        [front @ .., b'\r'] => front,
        _ => line,
    }
}

/// The first line of a text, without its line feed and one carriage return before that, and what is behind it; none of an
/// empty text. Looks at no byte behind the line.
#[tactic(auto, using(crate::proofs::LineLemmas::line_steps))]
pub fn next_line(text: &[u8]) -> Option<(&[u8], &[u8])>
    ensures lines { MatchOption result (lines text.now ≡ []) (λ r. lines text.now ≡ r.0.now ∷ lines r.1.now) }
    ensures less { IfSome result (λ r. length r.1.now < length text.now) }
{
    if text.is_empty() {
        return None;
    }
    match feed(text) {
        None => Some((text, &[])),
        Some(i) => Some((without_return(&text[..i]), &text[i + 1..])),
    }
}

fn blank(b: u8) -> bool
    ensures { result ≡ is_blank b }
{
    b == b' ' || b == b'\t'
}

/// A line has nothing but blanks.
pub(crate) fn blank_line(line: &[u8]) -> bool
    ensures { result ≡ is_blank_line line.now }
{
    line.iter().all(|b| blank(*b))
}

/// What stands between the blanks of a line.
fn parts<'a>(alloc: Global, line: &'a [u8]) -> Result<Vec<&'a [u8]>, AllocError>
    ensures { IfOk result (λ v. map (λ w. w.now) v.items ≡ slice_split is_blank line.entry.now) }
{
    line.split(|b| blank(*b)).collect(alloc)
}

/// The words of a line.
#[tactic(auto, using(crate::proofs::WordLemmas::word_steps))]
pub(crate) fn words<'a>(alloc: Global, line: &'a [u8]) -> Result<Vec<&'a [u8]>, AllocError>
    ensures { IfOk result (λ v. map (λ w. w.now) v.items ≡ words line.entry.now) }
{
    let parts = parts(alloc, line)?;
    let mut words = Vec::new(alloc);
    for part in &parts {
        if !part.is_empty() {
            words.push(*part)?;
        }
    }
    Ok(words)
}

/// A line in capitals. Only memory may be wanting.
pub fn capitals(alloc: Global, line: &[u8]) -> Result<Vec<u8>, AllocError>
    ensures { IfOk result (λ v. v.items ≡ map to_ascii_uppercase line.now) }
{
    let mut capitals = Vec::from_slice(alloc, line)?;
    capitals.make_ascii_uppercase();
    Ok(capitals)
}
