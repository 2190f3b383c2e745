//! A file read from its front.
ghost use Rattle.std.specs.Prelude.{◌≡◌, ◌≤◌, ◌+◌, ◌*◌, ◌++◌, ◌==◌, length, map, true, IfOk};
ghost use Rattle.mpe_progfile.specs.Reading as read;
ghost use Rattle.mpe_progfile.specs.Files.{magic, word_bytes, words_bytes, segment_bytes, segments_bytes};
ghost use Rattle.mpe_progfile.specs.Views.{cursor_of, Gives};

use crate::faults::FileFault;
use hp_program::entry_count;
use std::alloc::Global;

/// What is left of a file, and the byte at which it begins.
#[derive(Drop)]
pub(crate) struct Reader<'a> {
    pub(crate) at: u32,
    pub(crate) left: &'a [u8],
}

/// The entries of a segment's table fit into it with their number.
fn has_table(words: &[u16]) -> bool
    ensures { result ≡ read.has_table words.now }
{
    let entries = entry_count(words);
    entries <= 127 && entries as usize <= words.len().saturating_sub(1)
}

impl<'a> Reader<'a> {
    /// The next word.
    #[tactic(auto, using(crate::proofs::SpellLemmas::halves), unfolding(crate::specs::Reading::word))]
    pub(crate) fn word(&mut self) -> Result<u16, FileFault>
        requires { self.old.at ≤ 4000000 }
        ensures read { Gives (λ w. w) result (cursor_of self.new) (read.word (cursor_of self.old)) }
        ensures place { IfOk result (λ _. self.new.at ≡ self.old.at + 2) }
        ensures spelled { IfOk result (λ w. self.old.left.now ≡ word_bytes w ++ self.new.left.now) }
    {
        match self.left {
            [high, low, rest @ ..] => {
                let word = u16::from_be_bytes([*high, *low]);
                self.left = rest;
                self.at += 2;
                Ok(word)
            }
            _ => Err(FileFault::Truncated(self.at + self.left.len() as u32)),
        }
    }

    /// The magic, and whether it is right.
    #[tactic(auto, unfolding(crate::specs::Reading::magic_read, crate::specs::Reading::with_read, crate::specs::Reading::tested))]
    pub(crate) fn magic(&mut self) -> Result<(), FileFault>
        requires { self.old.at ≤ 4000000 }
        ensures read { Gives (λ u. true) result (cursor_of self.new) (read.magic_read (cursor_of self.old)) }
        ensures place { IfOk result (λ _. self.new.at ≡ self.old.at + 4) }
        ensures spelled { IfOk result (λ _. self.old.left.now ≡ magic ++ self.new.left.now) }
    {
        let at = self.at;
        match self.left {
            [a, b, c, d, rest @ ..] => {
                self.left = rest;
                self.at += 4;
                if *a == b'M' && *b == b'P' && *c == b'E' && *d == b'P' {
                    Ok(())
                } else {
                    Err(FileFault::BadHead(at))
                }
            }
            _ => Err(FileFault::Truncated(self.at + self.left.len() as u32)),
        }
    }

    /// A word of the head that is in a range.
    #[tactic(auto, unfolding(crate::specs::Reading::head_word, crate::specs::Reading::with_read, crate::specs::Reading::tested))]
    pub(crate) fn head_word(&mut self, low: u16, high: u16) -> Result<u16, FileFault>
        requires { self.old.at ≤ 4000000 }
        ensures read { Gives (λ w. w) result (cursor_of self.new) (read.head_word (read.is_between low high) (cursor_of self.old)) }
        ensures place { IfOk result (λ _. self.new.at ≡ self.old.at + 2) }
        ensures inside { IfOk result (λ w. (low ≤ w) × (w ≤ high)) }
        ensures spelled { IfOk result (λ w. self.old.left.now ≡ word_bytes w ++ self.new.left.now) }
    {
        let at = self.at;
        let word = self.word()?;
        if low <= word && word <= high {
            Ok(word)
        } else {
            Err(FileFault::BadHead(at))
        }
    }

    /// So many words.
    #[tactic(auto)]
    pub(crate) fn words(&mut self, alloc: Global, count: u16) -> Result<Vec<u16>, FileFault>
        requires { self.old.at + 2 * count ≤ 4000000 }
        ensures read { Gives (λ ws. ws.items) result (cursor_of self.new) (read.words count (cursor_of self.old)) }
        ensures place { IfOk result (λ _. self.new.at ≡ self.old.at + 2 * count) }
        ensures size { IfOk result (λ ws. length ws.items ≡ count) }
        ensures spelled { IfOk result (λ ws. self.old.left.now ≡ words_bytes ws.items ++ self.new.left.now) }
    {
        let mut words = Vec::with_capacity(alloc, count as usize)?;
        for _ in 0..count {
            let word = self.word()?;
            if words.push(word).is_err() {
                return Err(FileFault::NoMemory);
            }
        }
        Ok(words)
    }

    /// A segment, with its table.
    #[tactic(auto, unfolding(crate::specs::Reading::segment, crate::specs::Reading::with_read, crate::specs::Reading::tested))]
    fn segment(&mut self, alloc: Global) -> Result<Vec<u16>, FileFault>
        requires { self.old.at + 32768 ≤ 4000000 }
        ensures read { Gives (λ ws. ws.items) result (cursor_of self.new) (read.segment (cursor_of self.old)) }
        ensures place { IfOk result (λ _. self.new.at ≤ self.old.at + 32768) }
        ensures spelled { IfOk result (λ ws. self.old.left.now ≡ segment_bytes ws.items ++ self.new.left.now) }
    {
        let at = self.at;
        let size = self.word()?;
        if size < 2 || 16383 < size {
            return Err(FileFault::BadSegment(at));
        }
        let words = self.words(alloc, size)?;
        if has_table(&words) {
            Ok(words)
        } else {
            Err(FileFault::BadSegment(self.at - 2))
        }
    }

    /// So many segments.
    pub(crate) fn segments(&mut self, alloc: Global, count: u16) -> Result<Vec<Vec<u16>>, FileFault>
        requires { self.old.at + 32768 * count ≤ 4000000 }
        ensures read { Gives (λ ss. map (λ s. s.items) ss.items) result (cursor_of self.new) (read.segments count (cursor_of self.old)) }
        ensures spelled { IfOk result (λ ss. self.old.left.now ≡ segments_bytes (map (λ s. s.items) ss.items) ++ self.new.left.now) }
        ensures size { IfOk result (λ ss. length ss.items ≡ count) }
    {
        let mut segments = Vec::with_capacity(alloc, count as usize)?;
        for _ in 0..count {
            let words = self.segment(alloc)?;
            if segments.push(words).is_err() {
                return Err(FileFault::NoMemory);
            }
        }
        Ok(segments)
    }
}
