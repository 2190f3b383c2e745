//! A program file written.
ghost use Rattle.std.specs.Prelude.{◌≡◌, ◌<◌, ◌++◌, map, OnOk, IfOk, None};
ghost use Rattle.hp_program.specs.Valid.{bad_segment};
ghost use Rattle.mpe_progfile.specs.Files.{word_bytes, words_bytes, segments_bytes, IsFile};

use hp_program::Program;
use std::alloc::{AllocError as NoMemory, Global};

/// The first four bytes of each file.
const MAGIC: &[u8] = b"MPEP";

/// Appends a word, high byte first.
fn push_word(bytes: &mut Vec<u8>, word: u16) -> Result<(), NoMemory>
    ensures { OnOk result (bytes.new.items ≡ bytes.old.items ++ word_bytes word) }
{
    bytes.extend_from_slice(&word.to_be_bytes())
}

/// Appends words.
#[tactic(auto, using(crate::proofs::WriteLemmas::word_turns))]
fn push_words(bytes: &mut Vec<u8>, words: &[u16]) -> Result<(), NoMemory>
    ensures { OnOk result (bytes.new.items ≡ bytes.old.items ++ words_bytes words.now) }
{
    for word in words {
        push_word(bytes, *word)?;
    }
    Ok(())
}

/// Appends segments, each with its size.
#[tactic(auto, using(crate::proofs::WriteLemmas::segment_turns))]
fn push_segments(bytes: &mut Vec<u8>, segments: &[Vec<u16>]) -> Result<(), NoMemory>
    requires { bad_segment 0 (map (λ s. s.items) segments.now) ≡ None }
    ensures { OnOk result (bytes.new.items ≡ bytes.old.items ++ segments_bytes (map (λ s. s.items) segments.now)) }
{
    for words in segments {
        push_word(bytes, words.len() as u16)?;
        push_words(bytes, words)?;
    }
    Ok(())
}

/// The file of a program. Only memory may be wanting.
#[tactic(auto, using(crate::proofs::WriteLemmas::valid), unfolding(crate::specs::Files::file_of))]
pub fn write(alloc: Global, program: &Program) -> Result<Vec<u8>, NoMemory>
    ensures { IfOk result (λ bytes. IsFile program.now bytes.items) }
{
    let mut bytes = Vec::from_slice(alloc, MAGIC)?;
    push_word(&mut bytes, 1)?;
    push_word(&mut bytes, program.segments.len() as u16)?;
    push_word(&mut bytes, program.main as u16)?;
    push_word(&mut bytes, program.entry as u16)?;
    push_word(&mut bytes, program.globals.len() as u16)?;
    push_words(&mut bytes, &program.globals)?;
    push_segments(&mut bytes, &program.segments)?;
    Ok(bytes)
}
