//! A program file: its parts, and the program that they make.
ghost use Rattle.std.specs.Prelude.{◌≡◌, ◌≤◌, ◌+◌, ◌*◌, ◌-◌, ◌++◌, map, length, slice_index, IfOk, IfErr, Err, None, true};
ghost use Rattle.hp_program.specs.Valid.{is_head, bad_segment};
ghost use Rattle.mpe_progfile.specs.Reading as format;
ghost use Rattle.mpe_progfile.specs.Files.{file_of, IsFile};
ghost use Rattle.mpe_progfile.specs.Views.{cursor_of, Gives, Answers, Fails, parts_of, program_parts};
ghost use Rattle.mpe_progfile.specs.Laws.{GivesParts, GivesFault};
ghost use Rattle.mpe_progfile.specs.declared.faults.FileFault as faults;
ghost use Rattle.hp_program.specs.declared.program.Program.{Program};

use crate::faults::FileFault;
use crate::reader::Reader;
use hp_program::{Defect, Program};
use std::alloc::{AllocError, Global};

/// What a program file says.
#[derive(Drop)]
pub(crate) struct Parts {
    pub(crate) main: u16,
    pub(crate) entry: u16,
    pub(crate) globals: Vec<u16>,
    pub(crate) segments: Vec<Vec<u16>>,
}

/// The parts of a file, from its magic on.
#[tactic(auto, using(crate::proofs::SpellLemmas::spell_file), unfolding(crate::specs::Reading::parts, crate::specs::Reading::body, crate::specs::Reading::with_read))]
fn read_parts(alloc: Global, reader: &mut Reader<'_>) -> Result<Parts, FileFault>
    requires { reader.old.at ≡ 0 }
    ensures read { Gives parts_of result (cursor_of reader.new) (format.parts (cursor_of reader.old)) }
    ensures spelled { IfOk result (λ p. reader.old.left.now ≡ file_of (map (λ s. s.items) p.segments.items) p.main p.entry p.globals.items ++ reader.new.left.now) }
{
    reader.magic()?;
    reader.head_word(1, 1)?;
    let count = reader.head_word(1, 62)?;
    let main = reader.head_word(0, count - 1)?;
    let entry = reader.word()?;
    let data_words = reader.head_word(0, 32000)?;
    let globals = reader.words(alloc, data_words)?;
    let segments = reader.segments(alloc, count)?;
    Ok(Parts {
        main,
        entry,
        globals,
        segments,
    })
}

/// The bytes of the numbers of entries of segments that begin at a byte.
#[tactic(auto, using(crate::proofs::CountLemmas::count_turns))]
fn count_bytes(alloc: Global, from: u32, segments: &[Vec<u16>]) -> Result<Vec<u32>, AllocError>
    requires small { from + 32768 * length segments.now ≤ 4000000 }
    requires sized { bad_segment 0 (map (λ s. s.items) segments.now) ≡ None }
    ensures { IfOk result (λ v. v.items ≡ format.count_bytes from (map (λ s. s.items) segments.now)) }
{
    let mut bytes = Vec::with_capacity(alloc, segments.len())?;
    let mut at = from;
    for words in segments {
        let count = at + 2 * words.len() as u32;
        bytes.push(count)?;
        at = count + 2;
    }
    Ok(bytes)
}

/// The byte of a segment's label.
fn label_byte(counts: &[u32], seg: u8, entry: u8) -> u32
    ensures { result ≡ slice_index counts.now seg - 2 * entry }
{
    let count = counts.get(seg as usize).copied().unwrap_or(0);
    count.saturating_sub(2 * entry as u32)
}

/// The program of parts that are well sized, or the fault of its first label that leads nowhere.
#[tactic(auto, using(crate::proofs::LabelLemmas::labels))]
fn labelled(alloc: Global, parts: Parts) -> Result<Program, FileFault>
    requires head { is_head (map (λ s. s.items) parts.segments.items) parts.main parts.globals.items ≡ true }
    requires sized { bad_segment 0 (map (λ s. s.items) parts.segments.items) ≡ None }
    ensures { Answers result (format.labelled (parts_of parts)) }
{
    let Parts {
        main,
        entry,
        globals,
        segments,
    } = parts;
    let counts = count_bytes(alloc, 14 + 2 * globals.len() as u32, &segments)?;
    if 255 < entry {
        return Err(FileFault::BadLabel(10));
    }
    match Program::new(segments, main as u8, entry as u8, globals) {
        Ok(program) => Ok(program),
        Err(Defect::Label { seg, entry }) => Err(FileFault::BadLabel(label_byte(
            &counts, seg, entry,
        ))),
        Err(_) => Err(FileFault::BadLabel(10)),
    }
}

/// What a file is read as.
#[tactic(auto, using(crate::proofs::PartLemmas::parts_right), unfolding(crate::specs::Reading::read_file, crate::specs::Reading::all_labelled, crate::specs::Reading::ended, crate::specs::Reading::tested))]
fn read_program(alloc: Global, bytes: &[u8]) -> Result<Program, FileFault>
    ensures read { Answers result (format.read_file bytes.now) }
    ensures file { IfOk result (λ p. IsFile p bytes.now) }
{
    let mut reader = Reader { at: 0, left: bytes };
    let parts = read_parts(alloc, &mut reader)?;
    if !reader.left.is_empty() {
        return Err(FileFault::Trailing(reader.at));
    }
    labelled(alloc, parts)
}

/// The program whose file these bytes are; or the first fault of the file, at its byte. Only memory may be wanting besides.
pub fn read(alloc: Global, bytes: &[u8]) -> Result<Program, FileFault>
    ensures ok { IfOk result (λ p. IsFile p bytes.now) }
    ensures fault { IfErr result (λ f. Fails f (format.read_file bytes.now)) }

    // A file of a program is read as that program, and a file that has a fault has that answer.
    ensures files { (p : Program) → IsFile p bytes.now → GivesParts result (program_parts p) }
    ensures faults { (f : faults.FileFault) → format.read_file bytes.now ≡ Err f → GivesFault result f }
{
    read_program(alloc, bytes)
}
