//! The listing of a program.
ghost use Rattle.std.specs.Prelude.{◌≡◌, ◌≤◌, ◌<◌, ◌++◌, length, map, OnOk, IfOk, None, true};
ghost use Rattle.hp_program.specs.Valid.{bad_segment, entries_of, is_well_sized};
ghost use Rattle.job_report.specs.Listings.{octal, head_line, data_lines, code_line, code_lines, gate_name, entry_line, entry_lines, code_of, segment_text, segments_text, listing_of};

use crate::lines::push_line;
use crate::numbers::number;
use arrayvec::ArrayVec;
use hp_instr::{Label, decode, read_label};
use hp_program::{Program, entry_count, label_word};
use hp_word::octal_text;
use std::alloc::{AllocError as NoMemory, Global};

/// Six octal digits.
fn octal(n: u32) -> ArrayVec<u8, 11>
    ensures { result.items ≡ octal n }
{
    octal_text(n, 6)
}

/// Appends the first line.
fn push_head(text: &mut Vec<u8>, program: &Program) -> Result<(), NoMemory>
    ensures { OnOk result (text.new.items ≡ text.old.items
        ++ head_line (length program.now.segments.items) program.now.main program.now.entry (length program.now.globals.items)) }
{
    let segments = number(program.segments.len() as u64);
    let main = number(program.main as u64);
    let entry = number(program.entry as u64);
    let words = number(program.globals.len() as u64);
    push_line(
        text,
        &[
            b"PROGRAM VERSION 1 SEGMENTS ",
            &segments,
            b" MAIN ",
            &main,
            b" ENTRY ",
            &entry,
            b" DATA ",
            &words,
        ],
    )
}

/// Appends the data words.
#[tactic(auto, using(crate::proofs::ListingLemmas::data_turns))]
fn push_data(text: &mut Vec<u8>, words: &[u16]) -> Result<(), NoMemory>
    requires { length words.now ≤ 32000 }
    ensures { OnOk result (text.new.items ≡ text.old.items ++ data_lines 0 words.now) }
{
    for (offset, word) in words.iter().enumerate() {
        push_line(
            text,
            &[b"DATA ", &octal(offset as u32), b" ", &octal(*word as u32)],
        )?;
    }
    Ok(())
}

/// Appends the line of a code word.
fn push_word(alloc: Global, text: &mut Vec<u8>, offset: u32, word: u16) -> Result<(), NoMemory>
    ensures { OnOk result (text.new.items ≡ text.old.items ++ code_line offset word) }
{
    let name = decode(word).to_string(alloc)?;
    push_line(
        text,
        &[
            &octal(offset),
            b" ",
            &octal(word as u32),
            b" ",
            name.as_bytes(),
        ],
    )
}

/// Appends code words.
#[tactic(auto, using(crate::proofs::ListingLemmas::code_turns))]
fn push_code(alloc: Global, text: &mut Vec<u8>, words: &[u16]) -> Result<(), NoMemory>
    requires { length words.now ≤ 16383 }
    ensures { OnOk result (text.new.items ≡ text.old.items ++ code_lines 0 words.now) }
{
    for (offset, word) in words.iter().enumerate() {
        push_word(alloc, text, offset as u32, *word)?;
    }
    Ok(())
}

/// The name of a call of the monitor, by its entry in the gate.
fn gate_name(entry: u8) -> &'static str
    ensures { result.now ≡ gate_name entry }
{
    match entry {
        1 => "PRINT",
        2 => "READ",
        3 => "ASCII",
        4 => "DASCII",
        5 => "BINARY",
        6 => "DBINARY",
        7 => "TERMINATE",
        8 => "QUIT",
        _ => "",
    }
}

/// Appends the line of entry `k`.
fn push_entry(text: &mut Vec<u8>, k: u16, label: Label) -> Result<(), NoMemory>
    ensures { OnOk result (text.new.items ≡ text.old.items ++ entry_line k label) }
{
    let k = number(k as u64);
    match label {
        Label::Local(offset) => {
            push_line(text, &[b"ENTRY ", &k, b" LOCAL ", &octal(offset as u32)])
        }
        Label::External { seg: 255, entry } => {
            push_line(
                text,
                &[b"ENTRY ", &k, b" GATE ", gate_name(entry).as_bytes()],
            )
        }
        Label::External { seg, entry } => {
            let (seg, entry) = (number(seg as u64), number(entry as u64));
            push_line(
                text,
                &[b"ENTRY ", &k, b" SEGMENT ", &seg, b" ENTRY ", &entry],
            )
        }
        Label::Bad(_) => Ok(()),
    }
}

/// Appends the entries of a segment's table.
#[tactic(auto, using(crate::proofs::ListingLemmas::entry_turns))]
fn push_entries(text: &mut Vec<u8>, words: &[u16]) -> Result<(), NoMemory>
    requires { entries_of words.now ≤ 127 }
    ensures { OnOk result (text.new.items ≡ text.old.items ++ entry_lines words.now 1 (entries_of words.now)) }
{
    let entries = entry_count(words);
    for k in 0..entries {
        push_entry(text, k + 1, read_label(label_word(words, k + 1)))?;
    }
    Ok(())
}

/// The words before a segment's table.
fn code_of(words: &[u16]) -> &[u16]
    ensures { result.now ≡ code_of words.now }
{
    let before_table = words
        .len()
        .saturating_sub(1)
        .saturating_sub(entry_count(words) as usize);
    &words[..before_table]
}

/// Appends segment `s`.
#[tactic(auto, using(crate::proofs::ListingLemmas::sizes), unfolding(crate::specs::Listings::segment_text))]
fn push_segment(alloc: Global, text: &mut Vec<u8>, s: u64, words: &[u16]) -> Result<(), NoMemory>
    requires { is_well_sized words.now ≡ true }
    ensures { OnOk result (text.new.items ≡ text.old.items ++ segment_text s words.now) }
{
    let size = number(words.len() as u64);
    let entries = number(entry_count(words) as u64);
    push_line(
        text,
        &[
            b"SEGMENT ",
            &number(s),
            b" WORDS ",
            &size,
            b" ENTRIES ",
            &entries,
        ],
    )?;
    push_code(alloc, text, code_of(words))?;
    push_entries(text, words)
}

/// Appends all segments.
#[tactic(auto, using(crate::proofs::ListingLemmas::segment_turns))]
fn push_segments(alloc: Global, text: &mut Vec<u8>, segments: &[Vec<u16>]) -> Result<(), NoMemory>
    requires { bad_segment 0 (map (λ s. s.items) segments.now) ≡ None }
    ensures { OnOk result (text.new.items ≡ text.old.items ++ segments_text 0 (map (λ s. s.items) segments.now)) }
{
    for (s, words) in segments.iter().enumerate() {
        push_segment(alloc, text, s as u64, words)?;
    }
    Ok(())
}

/// The listing of a program. Only memory may be wanting.
#[tactic(auto, using(crate::proofs::ListingLemmas::valid), unfolding(crate::specs::Listings::listing_text))]
pub fn listing(alloc: Global, program: &Program) -> Result<Vec<u8>, NoMemory>
    ensures { IfOk result (λ text. text.items ≡ listing_of program.now) }
{
    let mut text = Vec::new(alloc);
    push_head(&mut text, program)?;
    push_data(&mut text, &program.globals)?;
    push_segments(alloc, &mut text, &program.segments)?;
    Ok(text)
}
