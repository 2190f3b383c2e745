//! Programs: segments of code words, and what is wrong with one.
ghost use Rattle.std.specs.Prelude.{◌≡◌, ℕ, List, map, Option, None, IfOk};
ghost use Rattle.hp_program.specs.Valid.{first_defect};

use crate::valid::find_defect;
use std::alloc::{AllocError as NoMemory, Global};

/// A program, valid by its type.
#[derive(Debug, Drop)]
pub struct Program {
    /// The words of each segment, its table of entries at its end.
    pub segments: Vec<Vec<u16>>,
    /// The number of the main segment.
    pub main: u8,
    /// The main body's entry in it, counted from 1.
    pub entry: u8,
    /// The initial data words.
    pub globals: Vec<u16>,
    ghost valid: { first_defect (map (λ s. s.items) segments.items) main entry globals.items ≡ None },
}

/// The part of a program that is wrong first.
#[derive(Clone, Copy, Debug, PartialEq, Eq)]
pub enum Defect {
    /// The number of segments or of data words, or the main segment's number.
    Head,
    /// A segment's size, or its number of entries.
    Segment(u8),
    /// A label of a segment's table.
    Label { seg: u8, entry: u8 },
    /// The main entry is not local.
    Main,
}

/// Equal segments.
#[tactic(auto, using(crate::proofs::SegmentLemmas::segment_steps))]
fn copy_segments(alloc: Global, segments: &[Vec<u16>]) -> Result<Vec<Vec<u16>>, NoMemory>
    ensures { IfOk result (λ copies. map (λ s. s.items) copies.items ≡ map (λ s. s.items) segments.now) }
{
    let mut copies = Vec::with_capacity(alloc, segments.len())?;
    for words in segments {
        copies.push(Vec::from_slice(alloc, words)?)?;
    }
    Ok(copies)
}

impl Program {
    ghost use Rattle.std.specs.Prelude.{length, IfErr, IsErr, ◌↔◌, ◌≢◌, Some};
    ghost use Rattle.hp_program.specs.Programs.{segments_of};

    /// The program of these parts, its segments with their tables, or what is wrong with them first. Takes no memory.
    pub fn new(
        segments: Vec<Vec<u16>>,
        main: u8,
        entry: u8,
        globals: Vec<u16>,
    ) -> Result<Program, Defect>
        ensures parts { IfOk result (λ p. (segments_of p ≡ map (λ s. s.items) segments.items) × (p.main ≡ main) × (p.entry ≡ entry) × (p.globals.items ≡ globals.items)) }
        ensures defect { IfErr result (λ d. first_defect (map (λ s. s.items) segments.items) main entry globals.items ≡ Some d) }
    {
        match find_defect(&segments, main, entry, &globals) {
            Some(defect) => Err(defect),
            None => Ok(Program {
                segments,
                main,
                entry,
                globals,
            }),
        }
    }

    /// An equal program. Only memory may be wanting.
    pub fn copy(&self, alloc: Global) -> Result<Program, NoMemory>
        ensures { IfOk result (λ p. (segments_of p ≡ segments_of self.now) × (p.main ≡ self.now.main) × (p.entry ≡ self.now.entry) × (p.globals.items ≡ self.now.globals.items)) }
    {
        let segments = copy_segments(alloc, &self.segments)?;
        let globals = Vec::from_slice(alloc, &self.globals)?;
        Ok(Program {
            segments,
            main: self.main,
            entry: self.entry,
            globals,
        })
    }
}
