//! Finished code: the words of a unit in a segment, with what the segmenter puts into them and what it must know of them.
ghost use Rattle.std.specs.Prelude.{◌≡◌, true, length};
ghost use Rattle.std.specs.List.{list_all};
ghost use Rattle.spl_branch.specs.Kept.{is_sized, rises, has_aim};

use spl_tree::{At, Name};

/// What a fix waits for.
#[derive(Clone, Copy, Debug, PartialEq, Eq)]
pub enum FixKind {
    /// The entry of a define of the same module.
    Define,
    /// The entry of a want of the same module.
    Want,
    /// The module's offset in its segment.
    Place,
}

/// A word that the segmenter completes.
#[derive(Clone, Copy, Debug, PartialEq, Eq)]
pub struct Fix {
    /// The offset of the word, in words from the start of the module.
    pub offset: u16,
    pub kind: FixKind,
    /// The index of the define or of the want, counted from 0; for a place its offset, in words from the start of the
    /// module.
    pub index: usize,
}

/// A procedure with a body, or a subroutine.
#[derive(Debug, PartialEq, Eq, Drop)]
pub struct Define {
    pub name: Name,
    /// The offset of its first instruction, in words from the start of the module.
    pub offset: u16,
    /// Whether other modules may call it: false for a subroutine.
    pub callable: bool,
}

/// A procedure of another module, or an intrinsic.
#[derive(Debug, PartialEq, Eq, Drop)]
pub struct Want {
    pub name: Name,
    /// Whether the name is that of an intrinsic.
    pub gate: bool,
}

/// Where the code of a statement begins.
#[derive(Clone, Copy, Debug, PartialEq, Eq)]
pub struct Start {
    /// The statement's place in the text.
    pub at: At,
    /// The offset of its first instruction, in words from the start of the module.
    pub offset: u16,
}

/// The code of a unit in one segment, without the table of entries.
///
/// A module of more than 16,383 words is oversized: it has no words, fixes and starts, and its offsets are 0.
#[derive(Debug, PartialEq, Eq, Drop)]
pub struct Module {
    /// The name of the segment.
    pub segment: Name,
    /// The number of words, or 16,384 where there are more than 16,383.
    pub size: u32,
    pub words: Vec<u16>,
    /// The procedures and subroutines, in order of text.
    pub defines: Vec<Define>,
    /// The names wanted, in order of first call.
    pub wants: Vec<Want>,
    /// In order of offset: one for each call, whose word has 0 as its number, and one for each word that holds an offset.
    pub fixes: Vec<Fix>,
    /// The offset of the main body's first instruction, where the main body stands here.
    pub main: Option<u16>,
    /// In order of text.
    pub starts: Vec<Start>,
    pub ghost sized: { is_sized size (length words.items) ≡ true },
    pub ghost in_order: { rises 0 (length words.items) fixes.items ≡ true },
    pub ghost aimed: { list_all (has_aim (length defines.items) (length wants.items)) fixes.items ≡ true },
}
