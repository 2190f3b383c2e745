//! The labels in the table at a segment's end.
ghost use Rattle.std.specs.Prelude.{◌≡◌, ℕ, ◌<◌, ◌^◌, ◌↔◌, IsTrue};
ghost use Rattle.hp_instr.specs.Labels.{label, label_bits, is_label, IsLabel};

/// What an entry of a segment's table leads to.
#[derive(Clone, Copy, Debug, PartialEq, Eq)]
pub enum Label {
    /// A place in the same segment: its offset, in words from the segment's start, 0 to 16,383.
    Local(u16),
    /// An entry, 0 to 127, of another segment's table; segment 255 is the gate to the intrinsics.
    External { seg: u8, entry: u8 },
    /// A word that is no label.
    Bad(u16),
}

/// The label of a word. It is total: a word that is no label is `Bad`.
#[inline]
pub fn read_label(w: u16) -> Label
    ensures value { result ≡ label w }
    ensures is_label { IsTrue (is_label result) }
    ensures again { label_bits result ≡ w }
{
    by_first_bits(w)
}

/// The word of a label that some word has.
pub fn label_word(l: Label) -> u16
    requires { IsTrue (is_label l) }
    ensures value { result ≡ label_bits l }
    ensures read { label result ≡ l }
    ensures only { (w : ℕ) → w < 2 ^ 16 → label w ≡ l → result ≡ w }
{
    word_of(l)
}

/// Whether some word has this label: its numbers have the bits that they need.
pub fn is_label(l: Label) -> bool
    ensures value { result ≡ is_label l }
    ensures word { IsTrue result ↔ IsLabel l }
{
    fields_fit(l)
}

/// The label of a word, by bits 0 and 1.
#[inline]
#[tactic(auto, unfolding(crate::specs::Labels::label))]
fn by_first_bits(w: u16) -> Label
    ensures { result ≡ label w }
{
    match w / 16384 {
        0 => Label::Local(w),
        1 => Label::Bad(w),
        _ => Label::External {
            seg: (w % 256) as u8,
            entry: (w / 256 % 128) as u8,
        },
    }
}

/// The word with these fields.
#[tactic(auto, unfolding(crate::specs::Labels::label_bits))]
fn word_of(l: Label) -> u16
    requires { label_bits l < 2 ^ 16 }
    ensures { result ≡ label_bits l }
{
    match l {
        Label::Local(offset) => offset,
        Label::External { seg, entry } => 32768 + u16::from(entry) * 256 + u16::from(seg),
        Label::Bad(w) => w,
    }
}

/// Whether the fields of a label are such as words have.
#[tactic(auto, unfolding(crate::specs::Labels::is_label))]
fn fields_fit(l: Label) -> bool
    ensures { result ≡ is_label l }
{
    match l {
        Label::Local(offset) => offset < 16384,
        Label::External { seg: _, entry } => entry < 128,
        Label::Bad(w) => matches!(read_label(w), Label::Bad(_)),
    }
}
