//! A text that grows line by line, with the numbers that are drawn for it.
ghost use Rattle.std.specs.Prelude.{◌≡◌, ◌++◌, OnOk};
ghost use Rattle.job_gen.specs.Draws.{next, drawn};

use std::alloc::AllocError as NoMemory;

/// The text so far, and the number that was drawn last, before it was cut to three digits.
#[derive(Debug, Drop)]
pub struct Growing {
    pub text: Vec<u8>,
    pub last: u16,
}

impl Growing {
    /// Draws a number below 1,000.
    #[tactic(auto, unfolding(crate::specs::Draws::next))]
    pub(crate) fn draw(&mut self) -> u16
        ensures value { result ≡ drawn self.old.last }
        ensures last { self.new.last ≡ next self.old.last }
        ensures text { self.new.text ≡ self.old.text }
    {
        let next = (25_173 * self.last as u32 + 13_849) % 65_536;
        self.last = next as u16;
        self.last % 1_000
    }

    /// Appends bytes.
    pub(crate) fn push(&mut self, bytes: &[u8]) -> Result<(), NoMemory>
        ensures text { OnOk result (self.new.text.items ≡ self.old.text.items ++ bytes.now) }
        ensures last { self.new.last ≡ self.old.last }
    {
        self.text.extend_from_slice(bytes)
    }
}
