//! Names, and places in the texts of the units.
ghost use Rattle.std.specs.Prelude.{◌≡◌, ◌≤◌, length};

use arrayvec::ArrayVec;

/// A name of the source: at most 15 characters, letters as capitals.
#[derive(Debug, PartialEq, Eq, Drop)]
pub struct Name {
    pub text: ArrayVec<u8, 15>,
}

impl Name {
    /// The name of these bytes, at most 15.
    pub fn new(bytes: &[u8]) -> Name
        requires { length bytes.now ≤ 15 }
        ensures { result.text.items ≡ bytes.now }
    {
        let mut text = ArrayVec::new();
        text.try_extend_from_slice(bytes).unwrap();
        Name { text }
    }

    /// An equal name.
    pub fn copy(&self) -> Name
        ensures { result.text.items ≡ self.now.text.items }
    {
        Name::new(self.text.as_slice())
    }
}

/// The place of a byte. Units, lines and columns count from 1.
#[derive(Clone, Copy, Debug, PartialEq, Eq)]
pub struct At {
    pub unit: u8,
    pub line: u32,
    pub column: u32,
}

/// The characters of a string, without its quotes.
#[derive(Debug, PartialEq, Eq, Drop)]
pub struct Chars {
    pub bytes: Vec<u8>,
}
