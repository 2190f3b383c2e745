//! Why a push, or a call that wants words, is refused.

/// No more words fit.
#[derive(Clone, Copy, Debug, PartialEq, Eq)]
pub struct Overflow {
    /// STACK, which is also how many words there are.
    pub limit: u16,
}

/// Fewer words are there than were asked for.
#[derive(Clone, Copy, Debug, PartialEq, Eq)]
pub struct Underflow {
    /// How many were asked for; 255 stands for every larger number too.
    pub wanted: u8,
    /// How many there are.
    pub there: u16,
}
