//! Results of sixteen-bit and thirty-two-bit arithmetic, by the exact result over the whole numbers.

/// The condition code: whether a result, or the lower of two compared operands, is above, below or at the other.
#[derive(Clone, Copy, Debug, PartialEq, Eq)]
pub enum Code {
    /// CCG: above zero, or the lower operand is the greater.
    Greater,
    /// CCL: below zero, or the lower operand is the less.
    Less,
    /// CCE: zero, or the operands are equal.
    Equal,
}

/// What an operation on words leaves.
#[derive(Clone, Copy, Debug, PartialEq, Eq)]
pub struct Arith {
    /// The result modulo 65,536.
    pub value: u16,
    /// The carry out of the sixteen bits; for a difference, that nothing was borrowed.
    pub carry: bool,
    /// That the exact result is outside the signed range of a word.
    pub overflow: bool,
    /// The condition code of `value` read as a signed word.
    pub code: Code,
}

/// What an operation on doubles leaves.
#[derive(Clone, Copy, Debug, PartialEq, Eq)]
pub struct Wide {
    /// The result modulo 4,294,967,296.
    pub value: u32,
    /// The carry out of the thirty-two bits; for a difference, that nothing was borrowed.
    pub carry: bool,
    /// That the exact result is outside the signed range of a double.
    pub overflow: bool,
    /// The condition code of `value` read as a signed double.
    pub code: Code,
}

/// What a division leaves.
#[derive(Clone, Copy, Debug, PartialEq, Eq)]
pub struct Quotient {
    /// The quotient modulo 65,536.
    pub quotient: u16,
    /// The remainder modulo 65,536.
    pub remainder: u16,
    /// That the exact quotient is outside the signed range of a word; never for an unsigned division.
    pub overflow: bool,
}
