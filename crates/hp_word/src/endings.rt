//! How a session's run ends.

/// Why a step ended its session. The order is that of the numbers 1 to 10 in a report.
#[derive(Clone, Copy, Debug, PartialEq, Eq)]
pub enum Trap {
    /// A signed result is out of range.
    IntegerOverflow,
    /// A divisor is zero.
    DivideByZero,
    /// A data address is not in bounds.
    Bounds,
    /// More words than the stack may hold.
    StackOverflow,
    /// More words are taken than are there.
    StackUnderflow,
    /// The word is no instruction.
    Illegal,
    /// A code offset is not below the segment's size.
    CodeBounds,
    /// A call or a return names no entry or no segment.
    BadEntry,
    /// More bytes than the print room holds.
    OutputLimit,
    /// A split, a call or a return in split mode, or a join in whole mode.
    Mode,
}

/// Where a session's run stands.
#[derive(Clone, Copy, Debug, PartialEq, Eq)]
pub enum Ending {
    /// It has not ended.
    Running,
    /// It called TERMINATE.
    Terminated,
    /// It called QUIT with this number.
    Quit(i16),
    /// A step trapped.
    Trapped(Trap),
}
