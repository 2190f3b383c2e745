//! The monitor's intrinsics, by name.

/// A monitor call. The order is that of the gate's entries 1 to 8.
#[derive(Clone, Copy, Debug, PartialEq, Eq)]
pub enum Intrinsic {
    /// Prints words or bytes.
    Print,
    /// Reads a terminal line.
    Read,
    /// The text of a word.
    Ascii,
    /// The text of a double.
    Dascii,
    /// The word in a text.
    Binary,
    /// The double in a text.
    Dbinary,
    /// Ends the session.
    Terminate,
    /// Ends the session with a number.
    Quit,
}
