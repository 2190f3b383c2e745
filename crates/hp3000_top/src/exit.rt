//! How the program ends.
ghost use Rattle.std.specs.Prelude.{◌≡◌};
ghost use Rattle.hp3000_top.specs.Statuses.{status_of};

/// How the top call ends.
#[derive(Clone, Copy, Debug, PartialEq, Eq)]
pub enum Exit {
    /// The output was written.
    Done,
    /// A refusal line was written.
    Refused,
    /// The words of the command line are none that the program knows; nothing was read or written.
    Usage,
    /// The input could not be read; nothing was written.
    ReadFault,
    /// The output could not be written; a prefix of it was.
    WriteFault,
    /// Memory is wanting; nothing was written.
    NoMemory,
    /// The input has more than 1,048,576 bytes; nothing was written.
    InputTooLong,
}

impl Exit {
    /// The exit status of the process: 0 to 6, in the order of the answers.
    pub fn status(self) -> u8
        ensures { result ≡ status_of self }
    {
        self as u8
    }
}
