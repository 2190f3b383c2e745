//! What may happen to a monitor.

/// One event of a monitor.
#[derive(Clone, Copy, Debug, PartialEq, Eq)]
pub enum Event {
    /// The session `who`, counted from 0, gets a turn of at most `quantum` steps.
    Turn { who: u8, quantum: u32 },
    /// A segment of a program is given up.
    Evict { program: u8, seg: u8 },
}
