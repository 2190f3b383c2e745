//! How far a step has brought a move.

/// Whether a move goes on. What it still has to do stands on the stack, so it may be cut after each step.
#[derive(Clone, Copy, Debug, PartialEq, Eq)]
pub enum MoveStep {
    /// One element was moved, passed or compared, and P stays at the instruction.
    Moving,
    /// The move is over, and P is past the instruction.
    Moved,
}
