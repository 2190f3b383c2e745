//! What a session's terminal has to say.

/// One terminal line, without its line feed.
#[derive(Debug, Drop)]
pub struct Line {
    /// The bytes as they were typed.
    pub bytes: Vec<u8>,
}
