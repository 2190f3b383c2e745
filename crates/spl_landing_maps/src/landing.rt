//! A label's mark.

/// Where a label leads.
#[derive(Clone, Copy, Debug, PartialEq, Eq, Drop)]
pub struct Landing {
    pub mark: usize,
    /// The words that wait in the list that bears the label.
    pub pending: u16,
}
