//! The code area with its words: segments of all programs are brought in when they are needed, and read through views.
#![tactic(auto)]

mod at_hand;
mod loaded;
mod overlay;
mod room;
mod view;
mod words;

pub use at_hand::SegmentView;
pub use loaded::Loaded;
pub use overlay::Overlay;
pub use view::View;

#[cfg(test)]
mod tests;
