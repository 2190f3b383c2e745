//! Where the labels of a body lead, as the code of its statements is told.
#![tactic(auto)]

mod landing;

pub use landing::Landing;
