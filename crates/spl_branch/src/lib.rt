//! The code of a unit in a segment: pieces with marks as they are generated, and the module of words that they become.
#![tactic(auto)]

mod buffer;
mod finish;
mod modules;
mod pieces;
mod rounds;
mod spots;
mod survey;
mod wants;
mod words;

pub use buffer::{Code, Entry};
pub use modules::{Define, Fix, FixKind, Module, Start, Want};
pub use pieces::Piece;
pub use spots::Spot;
