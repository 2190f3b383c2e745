//! The instruction words of the machine, and the labels of its segments: decoded, encoded and named.
#![tactic(auto)]

mod codes;
mod decoder;
mod encoder;
mod groups;
mod instruction;
mod labels;
mod names;

pub use codes::{control, immediate, major, shift, short};
pub use decoder::decode;
pub use encoder::{encode, has_word};
pub use groups::{Group, group_of, is_op};
pub use instruction::{Instr, Mode, Op};
pub use labels::{Label, is_label, label_word, read_label};
pub use names::name_of;
