//! What statements append that holds no expression: stores, deposits, counts, and the ends of moves and scans.
#![tactic(auto)]

mod counts;
mod drops;
mod effects;
mod fields;
mod puts;
mod stores;
mod targets;

pub use counts::count_at;
pub use drops::{drop_result, drop_words, result_of};
pub use effects::{
    behind_first, behind_second, keep_first, move_class, move_elements, scale_offset, scan, tell,
    text_count,
};
pub use fields::{Bits, deposit_at};
pub use puts::{begin, count_to, idle, new_mark};
pub use stores::{from_top, store, store_at};
pub use targets::{assigned_access, behind_target};
