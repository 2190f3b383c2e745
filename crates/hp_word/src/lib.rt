//! Words of the machine: sixteen-bit arithmetic over whole numbers, and the names that the whole product shares.
#![tactic(auto)]

mod arithmetic;
mod doubles;
mod endings;
mod exact;
mod fields;
mod integers;
mod intrinsics;
mod logical;
mod numbers;
mod shifts;
mod texts;

pub use arithmetic::{Arith, Code, Quotient, Wide};
pub use doubles::{dadd, dcmp, dneg, dsub};
pub use endings::{Ending, Trap};
pub use fields::{deposit, extract};
pub use integers::{add, cmp, div, mpy, neg, sub};
pub use intrinsics::Intrinsic;
pub use logical::{ladd, lcmp, ldiv, lmpy, lsub};
pub use numbers::{Number, read_number};
pub use shifts::{Shift, shift_word};
pub use texts::{decimal_text, octal_text};
