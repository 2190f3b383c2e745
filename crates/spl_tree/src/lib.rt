//! The trees of source programs, and the grammar that their tokens follow.
#![tactic(auto)]

mod declarations;
mod expressions;
mod fault_kinds;
mod marks;
mod names_and_places;
mod statements;
mod symbols;
mod tokens;
mod units;

pub use declarations::{Body, Decl, Heading, Item, Shape, Spec};
pub use expressions::{Const, Expr, Kind, Ref};
pub use fault_kinds::FaultKind;
pub use marks::{binary, class, mark, relation, shift, unary};
pub use names_and_places::{At, Chars, Name};
pub use statements::{Effect, Source, Stmt, Target, Test};
pub use symbols::{Reserved, Symbol};
pub use tokens::{Lexed, Token, What};
pub use units::SplUnit;
