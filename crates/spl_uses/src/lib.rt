//! The rules of expressions and references, as they are checked along the tree.
#![tactic(auto)]

mod expressions;
mod names;
mod scopes;
mod values;

pub use expressions::{arguments, expression, far, indices, reference};
pub use names::{
    call, constant, constant_place, field, has_elements, name, place, split_use, variable,
};
pub use scopes::Scope;
pub use values::{
    argument, bits, compares_text, is_label_name, kind_at, operation, reference_kind, single,
};
