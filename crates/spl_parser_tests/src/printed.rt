//! The trees of texts, as they are printed.

use crate::tokens::tokens;
use spl_tokens::{Fault, Tokens};
use spl_units::spl_statements::statement;
use spl_units::unit;
use std::alloc::{AllocError, Global};
use std::fmt::Debug;

/// What a text is read as.
pub enum Tree {
    Statement,
    Unit,
}

/// A tree as it is printed: nothing where there is none. Of any type, since what is known of a tree's type is written out at
/// each way out of a function that holds one.
fn text_of<T: Debug + Drop>(alloc: Global, read: Result<T, Fault>) -> Result<String, AllocError> {
    match read {
        Ok(tree) => format!(in alloc; "{tree:?}"),
        Err(_) => Ok(String::new(alloc)),
    }
}

fn read(alloc: Global, cursor: &mut Tokens<'_>, as_what: &Tree) -> Result<String, AllocError> {
    match as_what {
        Tree::Statement => text_of(alloc, statement(alloc, cursor, 64)),
        Tree::Unit => text_of(alloc, unit(alloc, cursor, 64)),
    }
}

/// The tree of a text whose tokens have columns that are `step` apart: nothing where it has none.
pub fn printed(alloc: Global, as_what: &Tree, text: &str, step: u32) -> Result<String, AllocError> {
    let tokens = tokens(alloc, text, step)?;
    read(alloc, &mut Tokens::new(&tokens), as_what)
}
