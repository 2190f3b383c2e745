//! Conditions and values in statements.
//!
//! At a fault what was read is dropped by a call of `drop`, as in the levels of operators: a `?` writes out the drop of all that
//! it lets go. So what is read behind a part is read by a function that holds none.
ghost use Rattle.spl_tree.specs.Views as view;
ghost use Rattle.spl_reading.specs.ReadStatements as spec;
ghost use Rattle.spl_tokens.specs.Reads.{Reads};
ghost use Rattle.spl_statement_parts.specs.Parts as parts;

use crate::trees::Values;
use spl_tokens::{Fault, Tokens, same};
use spl_tree::{Expr, Reserved, Symbol};
use spl_within::{condition_within, expression_within};
use std::alloc::Global;

/// A step, where there is one.
#[tactic(auto, using(spl_tokens::proofs::Steps::steps), unfolding(spl_reading::specs::Readers::pure, spl_reading::specs::Readers::refuse, spl_reading::specs::Readers::followed, spl_reading::specs::Readers::and_then, spl_reading::specs::ReadStatements::stepped))]
fn stepped(alloc: Global, tokens: &mut Tokens<'_>, room: u8) -> Result<Option<Expr>, Fault>
    ensures { Reads view.optional (spec.stepped room tokens.old) result tokens.new }
{
    if same(tokens.peek()?, Symbol::Word(Reserved::Step)) {
        tokens.take()?;
        Ok(Some(expression_within(alloc, tokens, room)?))
    } else {
        Ok(None)
    }
}

/// The condition behind UNTIL. An error is the first token that may not stand there, or want of memory.
#[tactic(auto, using(spl_tokens::proofs::Steps::steps), unfolding(spl_reading::specs::Readers::pure, spl_reading::specs::Readers::refuse, spl_reading::specs::Readers::followed, spl_reading::specs::Readers::and_then, crate::specs::Parts::until_condition))]
pub fn until_condition(alloc: Global, tokens: &mut Tokens<'_>, room: u8) -> Result<Expr, Fault>
    ensures { Reads view.expression (parts.until_condition room tokens.old) result tokens.new }
{
    tokens.expect(Symbol::Word(Reserved::Until))?;
    condition_within(alloc, tokens, room)
}

/// The value behind UNTIL.
#[tactic(auto, using(spl_tokens::proofs::Steps::steps), unfolding(spl_reading::specs::Readers::pure, spl_reading::specs::Readers::refuse, spl_reading::specs::Readers::followed, spl_reading::specs::Readers::and_then, crate::specs::Parts::limit))]
fn limit(alloc: Global, tokens: &mut Tokens<'_>, room: u8) -> Result<Expr, Fault>
    ensures { Reads view.expression (parts.limit room tokens.old) result tokens.new }
{
    tokens.expect(Symbol::Word(Reserved::Until))?;
    expression_within(alloc, tokens, room)
}

/// The step of a FOR, where there is one, and its last value.
#[tactic(auto, using(spl_tokens::proofs::Steps::steps), unfolding(spl_reading::specs::Readers::pure, spl_reading::specs::Readers::refuse, spl_reading::specs::Readers::followed, spl_reading::specs::Readers::and_then, crate::specs::Parts::bounds))]
fn bounds(alloc: Global, tokens: &mut Tokens<'_>, room: u8) -> Result<(Option<Expr>, Expr), Fault>
    ensures { Reads parts.step_and_last (parts.bounds room tokens.old) result tokens.new }
{
    let step = stepped(alloc, tokens, room)?;
    match limit(alloc, tokens, room) {
        Ok(last) => Ok((step, last)),
        Err(fault) => {
            drop(step);
            Err(fault)
        }
    }
}

/// The values of a FOR. An error is the first token that may not stand there, or want of memory.
#[tactic(auto, using(spl_tokens::proofs::Steps::steps), unfolding(spl_reading::specs::Readers::pure, spl_reading::specs::Readers::refuse, spl_reading::specs::Readers::followed, spl_reading::specs::Readers::and_then, crate::specs::Parts::values))]
pub fn values(alloc: Global, tokens: &mut Tokens<'_>, room: u8) -> Result<Values, Fault>
    ensures { Reads parts.all_of (parts.values room tokens.old) result tokens.new }
{
    let first = expression_within(alloc, tokens, room)?;
    match bounds(alloc, tokens, room) {
        Ok((step, last)) => Ok(Values { first, step, last }),
        Err(fault) => {
            drop(first);
            Err(fault)
        }
    }
}
