//! Constants: a number with or without a sign, a string, TRUE, FALSE, or a name.
ghost use Rattle.std.specs.Prelude.{◌≡◌};
ghost use Rattle.spl_tree.specs.Operators as operators;
ghost use Rattle.spl_tree.specs.Views as view;
ghost use Rattle.spl_reading.specs.Readers.{by_symbol};
ghost use Rattle.spl_reading.specs.ReadExpressions as spec;
ghost use Rattle.spl_tokens.specs.Reads.{Reads};

use crate::faults::Fault;
use crate::tokens::Tokens;
use crate::words::{name, text};
use spl_tree::{Const, Symbol, binary};
use std::alloc::Global;

/// Whether an operator is + or -.
pub fn is_sign(op: u8) -> bool
    ensures { result ≡ operators.is_sign op }
{
    op == binary::PLUS || op == binary::MINUS
}

/// The number behind a sign.
#[tactic(auto, using(crate::proofs::Steps::steps), unfolding(spl_reading::specs::Readers::pure, spl_reading::specs::Readers::refuse, spl_reading::specs::Readers::followed, spl_reading::specs::Readers::and_then, spl_reading::specs::ReadExpressions::signed_by))]
fn signed(tokens: &mut Tokens<'_>, minus: bool) -> Result<Const, Fault>
    ensures { Reads view.constant (by_symbol (spec.signed_by minus) tokens.old) result tokens.new }
{
    match tokens.peek()? {
        Symbol::Number(value) => {
            tokens.take()?;
            Ok(Const::Number(minus, value))
        }
        Symbol::Wide(value) => {
            tokens.take()?;
            Ok(Const::Wide(minus, value))
        }
        _ => Err(Fault::Syntax),
    }
}

/// A constant.
#[tactic(auto, using(crate::proofs::Steps::steps), unfolding(spl_reading::specs::Readers::pure, spl_reading::specs::Readers::refuse, spl_reading::specs::Readers::followed, spl_reading::specs::Readers::and_then, spl_reading::specs::ReadExpressions::constant, spl_reading::specs::ReadExpressions::constant_by))]
pub fn constant(alloc: Global, tokens: &mut Tokens<'_>) -> Result<Const, Fault>
    ensures { Reads view.constant (spec.constant tokens.old) result tokens.new }
{
    match tokens.peek()? {
        Symbol::Number(value) => {
            tokens.take()?;
            Ok(Const::Number(false, value))
        }
        Symbol::Wide(value) => {
            tokens.take()?;
            Ok(Const::Wide(false, value))
        }
        Symbol::Text => Ok(Const::Text(text(alloc, tokens.take()?)?)),
        Symbol::Truth(truth) => {
            tokens.take()?;
            Ok(Const::Truth(truth))
        }
        Symbol::Name => {
            let token = tokens.take()?;
            Ok(Const::Name(name(token), token.at))
        }
        Symbol::Operator(op) if is_sign(op) => {
            tokens.take()?;
            signed(tokens, op == binary::MINUS)
        }
        _ => Err(Fault::Syntax),
    }
}
