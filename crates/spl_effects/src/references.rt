//! References: names with an index or not.
ghost use Rattle.std.specs.Prelude.{◌≡◌, [], ◌∷◌, IfOk};
ghost use Rattle.spl_tree.specs.declared.symbols.Symbol.{Symbol};
ghost use Rattle.spl_tree.specs.Trees as tree;
ghost use Rattle.spl_tree.specs.Views as view;
ghost use Rattle.spl_reading.specs.ReadStatements as spec;
ghost use Rattle.spl_tokens.specs.Reads.{Reads, lexeme};
ghost use Rattle.spl_effects.specs.References.{place_of, call_of};

use spl_tokens::{Fault, Tokens, name, same};
use spl_tree::{At, Expr, Name, Ref, Stmt, Symbol, Token};
use spl_within::enclosed_within;
use std::alloc::{AllocError, Global};

/// A name alone.
pub fn variable(name: Name, at: At) -> Ref
    ensures { view.reference result ≡ tree.Tree.named (view.letters name) (tree.trees []) at }
{
    Ref {
        name,
        index: None,
        at,
    }
}

/// A name with an index.
pub fn element(alloc: Global, name: Name, index: Expr, at: At) -> Result<Ref, AllocError>
    ensures { IfOk result (λ r. view.reference r ≡ tree.Tree.named (view.letters name) (tree.trees (view.expression index ∷ [])) at) }
{
    let index = Box::new(alloc, index)?;
    Ok(Ref {
        name,
        index: Some(index),
        at,
    })
}

/// The place of a reference.
pub fn place(reference: &Ref) -> At
    ensures { result ≡ place_of (view.reference reference.now) }
{
    reference.at
}

/// A reference as a statement: a call.
pub fn called(alloc: Global, reference: Ref) -> Result<Stmt, AllocError>
    ensures { IfOk result (λ s. view.statement s ≡ call_of (view.reference reference)) }
{
    let Ref { name, index, at } = reference;
    match index {
        None => Ok(Stmt::Call {
            name,
            args: Vec::new(alloc),
            at,
        }),
        Some(index) => Ok(Stmt::Call {
            name,
            args: vec![in alloc; Box::into_inner(index)]?,
            at,
        }),
    }
}

/// A name that was read, and an index where a parenthesis is behind it.
#[tactic(auto, using(spl_tokens::proofs::Steps::steps), unfolding(spl_reading::specs::Readers::pure, spl_reading::specs::Readers::refuse, spl_reading::specs::Readers::followed, spl_reading::specs::Readers::and_then, spl_reading::specs::ReadStatements::indexed))]
pub fn indexed(
    alloc: Global,
    tokens: &mut Tokens<'_>,
    room: u8,
    token: &Token,
) -> Result<Ref, Fault>
    requires name { (lexeme token.now).symbol ≡ Symbol.Name }
    ensures { Reads view.reference (spec.indexed room (lexeme token.now) tokens.old) result tokens.new }
{
    let name = name(token);
    let at = token.at;
    if same(tokens.peek()?, Symbol::Open) {
        let index = enclosed_within(alloc, tokens, room)?;
        Ok(element(alloc, name, index, at)?)
    } else {
        Ok(variable(name, at))
    }
}

/// A reference.
#[tactic(auto, using(spl_tokens::proofs::Steps::steps), unfolding(spl_reading::specs::Readers::pure, spl_reading::specs::Readers::refuse, spl_reading::specs::Readers::followed, spl_reading::specs::Readers::and_then, spl_reading::specs::ReadStatements::reference))]
pub fn reference(alloc: Global, tokens: &mut Tokens<'_>, room: u8) -> Result<Ref, Fault>
    ensures { Reads view.reference (spec.reference room tokens.old) result tokens.new }
{
    let token = tokens.expect(Symbol::Name)?;
    indexed(alloc, tokens, room, token)
}
