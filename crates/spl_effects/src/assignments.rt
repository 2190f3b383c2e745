//! Assignments, and calls by a name alone or with one argument.
ghost use Rattle.std.specs.Prelude.{◌≡◌};
ghost use Rattle.spl_tree.specs.StatementTrees as stat;
ghost use Rattle.spl_tree.specs.Views as view;
ghost use Rattle.spl_reading.specs.ReadStatements as spec;
ghost use Rattle.spl_tokens.specs.Reads.{Reads};
ghost use Rattle.spl_effects.specs.References.{place_of, behind};

use crate::effects::{begins_effect, effect};
use crate::references::{called, place};
use spl_tokens::{Fault, Tokens, constant, same};
use spl_tree::{At, Effect, Expr, Ref, Stmt, Symbol, Target};
use spl_within::expression_within;
use std::alloc::Global;

/// A value stored into a target.
fn stored(to: Target, value: Expr, at: At) -> Stmt
    ensures { view.statement result ≡ stat.Statement.assign (view.target_tree to) (view.expression value) at }
{
    Stmt::Assign { to, value, at }
}

/// The value of a MOVE or a SCAN stored into a target.
fn stored_effect(to: Target, effect: Effect, at: At) -> Stmt
    ensures { view.statement result ≡ stat.Statement.assign_effect (view.target_tree to) (view.effect_tree effect) at }
{
    Stmt::AssignEffect { to, effect, at }
}

/// What is assigned.
#[tactic(auto, using(spl_tokens::proofs::Steps::steps), unfolding(spl_reading::specs::Readers::pure, spl_reading::specs::Readers::refuse, spl_reading::specs::Readers::followed, spl_reading::specs::Readers::and_then, spl_reading::specs::ReadStatements::value))]
fn value(
    alloc: Global,
    tokens: &mut Tokens<'_>,
    room: u8,
    to: Target,
    at: At,
) -> Result<Stmt, Fault>
    ensures { Reads view.statement (spec.value room (view.target_tree to) at tokens.old) result tokens.new }
{
    if begins_effect(tokens.peek()?) {
        let effect = effect(alloc, tokens, room)?;
        Ok(stored_effect(to, effect, at))
    } else {
        let value = expression_within(alloc, tokens, room)?;
        Ok(stored(to, value, at))
    }
}

/// An assignment behind its target.
#[tactic(auto, using(spl_tokens::proofs::Steps::steps), unfolding(spl_reading::specs::Readers::pure, spl_reading::specs::Readers::refuse, spl_reading::specs::Readers::followed, spl_reading::specs::Readers::and_then, spl_reading::specs::ReadStatements::assigned))]
pub fn assigned(
    alloc: Global,
    tokens: &mut Tokens<'_>,
    room: u8,
    to: Target,
    at: At,
) -> Result<Stmt, Fault>
    ensures { Reads view.statement (spec.assigned room (view.target_tree to) at tokens.old) result tokens.new }
{
    tokens.expect(Symbol::Assign)?;
    value(alloc, tokens, room, to, at)
}

/// An assignment to a bit field, from its dot on.
#[tactic(auto, using(spl_tokens::proofs::Steps::steps), unfolding(spl_reading::specs::Readers::pure, spl_reading::specs::Readers::refuse, spl_reading::specs::Readers::followed, spl_reading::specs::Readers::and_then, spl_reading::specs::ReadStatements::field_assigned))]
fn field_assigned(alloc: Global, tokens: &mut Tokens<'_>, room: u8, of: Ref) -> Result<Stmt, Fault>
    ensures { Reads view.statement (spec.field_assigned room (view.reference of) (place_of (view.reference of)) tokens.old) result tokens.new }
{
    let at = place(&of);
    tokens.expect(Symbol::Dot)?;
    tokens.expect(Symbol::Open)?;
    let start = constant(alloc, tokens)?;
    tokens.expect(Symbol::Colon)?;
    let length = constant(alloc, tokens)?;
    tokens.expect(Symbol::Close)?;
    assigned(alloc, tokens, room, Target::Field { of, start, length }, at)
}

/// A statement behind the reference at its front: a call, where no assignment follows.
#[tactic(auto, using(spl_tokens::proofs::Steps::steps), unfolding(spl_reading::specs::Readers::pure, spl_reading::specs::Readers::refuse, spl_reading::specs::Readers::followed, spl_reading::specs::Readers::and_then, spl_reading::specs::ReadStatements::behind_reference))]
pub fn behind_reference(
    alloc: Global,
    tokens: &mut Tokens<'_>,
    room: u8,
    reference: Ref,
) -> Result<Stmt, Fault>
    ensures { Reads view.statement (behind room (view.reference reference) tokens.old) result tokens.new }
{
    let next = tokens.peek()?;
    if same(next, Symbol::Dot) {
        field_assigned(alloc, tokens, room, reference)
    } else if same(next, Symbol::Assign) {
        let at = place(&reference);
        assigned(alloc, tokens, room, Target::Plain(reference), at)
    } else {
        Ok(called(alloc, reference)?)
    }
}
