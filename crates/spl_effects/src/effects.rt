//! MOVE and SCAN, and what an IF tests.
ghost use Rattle.std.specs.Prelude.{◌≡◌};
ghost use Rattle.spl_tree.specs.Statements as statements;
ghost use Rattle.spl_tree.specs.Views as view;
ghost use Rattle.spl_reading.specs.Readers as readers;
ghost use Rattle.spl_reading.specs.ReadStatements as spec;
ghost use Rattle.spl_tokens.specs.Reads.{Reads, same_as};

use crate::references::reference;
use spl_tokens::{Fault, Tokens, is_word, operator_of, same, text};
use spl_tree::{Effect, Ref, Reserved, Source, Symbol, Test, binary, class};
use spl_within::{condition_within, enclosed_within, expression_within};
use std::alloc::Global;

/// The number of the class of characters with these letters.
#[tactic(auto, unfolding(spl_tree::specs::Statements::class_of))]
fn class_of(letters: &[u8]) -> Option<u8>
    ensures { result ≡ statements.class_of letters.now }
{
    if is_word(letters, b"A") {
        Some(class::A)
    } else if is_word(letters, b"N") {
        Some(class::N)
    } else if is_word(letters, b"AN") {
        Some(class::AN)
    } else if is_word(letters, b"AS") {
        Some(class::AS)
    } else if is_word(letters, b"ANS") {
        Some(class::ANS)
    } else {
        None
    }
}

/// The class that comes next.
#[tactic(auto, using(spl_tokens::proofs::Steps::steps), unfolding(spl_reading::specs::Readers::pure, spl_reading::specs::Readers::refuse, spl_reading::specs::Readers::followed, spl_reading::specs::Readers::and_then, spl_reading::specs::Readers::numbered))]
fn class(tokens: &mut Tokens<'_>) -> Result<u8, Fault>
    ensures { Reads same_as (readers.named_number statements.class_of tokens.old) result tokens.new }
{
    match class_of(tokens.next_name()?) {
        None => Err(Fault::Syntax),
        Some(class) => {
            tokens.take()?;
            Ok(class)
        }
    }
}

/// What stands behind the reference of a MOVE.
#[tactic(auto, using(spl_tokens::proofs::Steps::steps), unfolding(spl_reading::specs::Readers::pure, spl_reading::specs::Readers::refuse, spl_reading::specs::Readers::followed, spl_reading::specs::Readers::and_then, spl_reading::specs::ReadStatements::source_behind))]
fn source_behind(alloc: Global, tokens: &mut Tokens<'_>, room: u8, of: Ref) -> Result<Source, Fault>
    ensures { Reads view.source_tree (spec.source_behind room (view.reference of) tokens.old) result tokens.new }
{
    if same(tokens.peek()?, Symbol::Comma) {
        tokens.take()?;
        let count = enclosed_within(alloc, tokens, room)?;
        Ok(Source::Counted(of, count))
    } else {
        tokens.expect(Symbol::Word(Reserved::While))?;
        let class = class(tokens)?;
        Ok(Source::While(of, class))
    }
}

/// What a MOVE moves.
#[tactic(auto, using(spl_tokens::proofs::Steps::steps), unfolding(spl_reading::specs::Readers::pure, spl_reading::specs::Readers::refuse, spl_reading::specs::Readers::followed, spl_reading::specs::Readers::and_then, spl_reading::specs::ReadStatements::source))]
fn source(alloc: Global, tokens: &mut Tokens<'_>, room: u8) -> Result<Source, Fault>
    ensures { Reads view.source_tree (spec.source room tokens.old) result tokens.new }
{
    if same(tokens.peek()?, Symbol::Text) {
        let token = tokens.take()?;
        Ok(Source::Text(text(alloc, token)?))
    } else {
        let of = reference(alloc, tokens, room)?;
        source_behind(alloc, tokens, room, of)
    }
}

/// Whether UNTIL stands here, and else WHILE.
#[tactic(auto, using(spl_tokens::proofs::Steps::steps), unfolding(spl_reading::specs::Readers::pure, spl_reading::specs::Readers::refuse, spl_reading::specs::Readers::followed, spl_reading::specs::Readers::and_then, spl_reading::specs::ReadStatements::while_or_until))]
fn while_or_until(tokens: &mut Tokens<'_>) -> Result<bool, Fault>
    ensures { Reads same_as (spec.while_or_until tokens.old) result tokens.new }
{
    if same(tokens.peek()?, Symbol::Word(Reserved::Until)) {
        tokens.take()?;
        Ok(true)
    } else {
        tokens.expect(Symbol::Word(Reserved::While))?;
        Ok(false)
    }
}

/// A MOVE.
#[tactic(auto, using(spl_tokens::proofs::Steps::steps, crate::proofs::EffectLemmas::move_is), unfolding(spl_reading::specs::Readers::pure, spl_reading::specs::Readers::refuse, spl_reading::specs::Readers::followed, spl_reading::specs::Readers::and_then))]
fn moved(alloc: Global, tokens: &mut Tokens<'_>, room: u8) -> Result<Effect, Fault>
    ensures { Reads view.effect_tree (spec.move room tokens.old) result tokens.new }
{
    tokens.expect(Symbol::Word(Reserved::Move))?;
    let to = reference(alloc, tokens, room)?;
    tokens.expect(Symbol::Assign)?;
    let from = source(alloc, tokens, room)?;
    Ok(Effect::Move { to, from })
}

/// A SCAN.
#[tactic(auto, using(spl_tokens::proofs::Steps::steps), unfolding(spl_reading::specs::Readers::pure, spl_reading::specs::Readers::refuse, spl_reading::specs::Readers::followed, spl_reading::specs::Readers::and_then, spl_reading::specs::ReadStatements::scan))]
fn scanned(alloc: Global, tokens: &mut Tokens<'_>, room: u8) -> Result<Effect, Fault>
    ensures { Reads view.effect_tree (spec.scan room tokens.old) result tokens.new }
{
    tokens.expect(Symbol::Word(Reserved::Scan))?;
    let from = reference(alloc, tokens, room)?;
    let until = while_or_until(tokens)?;
    let test = expression_within(alloc, tokens, room)?;
    Ok(Effect::Scan { from, until, test })
}

/// A MOVE or a SCAN.
#[tactic(auto, using(spl_tokens::proofs::Steps::steps), unfolding(spl_reading::specs::Readers::pure, spl_reading::specs::Readers::refuse, spl_reading::specs::Readers::followed, spl_reading::specs::Readers::and_then, spl_reading::specs::ReadStatements::effect))]
pub fn effect(alloc: Global, tokens: &mut Tokens<'_>, room: u8) -> Result<Effect, Fault>
    ensures { Reads view.effect_tree (spec.effect room tokens.old) result tokens.new }
{
    if same(tokens.peek()?, Symbol::Word(Reserved::Scan)) {
        scanned(alloc, tokens, room)
    } else {
        moved(alloc, tokens, room)
    }
}

/// Whether a MOVE or a SCAN begins with the symbol.
pub fn begins_effect(symbol: Symbol) -> bool
    ensures { result ≡ spec.begins_effect symbol }
{
    same(symbol, Symbol::Word(Reserved::Move)) || same(symbol, Symbol::Word(Reserved::Scan))
}

/// Whether an operator is a relation.
fn is_relation(op: u8) -> bool
    ensures { result ≡ statements.is_relation op }
{
    binary::EQUAL <= op && op < binary::PLUS
}

/// What an IF tests: the condition code, where a relation stands alone.
#[tactic(auto, using(spl_tokens::proofs::Steps::steps), unfolding(spl_reading::specs::Readers::pure, spl_reading::specs::Readers::refuse, spl_reading::specs::Readers::followed, spl_reading::specs::Readers::and_then, spl_reading::specs::ReadStatements::if_test))]
pub fn test(alloc: Global, tokens: &mut Tokens<'_>, room: u8) -> Result<Test, Fault>
    ensures { Reads view.test_tree (spec.if_test room tokens.old) result tokens.new }
{
    let op = operator_of(tokens.peek()?);
    if is_relation(op) {
        tokens.take()?;
        Ok(Test::Code(op - binary::EQUAL))
    } else {
        Ok(Test::Of(condition_within(alloc, tokens, room)?))
    }
}
