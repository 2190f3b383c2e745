//! The headings of procedures and subroutines.
ghost use Rattle.std.specs.Prelude.{◌≡◌, IfOk, false, [], Option, Some, None};
ghost use Rattle.spl_tree.specs.declared.symbols.Symbol.{Symbol};
ghost use Rattle.spl_tree.specs.Spells as spells;
ghost use Rattle.spl_reading.specs.Readers as readers;
ghost use Rattle.spl_reading.specs.ReadDeclarations as spec;
ghost use Rattle.spl_tokens.specs.Reads.{Reads, lexeme, paired};
ghost use Rattle.spl_listed.specs.Lists as lists;
ghost use Rattle.spl_headings.specs.Headings as headings;

use crate::name_lists::{names, parameters};
use spl_tokens::{Fault, Tokens, name, same};
use spl_tree::{At, Heading, Kind, Name, Reserved, Spec, Symbol, Token};
use std::alloc::Global;

/// The names of some parameters and the semicolon behind them.
#[tactic(auto, using(spl_tokens::proofs::Steps::steps), unfolding(spl_reading::specs::Readers::pure, spl_reading::specs::Readers::refuse, spl_reading::specs::Readers::followed, spl_reading::specs::Readers::and_then, spl_reading::specs::ReadDeclarations::spec_names))]
fn spec_names(
    alloc: Global,
    tokens: &mut Tokens<'_>,
    kind: Kind,
    array: bool,
) -> Result<Spec, Fault>
    ensures { Reads spells.spec_tree (spec.spec_names kind array tokens.old) result tokens.new }
{
    let names = names(alloc, tokens)?;
    tokens.expect(Symbol::Semicolon)?;
    Ok(Spec { kind, array, names })
}

/// The parameters of a kind, behind its word.
#[tactic(auto, using(spl_tokens::proofs::Steps::steps), unfolding(spl_reading::specs::Readers::pure, spl_reading::specs::Readers::refuse, spl_reading::specs::Readers::followed, spl_reading::specs::Readers::and_then, spl_reading::specs::ReadDeclarations::spec_behind))]
fn spec_behind(alloc: Global, tokens: &mut Tokens<'_>, kind: Kind) -> Result<Spec, Fault>
    ensures { Reads spells.spec_tree (spec.spec_behind kind tokens.old) result tokens.new }
{
    if same(tokens.peek()?, Symbol::Word(Reserved::Array)) {
        tokens.take()?;
        spec_names(alloc, tokens, kind, true)
    } else {
        spec_names(alloc, tokens, kind, false)
    }
}

/// A further specification, and whether another may follow.
#[tactic(auto, using(spl_tokens::proofs::Steps::steps, spl_tokens::proofs::Steps::pushed), unfolding(spl_reading::specs::Readers::pure, spl_reading::specs::Readers::refuse, spl_reading::specs::Readers::followed, spl_reading::specs::Readers::and_then, spl_reading::specs::ReadDeclarations::more_specs, spl_reading::specs::ReadDeclarations::spec_by))]
fn further_spec(
    alloc: Global,
    tokens: &mut Tokens<'_>,
    read: Vec<Spec>,
) -> Result<(bool, Vec<Spec>), Fault>
    ensures { Reads (paired lists.specs) (spec.more_specs (lists.specs read) tokens.old) result tokens.new }
{
    match tokens.peek()? {
        Symbol::Type(kind) => {
            tokens.take()?;
            let mut read = read;
            read.push(spec_behind(alloc, tokens, kind)?)?;
            Ok((true, read))
        }
        _ => untyped_spec(alloc, tokens, read),
    }
}

/// A further specification without a kind, and whether another may follow.
#[tactic(auto, using(spl_tokens::proofs::Steps::steps, spl_tokens::proofs::Steps::pushed), unfolding(spl_reading::specs::Readers::pure, spl_reading::specs::Readers::refuse, spl_reading::specs::Readers::followed, spl_reading::specs::Readers::and_then))]
fn untyped_spec(
    alloc: Global,
    tokens: &mut Tokens<'_>,
    read: Vec<Spec>,
) -> Result<(bool, Vec<Spec>), Fault>
    ensures { Reads (paired lists.specs) (lists.untyped_spec (lists.specs read) tokens.old) result tokens.new }
{
    let mut read = read;
    if same(tokens.peek()?, Symbol::Word(Reserved::Array)) {
        tokens.take()?;
        read.push(spec_names(alloc, tokens, Kind::Logical, true)?)?;
        Ok((true, read))
    } else {
        Ok((false, read))
    }
}

/// The specifications.
#[tactic(auto, using(spl_tokens::proofs::Steps::steps, spl_tokens::proofs::Turns::loops), unfolding(spl_reading::specs::Readers::pure, spl_reading::specs::Readers::refuse, spl_reading::specs::Readers::followed, spl_reading::specs::Readers::and_then))]
fn specs(alloc: Global, tokens: &mut Tokens<'_>) -> Result<Vec<Spec>, Fault>
    ensures { Reads lists.specs (readers.repeat spec.more_specs [] tokens.old) result tokens.new }
{
    let mut read = Vec::new(alloc);
    for _turn in 0..tokens.left() + 1 {
        let (more, next) = further_spec(alloc, tokens, read)?;
        if !more {
            return Ok(next);
        }
        read = next;
    }
    Err(Fault::Syntax)
}

/// What VALUE lists and the specifications, behind the parameters.
#[tactic(auto, using(spl_tokens::proofs::Steps::steps), unfolding(spl_reading::specs::Readers::pure, spl_reading::specs::Readers::refuse, spl_reading::specs::Readers::followed, spl_reading::specs::Readers::and_then, spl_reading::specs::ReadDeclarations::heading_tail))]
fn tail(alloc: Global, tokens: &mut Tokens<'_>) -> Result<(Vec<(Name, At)>, Vec<Spec>), Fault>
    ensures { Reads lists.tail (spec.heading_tail tokens.old) result tokens.new }
{
    tokens.expect(Symbol::Semicolon)?;
    if same(tokens.peek()?, Symbol::Word(Reserved::Value)) {
        tokens.take()?;
        let values = names(alloc, tokens)?;
        tokens.expect(Symbol::Semicolon)?;
        Ok((values, specs(alloc, tokens)?))
    } else {
        Ok((Vec::new(alloc), specs(alloc, tokens)?))
    }
}

#[tactic(auto, unfolding(spl_tokens::specs::Reads::lexeme))]
/// The segment of a heading: this one, or that in force at its word.
fn segment_at(word: &Token, segment: Option<u16>) -> u16
    ensures { result ≡ headings.segment_by segment (lexeme word.now) }
{
    match segment {
        None => word.segment,
        Some(segment) => segment,
    }
}

/// A heading without its options, so not split, of this segment or of that in force at its word.
#[tactic(auto, using(spl_tokens::proofs::Steps::steps), unfolding(spl_reading::specs::Readers::pure, spl_reading::specs::Readers::refuse, spl_reading::specs::Readers::followed, spl_reading::specs::Readers::and_then, spl_reading::specs::ReadDeclarations::heading))]
pub fn heading(
    alloc: Global,
    tokens: &mut Tokens<'_>,
    result_kind: Option<Kind>,
    segment: Option<u16>,
) -> Result<Heading, Fault>
    ensures read { Reads headings.heading (spec.heading result_kind (headings.segment_by segment) tokens.old) result tokens.new }
    ensures unsplit { IfOk result (λ heading. heading.split ≡ false) }
{
    let word = tokens.take()?;
    let token = tokens.expect(Symbol::Name)?;
    let names = parameters(alloc, tokens)?;
    let (values, specs) = tail(alloc, tokens)?;
    Ok(Heading {
        result: result_kind,
        name: name(token),
        names,
        values,
        specs,
        split: false,
        at: token.at,
        segment: segment_at(word, segment),
    })
}

/// A heading with the option SPLIT or not.
pub fn with_split(heading: Heading, split: bool) -> Heading
    ensures { spells.heading_tree result ≡ headings.heading heading split }
{
    Heading {
        result: heading.result,
        name: heading.name,
        names: heading.names,
        values: heading.values,
        specs: heading.specs,
        split,
        at: heading.at,
        segment: heading.segment,
    }
}
