//! Names for sums of constants.
ghost use Rattle.spl_reading.specs.Readers as readers;
ghost use Rattle.spl_reading.specs.ReadDeclarations as spec;
ghost use Rattle.spl_tokens.specs.Reads.{Reads, paired};
ghost use Rattle.spl_listed.specs.Lists as lists;

use spl_tokens::{Fault, Tokens, constant, is_sign, name, operator_of, same};
use spl_tree::{At, Const, Name, Symbol, binary};
use std::alloc::Global;

/// A name, its place, and the parts of its sum; the flag of a part says that it is subtracted.
type Equal = (Name, At, Vec<(bool, Const)>);

/// A further part of a sum, and whether another may follow.
#[tactic(auto, using(spl_tokens::proofs::Steps::steps, spl_tokens::proofs::Steps::pushed), unfolding(spl_reading::specs::Readers::pure, spl_reading::specs::Readers::refuse, spl_reading::specs::Readers::followed, spl_reading::specs::Readers::and_then, spl_reading::specs::ReadDeclarations::more_terms))]
fn further_term(
    alloc: Global,
    tokens: &mut Tokens<'_>,
    read: Vec<(bool, Const)>,
) -> Result<(bool, Vec<(bool, Const)>), Fault>
    ensures { Reads (paired lists.terms) (spec.more_terms (lists.terms read) tokens.old) result tokens.new }
{
    let mut read = read;
    let op = operator_of(tokens.peek()?);
    if is_sign(op) {
        tokens.take()?;
        let value = constant(alloc, tokens)?;
        read.push((op == binary::MINUS, value))?;
        Ok((true, read))
    } else {
        Ok((false, read))
    }
}

/// The further parts.
#[tactic(auto, using(spl_tokens::proofs::Steps::steps, spl_tokens::proofs::Turns::loops), unfolding(spl_reading::specs::Readers::pure, spl_reading::specs::Readers::refuse, spl_reading::specs::Readers::followed, spl_reading::specs::Readers::and_then))]
fn more_terms(
    alloc: Global,
    tokens: &mut Tokens<'_>,
    read: Vec<(bool, Const)>,
) -> Result<Vec<(bool, Const)>, Fault>
    ensures { Reads lists.terms (readers.repeat spec.more_terms (lists.terms read) tokens.old) result tokens.new }
{
    let mut read = read;
    for _turn in 0..tokens.left() + 1 {
        let (more, next) = further_term(alloc, tokens, read)?;
        if !more {
            return Ok(next);
        }
        read = next;
    }
    Err(Fault::Syntax)
}

/// A name for a sum.
#[tactic(auto, using(spl_tokens::proofs::Steps::steps), unfolding(spl_reading::specs::Readers::pure, spl_reading::specs::Readers::refuse, spl_reading::specs::Readers::followed, spl_reading::specs::Readers::and_then, spl_reading::specs::ReadDeclarations::equal))]
fn equal(alloc: Global, tokens: &mut Tokens<'_>) -> Result<Equal, Fault>
    ensures { Reads lists.equal (spec.equal tokens.old) result tokens.new }
{
    let token = tokens.expect(Symbol::Name)?;
    tokens.expect(Symbol::Operator(binary::EQUAL))?;
    let value = constant(alloc, tokens)?;
    let terms = more_terms(alloc, tokens, vec![in alloc; (false, value)]?)?;
    Ok((name(token), token.at, terms))
}

/// A further one, and whether another may follow.
#[tactic(auto, using(spl_tokens::proofs::Steps::steps, spl_tokens::proofs::Steps::pushed), unfolding(spl_reading::specs::Readers::pure, spl_reading::specs::Readers::refuse, spl_reading::specs::Readers::followed, spl_reading::specs::Readers::and_then, spl_reading::specs::ReadDeclarations::more_parts))]
fn further(
    alloc: Global,
    tokens: &mut Tokens<'_>,
    read: Vec<Equal>,
) -> Result<(bool, Vec<Equal>), Fault>
    ensures { Reads (paired lists.equals) (spec.more_parts spec.equal (lists.equals read) tokens.old) result tokens.new }
{
    let mut read = read;
    if same(tokens.peek()?, Symbol::Comma) {
        tokens.take()?;
        read.push(equal(alloc, tokens)?)?;
        Ok((true, read))
    } else {
        Ok((false, read))
    }
}

/// The further ones.
#[tactic(auto, using(spl_tokens::proofs::Steps::steps, spl_tokens::proofs::Turns::loops), unfolding(spl_reading::specs::Readers::pure, spl_reading::specs::Readers::refuse, spl_reading::specs::Readers::followed, spl_reading::specs::Readers::and_then))]
fn more(alloc: Global, tokens: &mut Tokens<'_>, read: Vec<Equal>) -> Result<Vec<Equal>, Fault>
    ensures { Reads lists.equals (readers.repeat (spec.more_parts spec.equal) (lists.equals read) tokens.old) result tokens.new }
{
    let mut read = read;
    for _turn in 0..tokens.left() + 1 {
        let (more, next) = further(alloc, tokens, read)?;
        if !more {
            return Ok(next);
        }
        read = next;
    }
    Err(Fault::Syntax)
}

/// Names for sums, parted by commas.
#[tactic(auto, using(spl_tokens::proofs::Steps::steps), unfolding(spl_reading::specs::Readers::pure, spl_reading::specs::Readers::refuse, spl_reading::specs::Readers::followed, spl_reading::specs::Readers::and_then, spl_reading::specs::ReadDeclarations::separated))]
pub fn equals(alloc: Global, tokens: &mut Tokens<'_>) -> Result<Vec<Equal>, Fault>
    ensures { Reads lists.equals (spec.separated spec.equal tokens.old) result tokens.new }
{
    let first = equal(alloc, tokens)?;
    more(alloc, tokens, vec![in alloc; first]?)
}
