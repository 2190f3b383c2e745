//! Lists of names.
ghost use Rattle.spl_tree.specs.Spells as spells;
ghost use Rattle.spl_reading.specs.Readers as readers;
ghost use Rattle.spl_reading.specs.ReadDeclarations as spec;
ghost use Rattle.spl_tokens.specs.Reads.{Reads, paired};
ghost use Rattle.spl_listed.specs.Lists as lists;

use spl_tokens::{Fault, Tokens, name, same};
use spl_tree::{At, Name, Symbol};
use std::alloc::Global;

/// A name with its place.
#[tactic(auto, using(spl_tokens::proofs::Steps::steps), unfolding(spl_reading::specs::Readers::pure, spl_reading::specs::Readers::refuse, spl_reading::specs::Readers::followed, spl_reading::specs::Readers::and_then, spl_reading::specs::ReadDeclarations::name))]
fn placed(tokens: &mut Tokens<'_>) -> Result<(Name, At), Fault>
    ensures { Reads spells.placed (spec.name tokens.old) result tokens.new }
{
    let token = tokens.expect(Symbol::Name)?;
    Ok((name(token), token.at))
}

/// A further name, and whether another may follow.
#[tactic(auto, using(spl_tokens::proofs::Steps::steps, spl_tokens::proofs::Steps::pushed), unfolding(spl_reading::specs::Readers::pure, spl_reading::specs::Readers::refuse, spl_reading::specs::Readers::followed, spl_reading::specs::Readers::and_then, spl_reading::specs::ReadDeclarations::more_parts))]
fn further(tokens: &mut Tokens<'_>, read: Vec<(Name, At)>) -> Result<(bool, Vec<(Name, At)>), Fault>
    ensures { Reads (paired lists.names) (spec.more_parts spec.name (lists.names read) tokens.old) result tokens.new }
{
    let mut read = read;
    if same(tokens.peek()?, Symbol::Comma) {
        tokens.take()?;
        read.push(placed(tokens)?)?;
        Ok((true, read))
    } else {
        Ok((false, read))
    }
}

/// The further names.
#[tactic(auto, using(spl_tokens::proofs::Steps::steps, spl_tokens::proofs::Turns::loops), unfolding(spl_reading::specs::Readers::pure, spl_reading::specs::Readers::refuse, spl_reading::specs::Readers::followed, spl_reading::specs::Readers::and_then))]
fn more(tokens: &mut Tokens<'_>, read: Vec<(Name, At)>) -> Result<Vec<(Name, At)>, Fault>
    ensures { Reads lists.names (readers.repeat (spec.more_parts spec.name) (lists.names read) tokens.old) result tokens.new }
{
    let mut read = read;
    for _turn in 0..tokens.left() + 1 {
        let (more, next) = further(tokens, read)?;
        if !more {
            return Ok(next);
        }
        read = next;
    }
    Err(Fault::Syntax)
}

/// Names, parted by commas.
#[tactic(auto, using(spl_tokens::proofs::Steps::steps), unfolding(spl_reading::specs::Readers::pure, spl_reading::specs::Readers::refuse, spl_reading::specs::Readers::followed, spl_reading::specs::Readers::and_then, spl_reading::specs::ReadDeclarations::names, spl_reading::specs::ReadDeclarations::separated))]
pub fn names(alloc: Global, tokens: &mut Tokens<'_>) -> Result<Vec<(Name, At)>, Fault>
    ensures { Reads lists.names (spec.names tokens.old) result tokens.new }
{
    let first = placed(tokens)?;
    more(tokens, vec![in alloc; first]?)
}

/// The names of parameters in parentheses, where there are any.
#[tactic(auto, using(spl_tokens::proofs::Steps::steps), unfolding(spl_reading::specs::Readers::pure, spl_reading::specs::Readers::refuse, spl_reading::specs::Readers::followed, spl_reading::specs::Readers::and_then, spl_reading::specs::ReadDeclarations::parameters))]
pub fn parameters(alloc: Global, tokens: &mut Tokens<'_>) -> Result<Vec<(Name, At)>, Fault>
    ensures { Reads lists.names (spec.parameters tokens.old) result tokens.new }
{
    if same(tokens.peek()?, Symbol::Open) {
        tokens.take()?;
        let names = names(alloc, tokens)?;
        tokens.expect(Symbol::Close)?;
        Ok(names)
    } else {
        Ok(Vec::new(alloc))
    }
}
