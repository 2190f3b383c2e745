//! Data items: variables with their values, arrays and views.
ghost use Rattle.std.specs.Prelude.{◌≡◌, []};
ghost use Rattle.spl_tree.specs.declared.symbols.Symbol.{Symbol};
ghost use Rattle.spl_tree.specs.Spells as spells;
ghost use Rattle.spl_reading.specs.Readers as readers;
ghost use Rattle.spl_reading.specs.ReadExpressions as expressions;
ghost use Rattle.spl_reading.specs.ReadDeclarations as spec;
ghost use Rattle.spl_tokens.specs.Reads.{Reads, lexeme, paired};
ghost use Rattle.spl_listed.specs.Lists as lists;

use spl_listed::with_values;
use spl_tokens::{Fault, Tokens, constant, name, operator_of, same};
use spl_tree::{Const, Item, Shape, Symbol, Token, binary};
use std::alloc::Global;

/// An item with the name that stands at a token.
#[tactic(auto, using(spl_tokens::proofs::Steps::lexeme_at))]
fn shaped(token: &Token, shape: Shape, first: Vec<Const>) -> Item
    requires name { (lexeme token.now).symbol ≡ Symbol.Name }
    ensures { spells.item_tree result ≡ lists.shaped (lexeme token.now) (spells.shape_tree shape) (lists.constants first) }
{
    Item {
        name: name(token),
        at: token.at,
        shape,
        first,
    }
}

/// A variable, with its value where it has one.
#[tactic(auto, using(spl_tokens::proofs::Steps::steps), unfolding(spl_reading::specs::Readers::pure, spl_reading::specs::Readers::refuse, spl_reading::specs::Readers::followed, spl_reading::specs::Readers::and_then, spl_reading::specs::ReadDeclarations::item))]
fn item(alloc: Global, tokens: &mut Tokens<'_>) -> Result<Item, Fault>
    ensures { Reads spells.item_tree (spec.item tokens.old) result tokens.new }
{
    let token = tokens.expect(Symbol::Name)?;
    if same(tokens.peek()?, Symbol::Assign) {
        tokens.take()?;
        let value = constant(alloc, tokens)?;
        Ok(shaped(token, Shape::Simple, vec![in alloc; value]?))
    } else {
        Ok(shaped(token, Shape::Simple, Vec::new(alloc)))
    }
}

/// A further variable, and whether another may follow.
#[tactic(auto, using(spl_tokens::proofs::Steps::steps, spl_tokens::proofs::Steps::pushed), unfolding(spl_reading::specs::Readers::pure, spl_reading::specs::Readers::refuse, spl_reading::specs::Readers::followed, spl_reading::specs::Readers::and_then, spl_reading::specs::ReadDeclarations::more_parts))]
fn further_item(
    alloc: Global,
    tokens: &mut Tokens<'_>,
    read: Vec<Item>,
) -> Result<(bool, Vec<Item>), Fault>
    ensures { Reads (paired lists.items) (spec.more_parts spec.item (lists.items read) tokens.old) result tokens.new }
{
    let mut read = read;
    if same(tokens.peek()?, Symbol::Comma) {
        tokens.take()?;
        read.push(item(alloc, tokens)?)?;
        Ok((true, read))
    } else {
        Ok((false, read))
    }
}

/// The further variables.
#[tactic(auto, using(spl_tokens::proofs::Steps::steps, spl_tokens::proofs::Turns::loops), unfolding(spl_reading::specs::Readers::pure, spl_reading::specs::Readers::refuse, spl_reading::specs::Readers::followed, spl_reading::specs::Readers::and_then))]
fn more_items(alloc: Global, tokens: &mut Tokens<'_>, read: Vec<Item>) -> Result<Vec<Item>, Fault>
    ensures { Reads lists.items (readers.repeat (spec.more_parts spec.item) (lists.items read) tokens.old) result tokens.new }
{
    let mut read = read;
    for _turn in 0..tokens.left() + 1 {
        let (more, next) = further_item(alloc, tokens, read)?;
        if !more {
            return Ok(next);
        }
        read = next;
    }
    Err(Fault::Syntax)
}

/// Variables, parted by commas.
#[tactic(auto, using(spl_tokens::proofs::Steps::steps), unfolding(spl_reading::specs::Readers::pure, spl_reading::specs::Readers::refuse, spl_reading::specs::Readers::followed, spl_reading::specs::Readers::and_then, spl_reading::specs::ReadDeclarations::separated))]
pub fn items(alloc: Global, tokens: &mut Tokens<'_>) -> Result<Vec<Item>, Fault>
    ensures { Reads lists.items (spec.separated spec.item tokens.old) result tokens.new }
{
    let first = item(alloc, tokens)?;
    more_items(alloc, tokens, vec![in alloc; first]?)
}

/// A further constant, and whether another may follow.
#[tactic(auto, using(spl_tokens::proofs::Steps::steps, spl_tokens::proofs::Steps::pushed), unfolding(spl_reading::specs::Readers::pure, spl_reading::specs::Readers::refuse, spl_reading::specs::Readers::followed, spl_reading::specs::Readers::and_then, spl_reading::specs::ReadDeclarations::more_parts))]
fn further_constant(
    alloc: Global,
    tokens: &mut Tokens<'_>,
    read: Vec<Const>,
) -> Result<(bool, Vec<Const>), Fault>
    ensures { Reads (paired lists.constants) (spec.more_parts expressions.constant (lists.constants read) tokens.old) result tokens.new }
{
    let mut read = read;
    if same(tokens.peek()?, Symbol::Comma) {
        tokens.take()?;
        read.push(constant(alloc, tokens)?)?;
        Ok((true, read))
    } else {
        Ok((false, read))
    }
}

/// The further constants.
#[tactic(auto, using(spl_tokens::proofs::Steps::steps, spl_tokens::proofs::Turns::loops), unfolding(spl_reading::specs::Readers::pure, spl_reading::specs::Readers::refuse, spl_reading::specs::Readers::followed, spl_reading::specs::Readers::and_then))]
fn more_constants(
    alloc: Global,
    tokens: &mut Tokens<'_>,
    read: Vec<Const>,
) -> Result<Vec<Const>, Fault>
    ensures { Reads lists.constants (readers.repeat (spec.more_parts expressions.constant) (lists.constants read) tokens.old) result tokens.new }
{
    let mut read = read;
    for _turn in 0..tokens.left() + 1 {
        let (more, next) = further_constant(alloc, tokens, read)?;
        if !more {
            return Ok(next);
        }
        read = next;
    }
    Err(Fault::Syntax)
}

/// Constants, parted by commas.
#[tactic(auto, using(spl_tokens::proofs::Steps::steps), unfolding(spl_reading::specs::Readers::pure, spl_reading::specs::Readers::refuse, spl_reading::specs::Readers::followed, spl_reading::specs::Readers::and_then, spl_reading::specs::ReadDeclarations::separated))]
fn constants(alloc: Global, tokens: &mut Tokens<'_>) -> Result<Vec<Const>, Fault>
    ensures { Reads lists.constants (spec.separated expressions.constant tokens.old) result tokens.new }
{
    let first = constant(alloc, tokens)?;
    more_constants(alloc, tokens, vec![in alloc; first]?)
}

/// The base of a view, from its star on.
#[tactic(auto, using(spl_tokens::proofs::Steps::steps), unfolding(spl_reading::specs::Readers::pure, spl_reading::specs::Readers::refuse, spl_reading::specs::Readers::followed, spl_reading::specs::Readers::and_then))]
fn base(tokens: &mut Tokens<'_>) -> Result<Shape, Fault>
    ensures { Reads spells.shape_tree (lists.base tokens.old) result tokens.new }
{
    tokens.take()?;
    tokens.expect(Symbol::Close)?;
    tokens.expect(Symbol::Operator(binary::EQUAL))?;
    let token = tokens.expect(Symbol::Name)?;
    Ok(Shape::View(name(token)))
}

/// The bounds of an array.
#[tactic(auto, using(spl_tokens::proofs::Steps::steps), unfolding(spl_reading::specs::Readers::pure, spl_reading::specs::Readers::refuse, spl_reading::specs::Readers::followed, spl_reading::specs::Readers::and_then))]
fn bounds(alloc: Global, tokens: &mut Tokens<'_>) -> Result<Shape, Fault>
    ensures { Reads spells.shape_tree (lists.bounds tokens.old) result tokens.new }
{
    let low = constant(alloc, tokens)?;
    tokens.expect(Symbol::Colon)?;
    let high = constant(alloc, tokens)?;
    tokens.expect(Symbol::Close)?;
    Ok(Shape::Array { low, high })
}

/// The bounds of an array, or the base of a view.
#[tactic(auto, using(spl_tokens::proofs::Steps::steps), unfolding(spl_reading::specs::Readers::pure, spl_reading::specs::Readers::refuse, spl_reading::specs::Readers::followed, spl_reading::specs::Readers::and_then, spl_reading::specs::ReadDeclarations::shape))]
fn shape(alloc: Global, tokens: &mut Tokens<'_>) -> Result<Shape, Fault>
    ensures { Reads spells.shape_tree (spec.shape tokens.old) result tokens.new }
{
    if operator_of(tokens.peek()?) == binary::TIMES {
        base(tokens)
    } else {
        bounds(alloc, tokens)
    }
}

/// An array or a view.
#[tactic(auto, using(spl_tokens::proofs::Steps::steps), unfolding(spl_reading::specs::Readers::pure, spl_reading::specs::Readers::refuse, spl_reading::specs::Readers::followed, spl_reading::specs::Readers::and_then, spl_reading::specs::ReadDeclarations::array))]
fn array(alloc: Global, tokens: &mut Tokens<'_>) -> Result<Item, Fault>
    ensures { Reads spells.item_tree (spec.array tokens.old) result tokens.new }
{
    let token = tokens.expect(Symbol::Name)?;
    tokens.expect(Symbol::Open)?;
    let shape = shape(alloc, tokens)?;
    Ok(shaped(token, shape, Vec::new(alloc)))
}

/// What goes on with a list of arrays: a further one, or the values of the last; and whether another may follow.
#[tactic(auto, using(spl_tokens::proofs::Steps::steps, spl_tokens::proofs::Steps::pushed), unfolding(spl_reading::specs::Readers::pure, spl_reading::specs::Readers::refuse, spl_reading::specs::Readers::followed, spl_reading::specs::Readers::and_then, spl_reading::specs::ReadDeclarations::more_arrays))]
fn further_array(
    alloc: Global,
    tokens: &mut Tokens<'_>,
    read: Vec<Item>,
    last: Item,
) -> Result<(bool, (Vec<Item>, Item)), Fault>
    ensures { Reads (paired lists.arrays) (spec.more_arrays (lists.arrays (read, last)) tokens.old) result tokens.new }
{
    let mut read = read;
    let next = tokens.peek()?;
    if same(next, Symbol::Comma) {
        tokens.take()?;
        let next = array(alloc, tokens)?;
        read.push(last)?;
        Ok((true, (read, next)))
    } else if same(next, Symbol::Assign) {
        tokens.take()?;
        let first = constants(alloc, tokens)?;
        Ok((false, (read, with_values(last, first))))
    } else {
        Ok((false, (read, last)))
    }
}

/// The further arrays.
#[tactic(auto, using(spl_tokens::proofs::Steps::steps, spl_tokens::proofs::Turns::loops), unfolding(spl_reading::specs::Readers::pure, spl_reading::specs::Readers::refuse, spl_reading::specs::Readers::followed, spl_reading::specs::Readers::and_then))]
fn more_arrays(
    alloc: Global,
    tokens: &mut Tokens<'_>,
    last: Item,
) -> Result<(Vec<Item>, Item), Fault>
    ensures { Reads lists.arrays (readers.repeat spec.more_arrays ([], spells.item_tree last) tokens.old) result tokens.new }
{
    let mut read = Vec::new(alloc);
    let mut last = last;
    for _turn in 0..tokens.left() + 1 {
        let (more, (next, item)) = further_array(alloc, tokens, read, last)?;
        if !more {
            return Ok((next, item));
        }
        read = next;
        last = item;
    }
    Err(Fault::Syntax)
}

/// Arrays and views, parted by commas, with the values of the last.
#[tactic(auto, using(spl_tokens::proofs::Steps::steps, spl_tokens::proofs::Steps::pushed), unfolding(spl_reading::specs::Readers::pure, spl_reading::specs::Readers::refuse, spl_reading::specs::Readers::followed, spl_reading::specs::Readers::and_then, spl_reading::specs::ReadDeclarations::arrays))]
pub fn arrays(alloc: Global, tokens: &mut Tokens<'_>) -> Result<Vec<Item>, Fault>
    ensures { Reads lists.items (spec.arrays tokens.old) result tokens.new }
{
    let first = array(alloc, tokens)?;
    let (mut read, last) = more_arrays(alloc, tokens, first)?;
    read.push(last)?;
    Ok(read)
}
