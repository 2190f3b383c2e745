//! Whole expressions and conditions, as parts of what stands around them; and operands, which tie the rules of levels and
//! those of atoms together.
ghost use Rattle.std.specs.Prelude.{◌≤◌, ◌<◌, None};
ghost use Rattle.spl_tree.specs.Views as view;
ghost use Rattle.spl_reading.specs.ReadExpressions as spec;
ghost use Rattle.spl_reading.specs.Readers.{refuse};
ghost use Rattle.spl_tokens.specs.Reads.{Reads};
ghost use Rattle.spl_parts.specs.Parts.{expressions};
ghost use Rattle.spl_parts.specs.Parts as parts;
ghost use Rattle.spl_atoms.specs.Nests as nests;

use spl_atoms::{Atoms, negated};
use spl_levels::Levels;
use spl_parts::{Part, inverted};
use spl_tokens::{Fault, Tokens, enter, same};
use spl_tree::{At, Expr, Symbol};
use std::alloc::Global;

/// The operand behind a NOT.
#[cycle(operand)]
#[tactic(auto, using(crate::proofs::OperandLemmas::inner_is))]
fn inner(alloc: Global, tokens: &mut Tokens<'_>, room: u8, taken: u8) -> Result<Part, Fault>
    requires { taken < room }
    ensures { Reads parts.operand (nests.inner room taken tokens.old) result tokens.new }
{
    operand(alloc, tokens, room - 1, taken, None)
}

/// NOT and its operand.
#[cycle(operand)]
#[tactic(auto, using(spl_tokens::proofs::Steps::steps), unfolding(spl_reading::specs::Readers::pure, spl_reading::specs::Readers::refuse, spl_reading::specs::Readers::followed, spl_reading::specs::Readers::and_then, spl_reading::specs::ReadExpressions::inverse))]
fn inverse(alloc: Global, tokens: &mut Tokens<'_>, room: u8, taken: u8) -> Result<Part, Fault>
    ensures { Reads parts.operand (nests.inverse room taken tokens.old) result tokens.new }
{
    let at = enter(tokens, room, taken)?.at;
    let of = inner(alloc, tokens, room, taken)?;
    Ok(inverted(alloc, of, at)?)
}

/// An operand with no minus before its number.
#[cycle(operand)]
#[tactic(auto, using(spl_tokens::proofs::Steps::steps), unfolding(spl_reading::specs::ReadExpressions::unary_step))]
fn plain(alloc: Global, tokens: &mut Tokens<'_>, room: u8, taken: u8) -> Result<Part, Fault>
    ensures { Reads parts.operand (nests.operand_at room taken None tokens.old) result tokens.new }
{
    if same(tokens.peek()?, Symbol::Not) {
        return inverse(alloc, tokens, room, taken);
    }
    let atoms = Atoms {
        alloc,
        room,
        inside,
    };
    atoms.primary(tokens, taken)
}

/// An operand; a minus may stand before its number.
#[cycle(operand)]
#[tactic(auto, using(spl_tokens::proofs::Steps::steps), unfolding(spl_reading::specs::ReadExpressions::unary_step))]
fn read(
    alloc: Global,
    tokens: &mut Tokens<'_>,
    room: u8,
    taken: u8,
    minus: Option<At>,
) -> Result<Part, Fault>
    ensures { Reads parts.operand (nests.operand_at room taken minus tokens.old) result tokens.new }
{
    match minus {
        None => plain(alloc, tokens, room, taken),
        Some(at) => negated(alloc, tokens, at),
    }
}

/// An operand where so many constructs may be opened, less those that `taken` counts. A minus may stand before its
/// number.
#[cycle(operand)]
fn operand(
    alloc: Global,
    tokens: &mut Tokens<'_>,
    room: u8,
    taken: u8,
    minus: Option<At>,
) -> Result<Part, Fault>
    requires { taken ≤ room }
    ensures { Reads parts.operand (spec.unary room taken minus tokens.old) result tokens.new }
{
    read(alloc, tokens, room, taken, minus)
}

/// An expression where so many constructs may be opened, less those that `taken` counts.
#[cycle(operand)]
#[tactic(auto, unfolding(spl_reading::specs::ReadExpressions::expression, spl_reading::specs::ReadExpressions::whole))]
fn inside(alloc: Global, tokens: &mut Tokens<'_>, room: u8, taken: u8) -> Result<Expr, Fault>
    requires { taken ≤ room }
    ensures { Reads view.expression (spec.expression room taken tokens.old) result tokens.new }
{
    let levels = Levels {
        alloc,
        room,
        taken,
        condition: false,
        operand,
    };
    levels.whole(tokens)
}

/// An expression, where so many constructs may be opened.
pub fn expression_within(alloc: Global, tokens: &mut Tokens<'_>, room: u8) -> Result<Expr, Fault>
    ensures { Reads view.expression (spec.expression room 0 tokens.old) result tokens.new }
{
    inside(alloc, tokens, room, 0)
}

/// A condition, where so many constructs may be opened.
#[tactic(auto, unfolding(spl_reading::specs::ReadExpressions::condition))]
pub fn condition_within(alloc: Global, tokens: &mut Tokens<'_>, room: u8) -> Result<Expr, Fault>
    ensures { Reads view.expression (spec.condition room 0 tokens.old) result tokens.new }
{
    let levels = Levels {
        alloc,
        room,
        taken: 0,
        condition: true,
        operand,
    };
    levels.whole(tokens)
}

/// An expression in parentheses, as an index.
#[tactic(auto, unfolding(spl_reading::specs::ReadExpressions::enclosed))]
pub fn enclosed_within(alloc: Global, tokens: &mut Tokens<'_>, room: u8) -> Result<Expr, Fault>
    ensures { Reads view.expression (spec.enclosed room refuse (spec.within room 0) 0 tokens.old) result tokens.new }
{
    let atoms = Atoms {
        alloc,
        room,
        inside,
    };
    atoms.enclosed(tokens, 0)
}

/// Arguments in parentheses.
#[tactic(auto, unfolding(spl_reading::specs::ReadExpressions::arguments, spl_reading::specs::ReadExpressions::more_arguments))]
pub fn arguments_within(
    alloc: Global,
    tokens: &mut Tokens<'_>,
    room: u8,
) -> Result<Vec<Expr>, Fault>
    ensures { Reads expressions (spec.arguments room refuse (spec.within room 0) 0 tokens.old) result tokens.new }
{
    let atoms = Atoms {
        alloc,
        room,
        inside,
    };
    atoms.arguments(tokens, 0)
}
