//! Tokens that open constructs, where so many may be open.
ghost use Rattle.std.specs.Prelude.{◌<◌, OnOk};
ghost use Rattle.spl_reading.specs.ReadExpressions as spec;
ghost use Rattle.spl_tokens.specs.Reads.{Reads, shown};

use crate::faults::Fault;
use crate::symbols::same;
use crate::tokens::Tokens;
use spl_tree::{Symbol, Token};

/// A token that opens a construct.
#[tactic(auto, unfolding(spl_reading::specs::ReadExpressions::enter))]
pub fn enter<'a>(tokens: &mut Tokens<'a>, room: u8, taken: u8) -> Result<&'a Token, Fault>
    ensures read { Reads shown (spec.enter room taken tokens.old) result tokens.new }
    ensures room { OnOk result (taken < room) }
{
    tokens.allowed(taken < room)
}

/// A parenthesis that opens a construct.
#[tactic(auto, using(crate::proofs::Steps::steps), unfolding(spl_reading::specs::Readers::refuse, spl_reading::specs::ReadExpressions::opening))]
pub fn opening<'a>(tokens: &mut Tokens<'a>, room: u8, taken: u8) -> Result<&'a Token, Fault>
    ensures read { Reads shown (spec.opening room taken tokens.old) result tokens.new }
    ensures room { OnOk result (taken < room) }
{
    if same(tokens.peek()?, Symbol::Open) {
        enter(tokens, room, taken)
    } else {
        Err(Fault::Syntax)
    }
}
