//! The parser: a text's tokens as the unit that they spell, or their first fault.
ghost use Rattle.std.specs.Prelude.{◌≡◌, ◌≤◌, IfOk, map, vec_len};
ghost use Rattle.spl_tree.specs.Views.{letters};
ghost use Rattle.spl_tree.specs.Spells.{unit_tree};
ghost use Rattle.spl_grammar.specs.Ends.{Ended};
ghost use Rattle.spl_units.specs.UnitParts.{parts};
ghost use Rattle.spl_parser.specs.Answers.{tokens_of, placed, Answers, Exact};

use spl_tokens::{Fault, ParseFault, Tokens};
use spl_tree::{Lexed, Name, SplUnit};
use spl_units::{UnitParts, unit};
use std::alloc::{AllocError, Global};

/// The most constructs that may be open at a token.
const LIMIT: u8 = 64;

/// The names, again.
fn all_copied(alloc: Global, names: &[Name]) -> Result<Vec<Name>, AllocError>
    ensures { IfOk result (λ copies. map letters copies.items ≡ map letters names.now) }
{
    let mut copies = Vec::new(alloc);
    for name in names {
        copies.push(name.copy())?;
    }
    Ok(copies)
}

/// The unit of a text that has these parts.
fn whole(alloc: Global, lexed: &Lexed, found: UnitParts) -> Result<SplUnit, AllocError>
    ensures tree { IfOk result (λ u. unit_tree u ≡ parts found) }
    ensures subprogram { IfOk result (λ u. u.subprogram ≡ lexed.now.subprogram) }
    ensures segments { IfOk result (λ u. map letters u.segments.items ≡ map letters lexed.now.segments.items) }
{
    let segments = all_copied(alloc, &lexed.segments)?;
    Ok(SplUnit {
        subprogram: lexed.subprogram,
        segments,
        items: found.items,
        statements: found.statements,
        segment: found.segment,
        at: found.at,
    })
}

/// A fault at the token with this number.
fn fault_at(fault: Fault, at: u32) -> ParseFault
    ensures { result ≡ placed fault at }
{
    match fault {
        Fault::Syntax => ParseFault::Syntax { at },
        Fault::TooDeep => ParseFault::TooDeep { at },
        Fault::NoMemory => ParseFault::NoMemory,
    }
}

/// The unit that the tokens of a text spell, with at most 64 constructs open at each token. Err: `Syntax` at the first
/// token that no unit goes on with; `TooDeep` at the first with which more constructs are open; `NoMemory`.
pub fn parse(alloc: Global, lexed: &Lexed) -> Result<SplUnit, ParseFault>
    requires few { vec_len lexed.now.tokens ≤ 262145 }
    requires ended { Ended (tokens_of lexed.now) }
    ensures answers { Answers lexed.now result }
    ensures exact { Exact lexed.now result }
{
    let mut tokens = Tokens::new(&lexed.tokens);
    match unit(alloc, &mut tokens, LIMIT) {
        Ok(parts) => match whole(alloc, lexed, parts) {
            Ok(unit) => Ok(unit),
            Err(_) => Err(ParseFault::NoMemory),
        },
        Err(fault) => {
            let at = lexed.tokens.len().saturating_sub(tokens.left()) as u32;
            Err(fault_at(fault, at))
        }
    }
}
