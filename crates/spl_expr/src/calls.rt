//! The public calls: an expression or a condition that begins at some token.
ghost use Rattle.std.specs.Prelude.{◌≡◌, ◌<◌, ◌≤◌, false, true, map, vec_len};
ghost use Rattle.spl_tree.specs.Symbols.{lexeme_of};
ghost use Rattle.spl_verdicts.specs.spl_grammar.Ends.{Ended};
ghost use Rattle.spl_expr.specs.Answers.{Answers, Exact, answer_at};

use spl_tokens::{Fault, ParseFault, Tokens};
use spl_tree::{Expr, Token};
use spl_within::{condition_within, expression_within};
use std::alloc::Global;

/// The most constructs that may be open at a token.
const LIMIT: u8 = 64;

/// What a rule answers, at the place where it stopped.
fn answer(read: Result<Expr, Fault>, at: u32) -> Result<(Expr, usize), ParseFault>
    ensures { result ≡ answer_at read at }
{
    match read {
        Ok(expr) => Ok((expr, at as usize)),
        Err(Fault::Syntax) => Err(ParseFault::Syntax { at }),
        Err(Fault::TooDeep) => Err(ParseFault::TooDeep { at }),
        Err(Fault::NoMemory) => Err(ParseFault::NoMemory),
    }
}

/// The expression that begins at the token with this number, where `depth` constructs are open around it, and the number
/// of the token behind it. Err: `Syntax` at the first token that no expression goes on with; `TooDeep` at the first with
/// which more than 64 constructs are open; `NoMemory`.
pub fn expression(
    alloc: Global,
    tokens: &Vec<Token>,
    from: usize,
    depth: u8,
) -> Result<(Expr, usize), ParseFault>
    requires few { vec_len tokens.now ≤ 262145 }
    requires ended { Ended (map lexeme_of tokens.now.items) }
    requires inside { from < vec_len tokens.now }
    requires shallow { depth ≤ 64 }
    ensures answers { Answers false (map lexeme_of tokens.now.items) from depth result }
    ensures exact { Exact false (map lexeme_of tokens.now.items) from depth result }
{
    let mut cursor = Tokens::new(&tokens[from..]);
    let read = expression_within(alloc, &mut cursor, LIMIT - depth);
    let at = tokens.len().saturating_sub(cursor.left()) as u32;
    answer(read, at)
}

/// The condition that begins at the token with this number, and the number of the token behind it, as of an expression.
pub fn condition(
    alloc: Global,
    tokens: &Vec<Token>,
    from: usize,
    depth: u8,
) -> Result<(Expr, usize), ParseFault>
    requires few { vec_len tokens.now ≤ 262145 }
    requires ended { Ended (map lexeme_of tokens.now.items) }
    requires inside { from < vec_len tokens.now }
    requires shallow { depth ≤ 64 }
    ensures answers { Answers true (map lexeme_of tokens.now.items) from depth result }
    ensures exact { Exact true (map lexeme_of tokens.now.items) from depth result }
{
    let mut cursor = Tokens::new(&tokens[from..]);
    let read = condition_within(alloc, &mut cursor, LIMIT - depth);
    let at = tokens.len().saturating_sub(cursor.left()) as u32;
    answer(read, at)
}
