//! The letters of a token, as names and strings of a tree.
ghost use Rattle.std.specs.Prelude.{◌≡◌, ◌≤◌, IfOk, length};
ghost use Rattle.spl_tree.specs.declared.symbols.Symbol.{Symbol};
ghost use Rattle.spl_tree.specs.Views as view;
ghost use Rattle.spl_tokens.specs.Reads.{lexeme};

use spl_tree::{Chars, Name, Token, What};
use std::alloc::{AllocError, Global};

/// The letters of a token that is a name.
#[tactic(auto, unfolding(crate::specs::Reads::lexeme))]
pub fn letters(token: &Token) -> &[u8]
    requires { (lexeme token.now).symbol ≡ Symbol.Name }
    ensures value { result.now ≡ (lexeme token.now).letters }
    ensures few { length result.now ≤ 15 }
{
    match &token.what {
        What::Word(name) => name.text.as_slice(),
        _ => &[],
    }
}

/// The name that stands at a token.
pub fn name(token: &Token) -> Name
    requires { (lexeme token.now).symbol ≡ Symbol.Name }
    ensures { view.letters result ≡ (lexeme token.now).letters }
{
    Name::new(letters(token))
}

#[tactic(auto, unfolding(crate::specs::Reads::lexeme))]
/// The string that stands at a token.
pub fn text(alloc: Global, token: &Token) -> Result<Chars, AllocError>
    requires { (lexeme token.now).symbol ≡ Symbol.Text }
    ensures { IfOk result (λ chars. chars.bytes.items ≡ (lexeme token.now).letters) }
{
    match &token.what {
        What::Text(chars) => Ok(Chars {
            bytes: Vec::from_slice(alloc, chars.bytes.as_slice())?,
        }),
        _ => Ok(Chars {
            bytes: Vec::new(alloc),
        }),
    }
}
