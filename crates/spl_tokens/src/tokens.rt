//! A cursor over the tokens of a unit. A contract sees it as the list of the tokens that are left.
ghost use Rattle.std.specs.Prelude.{◌≡◌, ◌<◌, ◌^◌, length, map, IfOk, OnOk, true};
ghost use Rattle.spl_tree.specs.Symbols.{lexeme_of};
ghost use Rattle.spl_tokens.specs.Cursor as cursor;
ghost use Rattle.spl_reading.specs.Readers as r;
ghost use Rattle.spl_reading.specs.ReadDeclarations.{next_segment};
ghost use Rattle.spl_tokens.specs.Reads.{Reads, lexeme, shown, lent, same_as, peeked, named};

use crate::faults::Fault;
use crate::symbols::{same, symbol};
use crate::words::letters;
use spl_tree::{At, Symbol, Token};
use std::marker::Model;

/// The tokens that are left, with the symbol of the next.
#[derive(Drop)]
pub struct Tokens<'a> {
    rest: &'a [Token],
    next: Option<Symbol>,
}

impl<'a> Model for Tokens<'a> {
    ghost use Rattle.std.specs.Prelude.{◌≡◌, List, map};
    ghost use Rattle.spl_tree.specs.Symbols.{Lexeme, lexeme_of};

    ghost Value = { List Lexeme };

    ghost use Rattle.spl_tokens.specs.Cursor.{first_symbol};

    ghost view = { λ s. map lexeme_of s.rest.now };

    ghost invariant = { λ s. s.next ≡ first_symbol s.rest.now };
}

/// The symbol of the first token.
fn first_symbol(tokens: &[Token]) -> Option<Symbol>
    ensures { result ≡ cursor.first_symbol tokens.now }
{
    match tokens.first() {
        None => None,
        Some(token) => Some(symbol(&token.what)),
    }
}

impl<'a> Tokens<'a> {
    /// A cursor before the first of these tokens.
    pub fn new(tokens: &'a [Token]) -> Tokens<'a>
        ensures { result ≡ map lexeme_of tokens.now }
    {
        Tokens {
            rest: tokens,
            next: first_symbol(tokens),
        }
    }

    /// The number of tokens that are left.
    pub fn left(&self) -> usize
        ensures value { result ≡ length self.now }
        ensures small { result < 2 ^ 63 }
    {
        self.rest.len()
    }

    /// The symbol of the next token. Err: `Syntax`, where none is left.
    pub fn peek(&self) -> Result<Symbol, Fault>
        ensures { Reads same_as (peeked self.now) result self.now }
    {
        match self.next {
            None => Err(Fault::Syntax),
            Some(symbol) => Ok(symbol),
        }
    }

    /// The place of the next token. Err: `Syntax`, where none is left.
    pub fn place(&self) -> Result<At, Fault>
        ensures { Reads same_as (r.at_place self.now) result self.now }
    {
        match self.rest.split_first() {
            None => Err(Fault::Syntax),
            Some((token, _)) => Ok(token.at),
        }
    }

    /// The number of the segment in force at the next token. Err: `Syntax`, where none is left.
    pub fn segment(&self) -> Result<u16, Fault>
        ensures { Reads same_as (next_segment self.now) result self.now }
    {
        match self.rest.split_first() {
            None => Err(Fault::Syntax),
            Some((token, _)) => Ok(token.segment),
        }
    }

    /// Goes on behind the next token. Err: `Syntax`, where none is left.
    pub fn take(&mut self) -> Result<&'a Token, Fault>
        ensures read { Reads shown (r.take self.old) result self.new }
        ensures symbol { IfOk result (λ token. peeked self.old ≡ r.Got (lexeme token.now).symbol self.old) }
    {
        match self.rest.split_first() {
            None => Err(Fault::Syntax),
            Some((token, rest)) => {
                self.rest = rest;
                self.next = first_symbol(rest);
                Ok(token)
            }
        }
    }

    #[tactic(auto, using(crate::proofs::Steps::steps), unfolding(spl_reading::specs::Readers::expect, spl_reading::specs::Readers::refuse))]
    /// Goes on behind the next token, which is this symbol. Err: `Syntax`, where it is not.
    pub fn expect(&mut self, wanted: Symbol) -> Result<&'a Token, Fault>
        ensures read { Reads shown (r.expect wanted self.old) result self.new }
        ensures symbol { IfOk result (λ token. (lexeme token.now).symbol ≡ wanted) }
    {
        if same(self.peek()?, wanted) {
            self.take()
        } else {
            Err(Fault::Syntax)
        }
    }

    /// Goes on behind the next token, with which one more construct is open. Err: `TooDeep`, where it may not be;
    /// `Syntax`, where no token is left.
    #[tactic(auto, using(crate::proofs::Steps::steps), unfolding(spl_reading::specs::Readers::allowed))]
    pub fn allowed(&mut self, fits: bool) -> Result<&'a Token, Fault>
        ensures fits { OnOk result (fits ≡ true) }
        ensures read { Reads shown (r.allowed fits self.old) result self.new }
        ensures symbol { IfOk result (λ token. peeked self.old ≡ r.Got (lexeme token.now).symbol self.old) }
    {
        if fits {
            self.take()
        } else {
            self.peek()?;
            Err(Fault::TooDeep)
        }
    }

    /// The letters of the next token, which is a name. Err: `Syntax`, where it is not.
    pub fn next_name(&self) -> Result<&'a [u8], Fault>
        ensures { Reads lent (named self.now) result self.now }
    {
        match self.rest.split_first() {
            None => Err(Fault::Syntax),
            Some((token, _)) => {
                if same(symbol(&token.what), Symbol::Name) {
                    Ok(letters(token))
                } else {
                    Err(Fault::Syntax)
                }
            }
        }
    }
}
