//! The tokens of a unit so far.
ghost use Rattle.std.specs.Prelude.{◌≡◌, ◌≤◌, ◌++◌, ◌∷◌, [], length, OnOk, IfOk};
ghost use Rattle.spl_cuts.specs.Cutting as cu;
ghost use Rattle.spl_pieces.specs.SignViews.{sign_of};
ghost use Rattle.spl_lexer.specs.TokenViews.{listed_of, list_of};

use crate::segments::Segments;
use spl_tree::{At, Lexed, Name, Token, What};
use std::alloc::{AllocError, Global};
use std::marker::Model;

/// The tokens so far, each with the number of its segment, and the names of these segments in order of first token.
#[derive(Debug, Drop)]
pub struct Listing {
    tokens: Vec<Token>,
    segments: Segments,
}

impl Model for Listing {
    ghost use Rattle.std.specs.Prelude.{List, map};
    ghost use Rattle.spl_cuts.specs.Signs.{Found};
    ghost use Rattle.spl_lexer.specs.TokenViews.{found_of, IsNumbered};

    ghost Value = { List Found };

    ghost view = { λ l. map (found_of l.segments) l.tokens.items };

    ghost invariant = { λ l. IsNumbered l.tokens.items l.segments };
}

impl Listing {
    /// No token.
    pub fn new(alloc: Global) -> Self
        ensures { result ≡ [] }
    {
        Listing {
            tokens: Vec::new(alloc),
            segments: Segments::new(alloc),
        }
    }

    /// Puts a token at the end. There are at most 65,536 segments with its own.
    pub fn push(&mut self, what: What, at: At, segment: &Name) -> Result<(), AllocError>
        requires { length (cu.with_name (cu.with_names [] self.old) segment.now.text.items) ≤ 65536 }
        ensures { OnOk result (self.new ≡ self.old ++ record { what = sign_of what; at = at; segment = segment.now.text.items } ∷ []) }
    {
        self.tokens.reserve(1)?;
        let number = self.segments.number(segment)?;
        self.tokens
            .push(Token {
                what,
                at,
                segment: number as u16,
            })
            .unwrap();
        Ok(())
    }

    /// The list of a unit with these tokens, which says whether the unit is a subprogram.
    pub fn finish(self, alloc: Global, subprogram: bool) -> Result<Lexed, AllocError>
        ensures { IfOk result (λ x. listed_of x ≡ list_of self subprogram) }
    {
        let Listing { tokens, segments } = self;
        let segments = segments.into_names(alloc)?;
        Ok(Lexed {
            tokens,
            segments,
            subprogram,
        })
    }
}
