//! Operands behind no NOT. The rule that reads what is inside an open construct is a parameter, so that each rule is proved
//! by itself.
ghost use Rattle.std.specs.Prelude.{◌≡◌, ◌<◌};
ghost use Rattle.spl_tree.specs.declared.symbols.Symbol.{Symbol};
ghost use Rattle.spl_tree.specs.Operators as operators;
ghost use Rattle.spl_tree.specs.Trees as tree;
ghost use Rattle.spl_tree.specs.Views as view;
ghost use Rattle.spl_reading.specs.Readers.{by_symbol};
ghost use Rattle.spl_reading.specs.Readers as readers;
ghost use Rattle.spl_reading.specs.ReadExpressions as spec;
ghost use Rattle.spl_tokens.specs.Reads.{Reads, lexeme, paired, peeked};
ghost use Rattle.spl_parts.specs.Parts.{operand, expressions};
ghost use Rattle.spl_atoms.specs.Pieces as pieces;
ghost use Rattle.spl_atoms.specs.Nests.{ReadsExpressions, negated_at, enclosed, more_arguments, arguments, named, addressed, transfer, atom, primary};

use spl_parts::{
    Part, address, called, element_address, enclosing, field_of, number, string, transferred,
    truth, variable, wide,
};
use spl_tokens::{Fault, Tokens, constant, name, opening, same, text};
use spl_tree::{At, Const, Expr, Kind, Symbol, Token};
use std::alloc::Global;

/// The rules of operands, where so many constructs may be opened.
#[derive(Clone, Copy)]
pub struct Atoms<F> {
    pub alloc: Global,
    pub room: u8,
    /// Reads an expression inside.
    pub inside: F,
}

#[tactic(auto, using(spl_tokens::proofs::Steps::steps), unfolding(spl_reading::specs::Readers::pure, spl_reading::specs::Readers::refuse, spl_reading::specs::Readers::followed, spl_reading::specs::Readers::and_then, crate::specs::Pieces::extent))]
/// The start and the length of a bit field, from its dot on. What they are taken of stays with the caller, which drops it
/// once at a fault.
fn extent(alloc: Global, tokens: &mut Tokens<'_>) -> Result<(Const, Const), Fault>
    ensures { Reads pieces.extents (pieces.extent tokens.old) result tokens.new }
{
    tokens.expect(Symbol::Dot)?;
    tokens.expect(Symbol::Open)?;
    let start = constant(alloc, tokens)?;
    tokens.expect(Symbol::Colon)?;
    let length = constant(alloc, tokens)?;
    tokens.expect(Symbol::Close)?;
    Ok((start, length))
}

#[tactic(auto, using(spl_tokens::proofs::Steps::steps, crate::proofs::PieceLemmas::bits_is), unfolding(spl_reading::specs::Readers::pure, spl_reading::specs::Readers::followed, spl_reading::specs::Readers::and_then, spl_parts::specs::Parts::operand))]
/// A bit field of what was read, from its dot on.
fn bits(alloc: Global, tokens: &mut Tokens<'_>, of: Part, at: At) -> Result<Part, Fault>
    ensures { Reads operand (spec.bits at (operand of) tokens.old) result tokens.new }
{
    match extent(alloc, tokens) {
        Ok(extent) => Ok(field_of(alloc, of, extent, at)?),
        Err(fault) => {
            drop(of);
            Err(fault)
        }
    }
}

#[tactic(auto, using(spl_tokens::proofs::Steps::steps), unfolding(spl_reading::specs::Readers::pure, spl_reading::specs::Readers::refuse, spl_reading::specs::Readers::followed, spl_reading::specs::Readers::and_then, spl_parts::specs::Parts::operand, spl_reading::specs::ReadExpressions::field))]
/// What was read, or a bit field of it.
fn field(alloc: Global, tokens: &mut Tokens<'_>, of: Part, at: At) -> Result<Part, Fault>
    ensures { Reads operand (spec.field at (operand of) tokens.old) result tokens.new }
{
    let next = match tokens.peek() {
        Ok(next) => next,
        Err(fault) => {
            drop(of);
            return Err(fault);
        }
    };
    if same(next, Symbol::Dot) {
        bits(alloc, tokens, of, at)
    } else {
        Ok(of)
    }
}

/// A word with its sign turned, modulo 65,536.
fn negated_word(value: u16) -> u16
    ensures { result ≡ operators.negated 65536 value }
{
    if value == 0 { 0 } else { u16::MAX - value + 1 }
}

/// Two words with their sign turned, modulo 4,294,967,296.
fn negated_double(value: u32) -> u32
    ensures { result ≡ operators.negated 4294967296 value }
{
    if value == 0 { 0 } else { u32::MAX - value + 1 }
}

#[tactic(auto, using(spl_tokens::proofs::Steps::steps), unfolding(spl_reading::specs::Readers::pure, spl_reading::specs::Readers::refuse, spl_reading::specs::Readers::followed, spl_reading::specs::Readers::and_then, spl_parts::specs::Parts::operand, spl_reading::specs::ReadExpressions::negative_by))]
/// The number behind a minus.
fn negative(tokens: &mut Tokens<'_>, at: At) -> Result<Part, Fault>
    ensures { Reads operand (by_symbol (spec.negative_by at) tokens.old) result tokens.new }
{
    match tokens.peek()? {
        Symbol::Number(value) => {
            tokens.take()?;
            Ok(Part::Other(Expr::Number(negated_word(value))))
        }
        Symbol::Wide(value) => {
            tokens.take()?;
            Ok(Part::Other(Expr::Wide(negated_double(value))))
        }
        _ => Err(Fault::Syntax),
    }
}

/// The number behind a minus, with its bit field where it has one.
#[tactic(auto, using(spl_tokens::proofs::Steps::steps), unfolding(spl_reading::specs::Readers::pure, spl_reading::specs::Readers::refuse, spl_reading::specs::Readers::followed, spl_reading::specs::Readers::and_then))]
pub fn negated(alloc: Global, tokens: &mut Tokens<'_>, at: At) -> Result<Part, Fault>
    ensures { Reads operand (negated_at at tokens.old) result tokens.new }
{
    let of = negative(tokens, at)?;
    field(alloc, tokens, of, at)
}

/// A number of one word, which stands next.
#[tactic(auto, using(spl_tokens::proofs::Steps::steps), unfolding(spl_reading::specs::Readers::pure, spl_reading::specs::Readers::refuse, spl_reading::specs::Readers::followed, spl_reading::specs::Readers::and_then))]
fn number_next(tokens: &mut Tokens<'_>, value: u16) -> Result<Part, Fault>
    ensures { Reads operand (readers.followed readers.take (λ _. readers.pure (spec.plain operators.other (tree.Tree.number value))) tokens.old) result tokens.new }
{
    tokens.take()?;
    Ok(number(value))
}

/// A number of two words, which stands next.
#[tactic(auto, using(spl_tokens::proofs::Steps::steps), unfolding(spl_reading::specs::Readers::pure, spl_reading::specs::Readers::refuse, spl_reading::specs::Readers::followed, spl_reading::specs::Readers::and_then))]
fn wide_next(tokens: &mut Tokens<'_>, value: u32) -> Result<Part, Fault>
    ensures { Reads operand (readers.followed readers.take (λ _. readers.pure (spec.plain operators.other (tree.Tree.wide value))) tokens.old) result tokens.new }
{
    tokens.take()?;
    Ok(wide(value))
}

/// TRUE or FALSE, which stands next.
#[tactic(auto, using(spl_tokens::proofs::Steps::steps), unfolding(spl_reading::specs::Readers::pure, spl_reading::specs::Readers::refuse, spl_reading::specs::Readers::followed, spl_reading::specs::Readers::and_then))]
fn truth_next(tokens: &mut Tokens<'_>, value: bool) -> Result<Part, Fault>
    ensures { Reads operand (readers.followed readers.take (λ _. readers.pure (spec.plain operators.other (tree.Tree.truth value))) tokens.old) result tokens.new }
{
    tokens.take()?;
    Ok(truth(value))
}

/// A string, which stands next.
#[tactic(auto, using(spl_tokens::proofs::Steps::steps), unfolding(spl_reading::specs::Readers::pure, spl_reading::specs::Readers::refuse, spl_reading::specs::Readers::followed, spl_reading::specs::Readers::and_then))]
fn string_next(alloc: Global, tokens: &mut Tokens<'_>) -> Result<Part, Fault>
    requires { peeked tokens.old ≡ readers.Got Symbol.Text tokens.old }
    ensures { Reads operand (readers.followed readers.take (λ t. readers.pure (spec.plain operators.other (tree.Tree.text t.letters))) tokens.old) result tokens.new }
{
    Ok(string(text(alloc, tokens.take()?)?))
}

impl<F: Fn(Global, &mut Tokens<'_>, u8, u8) -> Result<Expr, Fault> + Copy> Atoms<F> {
    /// An expression inside a construct.
    #[tactic(auto, using(crate::proofs::NestLemmas::within_is))]
    fn inside(&self, tokens: &mut Tokens<'_>, taken: u8) -> Result<Expr, Fault>
        requires nests { ReadsExpressions self.now.room (F.pre self.now.inside) (F.post self.now.inside) }
        requires room { taken < self.now.room }
        ensures { Reads view.expression (spec.within self.now.room taken tokens.old) result tokens.new }
    {
        (self.inside)(self.alloc, tokens, self.room - 1, taken)
    }

    /// An expression in parentheses.
    #[tactic(auto, using(spl_tokens::proofs::Steps::steps), unfolding(spl_reading::specs::Readers::pure, spl_reading::specs::Readers::refuse, spl_reading::specs::Readers::followed, spl_reading::specs::Readers::and_then, spl_reading::specs::ReadExpressions::enclosed))]
    pub fn enclosed(&self, tokens: &mut Tokens<'_>, taken: u8) -> Result<Expr, Fault>
        requires nests { ReadsExpressions self.now.room (F.pre self.now.inside) (F.post self.now.inside) }
        ensures { Reads view.expression (enclosed self.now.room taken tokens.old) result tokens.new }
    {
        opening(tokens, self.room, taken)?;
        let inside = self.inside(tokens, taken)?;
        match tokens.expect(Symbol::Close) {
            Ok(_) => Ok(inside),
            Err(fault) => {
                drop(inside);
                Err(fault)
            }
        }
    }

    /// A further argument, and whether another may follow.
    #[tactic(auto, using(spl_tokens::proofs::Steps::steps, spl_tokens::proofs::Steps::pushed), unfolding(spl_reading::specs::Readers::pure, spl_reading::specs::Readers::refuse, spl_reading::specs::Readers::followed, spl_reading::specs::Readers::and_then, spl_reading::specs::ReadExpressions::more_arguments))]
    fn argument(
        &self,
        tokens: &mut Tokens<'_>,
        taken: u8,
        args: Vec<Expr>,
    ) -> Result<(bool, Vec<Expr>), Fault>
        requires nests { ReadsExpressions self.now.room (F.pre self.now.inside) (F.post self.now.inside) }
        requires room { taken < self.now.room }
        ensures { Reads (paired expressions) (more_arguments self.now.room taken (expressions args) tokens.old) result tokens.new }
    {
        let mut args = args;
        if same(tokens.peek()?, Symbol::Comma) {
            tokens.take()?;
            args.push(self.inside(tokens, taken)?)?;
            Ok((true, args))
        } else {
            Ok((false, args))
        }
    }

    /// The further arguments.
    #[tactic(auto, using(spl_tokens::proofs::Steps::steps, spl_tokens::proofs::Turns::loops), unfolding(spl_reading::specs::Readers::pure, spl_reading::specs::Readers::refuse, spl_reading::specs::Readers::followed, spl_reading::specs::Readers::and_then))]
    fn more(&self, tokens: &mut Tokens<'_>, taken: u8, args: Vec<Expr>) -> Result<Vec<Expr>, Fault>
        requires nests { ReadsExpressions self.now.room (F.pre self.now.inside) (F.post self.now.inside) }
        requires room { taken < self.now.room }
        ensures { Reads expressions (readers.repeat (more_arguments self.now.room taken) (expressions args) tokens.old) result tokens.new }
    {
        let mut args = args;
        for _turn in 0..tokens.left() + 1 {
            let (more, next) = self.argument(tokens, taken, args)?;
            if !more {
                return Ok(next);
            }
            args = next;
        }
        Err(Fault::Syntax)
    }

    /// Arguments in parentheses.
    #[tactic(auto, using(spl_tokens::proofs::Steps::steps), unfolding(spl_reading::specs::Readers::pure, spl_reading::specs::Readers::refuse, spl_reading::specs::Readers::followed, spl_reading::specs::Readers::and_then, spl_reading::specs::ReadExpressions::arguments))]
    pub fn arguments(&self, tokens: &mut Tokens<'_>, taken: u8) -> Result<Vec<Expr>, Fault>
        requires nests { ReadsExpressions self.now.room (F.pre self.now.inside) (F.post self.now.inside) }
        ensures { Reads expressions (arguments self.now.room taken tokens.old) result tokens.new }
    {
        opening(tokens, self.room, taken)?;
        let first = self.inside(tokens, taken)?;
        let args = self.more(tokens, taken, vec![in self.alloc; first]?)?;
        tokens.expect(Symbol::Close)?;
        Ok(args)
    }

    /// A name, with the arguments behind it.
    #[tactic(auto, using(spl_tokens::proofs::Steps::steps), unfolding(spl_reading::specs::Readers::pure, spl_reading::specs::Readers::refuse, spl_reading::specs::Readers::followed, spl_reading::specs::Readers::and_then, spl_reading::specs::ReadExpressions::named, spl_parts::specs::Parts::operand))]
    fn named(&self, tokens: &mut Tokens<'_>, taken: u8, token: &Token) -> Result<Part, Fault>
        requires nests { ReadsExpressions self.now.room (F.pre self.now.inside) (F.post self.now.inside) }
        requires name { (lexeme token.now).symbol ≡ Symbol.Name }
        ensures { Reads operand (named self.now.room taken (lexeme token.now) tokens.old) result tokens.new }
    {
        let name = name(token);
        let at = token.at;
        if same(tokens.peek()?, Symbol::Open) {
            let args = self.arguments(tokens, taken)?;
            Ok(called(self.alloc, name, args, at)?)
        } else {
            Ok(variable(name, at))
        }
    }

    /// The address of what a name stands for, behind its mark.
    #[tactic(auto, using(spl_tokens::proofs::Steps::steps), unfolding(spl_reading::specs::Readers::pure, spl_reading::specs::Readers::refuse, spl_reading::specs::Readers::followed, spl_reading::specs::Readers::and_then, spl_reading::specs::ReadExpressions::addressed))]
    fn addressed(
        &self,
        tokens: &mut Tokens<'_>,
        taken: u8,
        mark: &Token,
        token: &Token,
    ) -> Result<Part, Fault>
        requires nests { ReadsExpressions self.now.room (F.pre self.now.inside) (F.post self.now.inside) }
        requires name { (lexeme token.now).symbol ≡ Symbol.Name }
        ensures { Reads operand (addressed self.now.room taken (lexeme mark.now) (lexeme token.now) tokens.old) result tokens.new }
    {
        let name = name(token);
        let at = mark.at;
        if same(tokens.peek()?, Symbol::Open) {
            let index = self.enclosed(tokens, taken)?;
            Ok(element_address(self.alloc, name, index, at)?)
        } else {
            Ok(address(name, at))
        }
    }

    /// A value taken as one of another kind.
    #[tactic(auto, using(spl_tokens::proofs::Steps::steps), unfolding(spl_reading::specs::Readers::pure, spl_reading::specs::Readers::refuse, spl_reading::specs::Readers::followed, spl_reading::specs::Readers::and_then))]
    fn transfer(&self, tokens: &mut Tokens<'_>, taken: u8, to: Kind) -> Result<Part, Fault>
        requires nests { ReadsExpressions self.now.room (F.pre self.now.inside) (F.post self.now.inside) }
        ensures { Reads operand (transfer self.now.room taken to tokens.old) result tokens.new }
    {
        let at = tokens.take()?.at;
        let of = self.enclosed(tokens, taken)?;
        Ok(transferred(self.alloc, to, of, at)?)
    }

    /// A name, which stands next, with the arguments behind it.
    #[tactic(auto, using(spl_tokens::proofs::Steps::steps), unfolding(spl_reading::specs::Readers::pure, spl_reading::specs::Readers::refuse, spl_reading::specs::Readers::followed, spl_reading::specs::Readers::and_then))]
    fn name_next(&self, tokens: &mut Tokens<'_>, taken: u8) -> Result<Part, Fault>
        requires nests { ReadsExpressions self.now.room (F.pre self.now.inside) (F.post self.now.inside) }
        requires next { peeked tokens.old ≡ readers.Got Symbol.Name tokens.old }
        ensures { Reads operand (readers.followed readers.take (named self.now.room taken) tokens.old) result tokens.new }
    {
        let token = tokens.take()?;
        self.named(tokens, taken, token)
    }

    /// An address, from its mark on.
    #[tactic(auto, using(spl_tokens::proofs::Steps::steps), unfolding(spl_reading::specs::Readers::pure, spl_reading::specs::Readers::refuse, spl_reading::specs::Readers::followed, spl_reading::specs::Readers::and_then))]
    fn address_next(&self, tokens: &mut Tokens<'_>, taken: u8) -> Result<Part, Fault>
        requires nests { ReadsExpressions self.now.room (F.pre self.now.inside) (F.post self.now.inside) }
        ensures { Reads operand (readers.followed readers.take (λ a. readers.followed (readers.expect Symbol.Name) (addressed self.now.room taken a)) tokens.old) result tokens.new }
    {
        let mark = tokens.take()?;
        let token = tokens.expect(Symbol::Name)?;
        self.addressed(tokens, taken, mark, token)
    }

    /// An operand in parentheses.
    #[tactic(auto, using(spl_tokens::proofs::Steps::steps), unfolding(spl_reading::specs::Readers::pure, spl_reading::specs::Readers::refuse, spl_reading::specs::Readers::followed, spl_reading::specs::Readers::and_then))]
    fn enclosed_next(&self, tokens: &mut Tokens<'_>, taken: u8) -> Result<Part, Fault>
        requires nests { ReadsExpressions self.now.room (F.pre self.now.inside) (F.post self.now.inside) }
        ensures { Reads operand (readers.followed (enclosed self.now.room taken) (λ e. readers.pure (spec.plain operators.other e)) tokens.old) result tokens.new }
    {
        Ok(enclosing(self.enclosed(tokens, taken)?))
    }

    /// An operand without a bit field.
    #[tactic(auto, using(spl_tokens::proofs::Steps::steps), unfolding(spl_reading::specs::Readers::pure, spl_reading::specs::Readers::refuse, spl_reading::specs::Readers::followed, spl_reading::specs::Readers::and_then, spl_reading::specs::ReadExpressions::primary_by))]
    fn atom(&self, tokens: &mut Tokens<'_>, taken: u8) -> Result<Part, Fault>
        requires nests { ReadsExpressions self.now.room (F.pre self.now.inside) (F.post self.now.inside) }
        ensures { Reads operand (atom self.now.room taken tokens.old) result tokens.new }
    {
        match tokens.peek()? {
            Symbol::Number(value) => number_next(tokens, value),
            Symbol::Wide(value) => wide_next(tokens, value),
            Symbol::Text => string_next(self.alloc, tokens),
            Symbol::Truth(value) => truth_next(tokens, value),
            Symbol::Name => self.name_next(tokens, taken),
            Symbol::AtSign => self.address_next(tokens, taken),
            Symbol::Open => self.enclosed_next(tokens, taken),
            Symbol::Type(kind) => self.transfer(tokens, taken, kind),
            _ => Err(Fault::Syntax),
        }
    }

    /// An operand, with its bit field where it has one.
    #[tactic(auto, using(spl_tokens::proofs::Steps::steps), unfolding(spl_reading::specs::Readers::pure, spl_reading::specs::Readers::refuse, spl_reading::specs::Readers::followed, spl_reading::specs::Readers::and_then, spl_reading::specs::ReadExpressions::primary))]
    pub fn primary(&self, tokens: &mut Tokens<'_>, taken: u8) -> Result<Part, Fault>
        requires nests { ReadsExpressions self.now.room (F.pre self.now.inside) (F.post self.now.inside) }
        ensures { Reads operand (primary self.now.room taken tokens.old) result tokens.new }
    {
        let at = tokens.place()?;
        let of = self.atom(tokens, taken)?;
        field(self.alloc, tokens, of, at)
    }
}
