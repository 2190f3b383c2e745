//! The levels of operators, from an operand up to a whole expression or condition.
//!
//! At a fault a part that was read is dropped by a call of `drop`. A `?` writes out the drop of all that it lets go, which
//! of an expression is long, and each rule is proved with it.
ghost use Rattle.std.specs.Prelude.{◌≡◌, ◌+◌, ◌-◌, ◌/◌, ◌<◌, ◌≤◌, ◌==◌, ◌&&◌, if◌then◌else◌, suc, IfOk, IsTrue, OnOk, None, true, false};
ghost use Rattle.spl_tree.specs.Operators as operators;
ghost use Rattle.spl_tree.specs.Trees as tree;
ghost use Rattle.spl_tree.specs.Views as view;
ghost use Rattle.spl_reading.specs.Readers as readers;
ghost use Rattle.spl_reading.specs.ReadExpressions as spec;
ghost use Rattle.spl_tokens.specs.Reads.{Reads, lexeme, shown, paired, peeked, same_as};
ghost use Rattle.spl_parts.specs.Parts.{form, tree_of, operand, found};
ghost use Rattle.spl_levels.specs.Pieces as pieces;
ghost use Rattle.spl_levels.specs.Nests.{Nests, counted_bytes, level, turn, first, term, join, bytes, whole};

use spl_parts::{Comparison, Found, Part, combined, measured, shifted_by, signed};
use spl_tokens::{
    Fault, Tokens, binds, constant, is_number, is_sign, opening, operator_of, same, shift_of,
    token_symbol,
};
use spl_tree::{At, Const, Expr, Symbol, Token, binary};
use std::alloc::Global;

/// The rules of the levels, where so many constructs may be opened, less those that `taken` counts.
#[derive(Clone, Copy)]
pub struct Levels<F> {
    pub alloc: Global,
    pub room: u8,
    pub taken: u8,
    /// Whether a condition is read.
    pub condition: bool,
    /// Reads an operand.
    pub operand: F,
}

#[tactic(auto, using(spl_tokens::proofs::Steps::steps), unfolding(spl_reading::specs::Readers::pure, spl_reading::specs::Readers::refuse, spl_reading::specs::Readers::followed, spl_reading::specs::Readers::and_then, spl_reading::specs::Readers::numbered))]
/// The number of the shift that comes next.
fn shift_kind(tokens: &mut Tokens<'_>) -> Result<u8, Fault>
    ensures { Reads same_as (readers.named_number operators.shift_of tokens.old) result tokens.new }
{
    match shift_of(tokens.next_name()?) {
        None => Err(Fault::Syntax),
        Some(kind) => {
            tokens.take()?;
            Ok(kind)
        }
    }
}

/// The place of a part: that of the minus that belongs to its number, or else of its first token.
fn begins(minus: Option<At>, at: At) -> At
    ensures { result ≡ spec.begins minus at }
{
    match minus {
        None => at,
        Some(minus) => minus,
    }
}

impl<F: Fn(Global, &mut Tokens<'_>, u8, u8, Option<At>) -> Result<Part, Fault> + Copy> Levels<F> {
    #[tactic(auto, using(spl_tokens::proofs::Steps::steps), unfolding(spl_reading::specs::Readers::pure, spl_reading::specs::Readers::refuse, spl_reading::specs::Readers::followed, spl_reading::specs::Readers::and_then, spl_parts::specs::Parts::operand, spl_parts::specs::Parts::found, spl_reading::specs::ReadExpressions::counted))]
    /// An operator or a mark `&` behind so many others of its expression.
    fn counted<'a>(&self, tokens: &mut Tokens<'a>, count: u16) -> Result<&'a Token, Fault>
        requires { self.now.taken + count / 8 ≤ self.now.room }
        ensures read { Reads shown (spec.counted (spec.unary self.now.room) (counted_bytes self.now.condition self.now.room) self.now.room self.now.condition self.now.taken count tokens.old) result tokens.new }
        ensures symbol { IfOk result (λ token. peeked tokens.old ≡ readers.Got (lexeme token.now).symbol tokens.old) }
        ensures fits { OnOk result (self.now.taken + suc count / 8 ≤ self.now.room) }
    {
        let room = u16::from(self.room);
        let open = u16::from(self.taken) + (count + 1) / 8;
        tokens.allowed(open <= room)
    }

    #[tactic(auto, using(spl_tokens::proofs::Steps::steps), unfolding(spl_reading::specs::Readers::pure, spl_reading::specs::Readers::refuse, spl_reading::specs::Readers::followed, spl_reading::specs::Readers::and_then, spl_parts::specs::Parts::operand, spl_parts::specs::Parts::found, spl_reading::specs::ReadExpressions::level))]
    /// An operand behind so many operators.
    fn operand(
        &self,
        tokens: &mut Tokens<'_>,
        count: u16,
        minus: Option<At>,
    ) -> Result<Found, Fault>
        requires nests { Nests (suc self.now.room) (F.pre self.now.operand) (F.post self.now.operand) }
        requires room { self.now.taken + count / 8 ≤ self.now.room }
        ensures read { Reads found (level self.now.condition self.now.room self.now.taken 0 count minus tokens.old) result tokens.new }
        ensures fits { IfOk result (λ f. self.now.taken + f.count / 8 ≤ self.now.room) }
    {
        let room = self.room;
        let taken = self.taken + (count / 8) as u8;
        let part = (self.operand)(self.alloc, tokens, room, taken, minus)?;
        Ok(Found { count, part })
    }

    #[tactic(auto, using(spl_tokens::proofs::Steps::steps), unfolding(spl_reading::specs::Readers::pure, spl_reading::specs::Readers::refuse, spl_reading::specs::Readers::followed, spl_reading::specs::Readers::and_then, crate::specs::Pieces::amount))]
    /// The number of a shift and how far it goes, from its mark on, behind so many operators.
    fn amount(&self, tokens: &mut Tokens<'_>, count: u16) -> Result<(u8, Const), Fault>
        requires room { self.now.taken + count / 8 ≤ self.now.room }
        ensures read { Reads pieces.shift (pieces.amount self.now.condition self.now.room self.now.taken count tokens.old) result tokens.new }
        ensures fits { OnOk result (self.now.taken + suc count / 8 ≤ self.now.room) }
    {
        self.counted(tokens, count)?;
        let kind = shift_kind(tokens)?;
        tokens.expect(Symbol::Open)?;
        let by = constant(self.alloc, tokens)?;
        tokens.expect(Symbol::Close)?;
        Ok((kind, by))
    }

    #[tactic(auto, using(spl_tokens::proofs::Steps::steps, crate::proofs::PieceLemmas::shifted_is), unfolding(spl_reading::specs::Readers::pure, spl_reading::specs::Readers::followed, spl_reading::specs::Readers::and_then, spl_parts::specs::Parts::found))]
    /// A shift of what was read, from its mark on.
    fn shifted(&self, tokens: &mut Tokens<'_>, of: Found, at: At) -> Result<(bool, Found), Fault>
        requires room { self.now.taken + of.count / 8 ≤ self.now.room }
        ensures read { Reads (paired found) (spec.shifted (spec.unary self.now.room) (counted_bytes self.now.condition self.now.room) self.now.room self.now.condition self.now.taken at (found of) tokens.old) result tokens.new }
        ensures fits { IfOk result (λ f. self.now.taken + f.1.count / 8 ≤ self.now.room) }
    {
        let Found { count, part } = of;
        match self.amount(tokens, count) {
            Ok(amount) => {
                let part = shifted_by(self.alloc, part, amount, at)?;
                let count = count + 1;
                Ok((true, Found { count, part }))
            }
            Err(fault) => {
                drop(part);
                Err(fault)
            }
        }
    }

    #[tactic(auto, using(spl_tokens::proofs::Steps::steps), unfolding(spl_reading::specs::Readers::pure, spl_reading::specs::Readers::refuse, spl_reading::specs::Readers::followed, spl_reading::specs::Readers::and_then, spl_parts::specs::Parts::operand, spl_parts::specs::Parts::found, spl_reading::specs::ReadExpressions::level))]
    /// A part of a level behind so many operators.
    #[cycle(level)]
    fn level(
        &self,
        tokens: &mut Tokens<'_>,
        height: u8,
        count: u16,
        minus: Option<At>,
    ) -> Result<Found, Fault>
        requires nests { Nests (suc self.now.room) (F.pre self.now.operand) (F.post self.now.operand) }
        requires height { height ≤ 10 }
        requires room { self.now.taken + count / 8 ≤ self.now.room }
        ensures read { Reads found (level self.now.condition self.now.room self.now.taken height count minus tokens.old) result tokens.new }
        ensures fits { IfOk result (λ f. self.now.taken + f.count / 8 ≤ self.now.room) }
    {
        if height == 0 {
            return self.operand(tokens, count, minus);
        }
        let at = begins(minus, tokens.place()?);
        let of = self.first(tokens, height - 1, count, minus)?;
        self.rest(tokens, height - 1, of, at)
    }

    #[tactic(auto, using(spl_tokens::proofs::Steps::steps), unfolding(spl_reading::specs::Readers::pure, spl_reading::specs::Readers::refuse, spl_reading::specs::Readers::followed, spl_reading::specs::Readers::and_then, spl_parts::specs::Parts::operand, spl_parts::specs::Parts::found, spl_reading::specs::ReadExpressions::first))]
    /// The first operand of the level above.
    #[cycle(level)]
    fn first(
        &self,
        tokens: &mut Tokens<'_>,
        height: u8,
        count: u16,
        minus: Option<At>,
    ) -> Result<Found, Fault>
        requires nests { Nests (suc self.now.room) (F.pre self.now.operand) (F.post self.now.operand) }
        requires height { height < 10 }
        requires room { self.now.taken + count / 8 ≤ self.now.room }
        ensures read { Reads found (first self.now.condition self.now.room self.now.taken height count minus tokens.old) result tokens.new }
        ensures fits { IfOk result (λ f. self.now.taken + f.count / 8 ≤ self.now.room) }
    {
        if height != 2 {
            return self.level(tokens, height, count, minus);
        }
        if is_sign(operator_of(tokens.peek()?)) {
            let sign = tokens.take()?;
            self.term(tokens, height, count, sign)
        } else {
            self.level(tokens, height, count, None)
        }
    }

    #[tactic(auto, using(spl_tokens::proofs::Steps::steps), unfolding(spl_reading::specs::Readers::pure, spl_reading::specs::Readers::refuse, spl_reading::specs::Readers::followed, spl_reading::specs::Readers::and_then, spl_parts::specs::Parts::operand, spl_parts::specs::Parts::found, spl_reading::specs::ReadExpressions::signed_by_next))]
    /// The term behind a sign.
    #[cycle(level)]
    fn term(
        &self,
        tokens: &mut Tokens<'_>,
        height: u8,
        count: u16,
        sign: &Token,
    ) -> Result<Found, Fault>
        requires nests { Nests (suc self.now.room) (F.pre self.now.operand) (F.post self.now.operand) }
        requires height { height < 10 }
        requires room { self.now.taken + count / 8 ≤ self.now.room }
        requires sign { IsTrue (operators.is_sign (spec.operator_of (lexeme sign.now).symbol)) }
        ensures read { Reads found (term self.now.condition self.now.room self.now.taken height count (lexeme sign.now) tokens.old) result tokens.new }
        ensures fits { IfOk result (λ f. self.now.taken + f.count / 8 ≤ self.now.room) }
    {
        let op = operator_of(token_symbol(sign));
        if is_number(tokens.peek()?) && op == binary::MINUS {
            let Found { count, part } = self.level(tokens, height, count, Some(sign.at))?;
            let part = Part::Other(part.into_expr(self.alloc)?);
            Ok(Found { count, part })
        } else {
            let Found { count, part } = self.level(tokens, height, count, None)?;
            let part = signed(self.alloc, op, part, sign.at)?;
            Ok(Found { count, part })
        }
    }

    #[tactic(auto, using(spl_tokens::proofs::Steps::steps, spl_tokens::proofs::Turns::loops), unfolding(spl_reading::specs::Readers::pure, spl_reading::specs::Readers::refuse, spl_reading::specs::Readers::followed, spl_reading::specs::Readers::and_then, spl_parts::specs::Parts::operand, spl_parts::specs::Parts::found))]
    /// What goes on with a part of the level above.
    #[cycle(level)]
    fn rest(&self, tokens: &mut Tokens<'_>, height: u8, of: Found, at: At) -> Result<Found, Fault>
        requires nests { Nests (suc self.now.room) (F.pre self.now.operand) (F.post self.now.operand) }
        requires height { height < 10 }
        requires room { self.now.taken + of.count / 8 ≤ self.now.room }
        ensures read { Reads found (readers.repeat (turn self.now.condition self.now.room self.now.taken height at) (found of) tokens.old) result tokens.new }
        ensures fits { IfOk result (λ f. self.now.taken + f.count / 8 ≤ self.now.room) }
    {
        let mut of = of;
        for _turn in 0..tokens.left() + 1 {
            let (more, next) = self.turn(tokens, height, of, at)?;
            if !more {
                return Ok(next);
            }
            of = next;
        }
        drop(of);
        Err(Fault::Syntax)
    }

    #[tactic(auto, using(spl_tokens::proofs::Steps::steps), unfolding(spl_reading::specs::Readers::pure, spl_reading::specs::Readers::refuse, spl_reading::specs::Readers::followed, spl_reading::specs::Readers::and_then, spl_parts::specs::Parts::operand, spl_parts::specs::Parts::found, spl_reading::specs::ReadExpressions::turn, spl_reading::specs::ReadExpressions::turn_by))]
    /// One turn of it, and whether another may follow.
    #[cycle(level)]
    fn turn(
        &self,
        tokens: &mut Tokens<'_>,
        height: u8,
        of: Found,
        at: At,
    ) -> Result<(bool, Found), Fault>
        requires nests { Nests (suc self.now.room) (F.pre self.now.operand) (F.post self.now.operand) }
        requires height { height < 10 }
        requires room { self.now.taken + of.count / 8 ≤ self.now.room }
        ensures read { Reads (paired found) (turn self.now.condition self.now.room self.now.taken height at (found of) tokens.old) result tokens.new }
        ensures fits { IfOk result (λ f. self.now.taken + f.1.count / 8 ≤ self.now.room) }
    {
        let next = match tokens.peek() {
            Ok(next) => next,
            Err(fault) => {
                drop(of);
                return Err(fault);
            }
        };
        if binds(operator_of(next)) == height + 1 {
            self.join(tokens, height, next, of, at)
        } else if height == 0 && same(next, Symbol::Ampersand) {
            self.shifted(tokens, of, at)
        } else if self.condition && height == 7 && same(next, Symbol::Comma) {
            self.compared(tokens, of)
        } else {
            Ok((false, of))
        }
    }

    #[tactic(auto, using(spl_tokens::proofs::Steps::steps), unfolding(spl_reading::specs::Readers::pure, spl_reading::specs::Readers::refuse, spl_reading::specs::Readers::followed, spl_reading::specs::Readers::and_then, spl_parts::specs::Parts::operand, spl_parts::specs::Parts::found, spl_reading::specs::ReadExpressions::join))]
    /// An operator and its right operand.
    #[cycle(level)]
    fn join(
        &self,
        tokens: &mut Tokens<'_>,
        height: u8,
        next: Symbol,
        of: Found,
        at: At,
    ) -> Result<(bool, Found), Fault>
        requires nests { Nests (suc self.now.room) (F.pre self.now.operand) (F.post self.now.operand) }
        requires height { height < 10 }
        requires room { self.now.taken + of.count / 8 ≤ self.now.room }
        requires next { peeked tokens.old ≡ readers.Got next tokens.old }
        requires binds { operators.binds (spec.operator_of next) ≡ suc height }
        ensures read { Reads (paired found) (join self.now.condition self.now.room self.now.taken height at (found of) tokens.old) result tokens.new }
        ensures fits { IfOk result (λ f. self.now.taken + f.1.count / 8 ≤ self.now.room) }
    {
        let Found { count, part } = of;
        match self.counted(tokens, count) {
            Ok(_) => {}
            Err(fault) => {
                drop(part);
                return Err(fault);
            }
        }
        let right = match self.level(tokens, height, count + 1, None) {
            Ok(right) => right,
            Err(fault) => {
                drop(part);
                return Err(fault);
            }
        };
        let part = combined(self.alloc, height, operator_of(next), part, right.part, at)?;
        Ok((
            height != 3,
            Found {
                count: right.count,
                part,
            },
        ))
    }

    #[tactic(auto, using(spl_tokens::proofs::Steps::steps), unfolding(spl_reading::specs::Readers::pure, spl_reading::specs::Readers::refuse, spl_reading::specs::Readers::followed, spl_reading::specs::Readers::and_then, spl_parts::specs::Parts::operand, spl_parts::specs::Parts::found))]
    /// The number of bytes, where a comparison was read.
    #[cycle(level)]
    fn compared(&self, tokens: &mut Tokens<'_>, of: Found) -> Result<(bool, Found), Fault>
        requires nests { Nests (suc self.now.room) (F.pre self.now.operand) (F.post self.now.operand) }
        requires condition { IsTrue self.now.condition }
        requires room { self.now.taken + of.count / 8 ≤ self.now.room }
        ensures read { Reads (paired found) ((if spec.is_comparison (form of.part) then bytes self.now.room self.now.taken (found of) else readers.pure (false, found of)) tokens.old) result tokens.new }
        ensures fits { IfOk result (λ f. self.now.taken + f.1.count / 8 ≤ self.now.room) }
    {
        let Found { count, part } = of;
        match part {
            Part::Comparison(comparison) => self.bytes(tokens, count, comparison),
            part => Ok((false, Found { count, part })),
        }
    }

    #[tactic(auto, using(spl_tokens::proofs::Steps::steps), unfolding(spl_reading::specs::Readers::pure, spl_reading::specs::Readers::refuse, spl_reading::specs::Readers::followed, spl_reading::specs::Readers::and_then, crate::specs::Pieces::length))]
    /// The number of bytes of a comparison behind so many operators, from its comma on.
    #[cycle(level)]
    fn length(&self, tokens: &mut Tokens<'_>, count: u16) -> Result<Expr, Fault>
        requires nests { Nests (suc self.now.room) (F.pre self.now.operand) (F.post self.now.operand) }
        requires room { self.now.taken + count / 8 ≤ self.now.room }
        ensures { Reads view.expression (pieces.length self.now.room (self.now.taken + count / 8) tokens.old) result tokens.new }
    {
        let room = self.room;
        let taken = self.taken + (count / 8) as u8;
        tokens.take()?;
        opening(tokens, room, taken)?;
        let inside = Levels {
            alloc: self.alloc,
            room: room - 1,
            taken,
            condition: false,
            operand: self.operand,
        };
        let bytes = inside.whole(tokens)?;
        match tokens.expect(Symbol::Close) {
            Ok(_) => Ok(bytes),
            Err(fault) => {
                drop(bytes);
                Err(fault)
            }
        }
    }

    #[tactic(auto, using(spl_tokens::proofs::Steps::steps, crate::proofs::PieceLemmas::bytes_is), unfolding(spl_reading::specs::Readers::pure, spl_reading::specs::Readers::followed, spl_reading::specs::Readers::and_then, spl_parts::specs::Parts::found))]
    /// A comparison with its number of bytes, from its comma on.
    #[cycle(level)]
    fn bytes(
        &self,
        tokens: &mut Tokens<'_>,
        count: u16,
        of: Comparison,
    ) -> Result<(bool, Found), Fault>
        requires nests { Nests (suc self.now.room) (F.pre self.now.operand) (F.post self.now.operand) }
        requires room { self.now.taken + count / 8 ≤ self.now.room }
        ensures read { Reads (paired found) (bytes self.now.room self.now.taken (found (record { count = count; part = Part.Comparison of })) tokens.old) result tokens.new }
        ensures fits { IfOk result (λ f. self.now.taken + f.1.count / 8 ≤ self.now.room) }
    {
        match self.length(tokens, count) {
            Ok(bytes) => {
                let part = measured(self.alloc, of, bytes)?;
                Ok((true, Found { count, part }))
            }
            Err(fault) => {
                drop(of);
                Err(fault)
            }
        }
    }

    #[tactic(auto, using(spl_tokens::proofs::Steps::steps), unfolding(spl_reading::specs::Readers::pure, spl_reading::specs::Readers::refuse, spl_reading::specs::Readers::followed, spl_reading::specs::Readers::and_then, spl_parts::specs::Parts::operand, spl_parts::specs::Parts::found))]
    /// A whole expression or condition.
    #[cycle(level)]
    pub fn whole(&self, tokens: &mut Tokens<'_>) -> Result<Expr, Fault>
        requires nests { Nests (suc self.now.room) (F.pre self.now.operand) (F.post self.now.operand) }
        requires room { self.now.taken ≤ self.now.room }
        ensures { Reads view.expression (whole self.now.condition self.now.room self.now.taken tokens.old) result tokens.new }
    {
        let found = self.level(tokens, 10, 0, None)?;
        Ok(found.part.into_expr(self.alloc)?)
    }
}
