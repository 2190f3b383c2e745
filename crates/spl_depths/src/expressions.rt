//! The words that wait while expressions are worked out.
//!
//! An expression answers its kind as well, so that no kind is worked out twice.
ghost use Rattle.std.specs.Prelude.{◌≡◌, IfOk, map, option_map};
ghost use Rattle.spl_tree.specs.Views as view;
ghost use Rattle.spl_tree.specs.Trees.{trees};
ghost use Rattle.spl_sorts.specs.spl_meaning.Kinds as kinds;
ghost use Rattle.spl_sorts.specs.spl_meaning.Pending as pending;
ghost use Rattle.spl_sorts.specs.Sorts.{sort_of, operand_of};
ghost use Rattle.spl_sorts.specs.Profiles.{formal_of};
ghost use Rattle.spl_sorts.specs.Tables.{names_of};
ghost use Rattle.spl_depths.specs.Calls as calls;

use crate::words::{
    argument_words, formals_words, larger, link_words, operand_width, result_words,
};
use spl_sorts::{Formal, Names, Operand, Sort, callable};
use spl_spots::plus;
use spl_tree::{Expr, Kind, Ref, binary};
use spl_uses::compares_text;
use std::alloc::AllocError;

/// What an expression is, with the greatest number of words that wait while it is worked out.
#[derive(Clone, Copy, Debug)]
pub struct Measured {
    pub operand: Operand,
    pub most: u64,
}

impl Measured {
    /// What is this, with so many words.
    fn new(operand: Operand, most: u64) -> Measured
        ensures operand { result.operand ≡ operand }
        ensures most { result.most ≡ most }
    {
        Measured { operand, most }
    }

    /// A value of a kind.
    fn of(kind: Kind, most: u64) -> Measured
        ensures operand { operand_of result.operand ≡ kinds.of kind }
        ensures most { result.most ≡ most }
    {
        Measured::new(Operand::Of(kind), most)
    }
}

/// The words of a left operand that wait for the right one: its value, but nothing of AND and OR, nor of a comparison with a string.
pub fn left_words(names: &Names<'_>, op: u8, left: &Expr, right: &Expr, value: Operand) -> u64
    requires { operand_of value ≡ kinds.kind_of (names_of names.now) (view.expression left.now) }
    ensures { result ≡ pending.left_words (names_of names.now) op (view.expression left.now) (view.expression right.now) }
{
    if op < binary::LOR || compares_text(names, op, left, right) {
        0
    } else {
        operand_width(value)
    }
}

/// The result, the parameters and the link of a call, as it begins.
fn call_words(sort: Option<&Sort>) -> Result<u64, AllocError>
    ensures { IfOk result (λ words. words ≡ calls.call_words (option_map (λ s. sort_of s.now) sort.entry)) }
{
    match callable(sort) {
        None => Ok(link_words(sort)),
        Some(profile) => {
            let parameters = plus(result_words(profile), formals_words(&profile.formals)?)?;
            plus(parameters, link_words(sort))
        }
    }
}

/// The words of the result of a call.
pub fn result_of(sort: Option<&Sort>) -> u64
    ensures { result ≡ pending.profile_result_words (kinds.callable (option_map (λ s. sort_of s.now) sort.entry)) }
{
    match callable(sort) {
        None => 0,
        Some(profile) => result_words(profile),
    }
}

/// The parameters of what is called.
pub fn formals_of<'s>(sort: Option<&'s Sort>) -> &'s [Formal]
    ensures { map formal_of result.now ≡ pending.profile_formals (kinds.callable (option_map (λ s. sort_of s.now) sort.entry)) }
{
    match callable(sort) {
        None => &[],
        Some(profile) => &profile.formals,
    }
}

/// An expression.
#[cycle(expressions)]
#[tactic(auto, using(crate::proofs::Walks::ones))]
pub fn measure(names: &Names<'_>, e: &Expr) -> Result<Measured, AllocError>
    ensures kind { IfOk result (λ m. operand_of m.operand ≡ kinds.kind_of (names_of names.now) (view.expression e.now)) }
    ensures most { IfOk result (λ m. m.most ≡ pending.most (names_of names.now) (view.expression e.now)) }
{
    match e {
        Expr::Number(_) | Expr::Text(_) | Expr::Truth(_) => {
            Ok(Measured::new(Operand::Constant, 0))
        }
        Expr::Wide(_) => Ok(Measured::of(Kind::Double, 0)),
        Expr::Named { name, args, .. } => {
            let sort = names.find(name);
            let most = call(names, sort, args)?;
            Ok(Measured::new(Operand::named(sort), most))
        }
        Expr::Address { index: None, .. } => Ok(Measured::of(Kind::Logical, 0)),
        Expr::Address {
            index: Some(index),
            ..
        } => Ok(Measured::of(Kind::Logical, measure(names, index)?.most)),
        Expr::Unary { op, of, .. } => {
            let value = measure(names, of)?;
            Ok(Measured::new(value.operand.unary(*op), value.most))
        }
        Expr::Binary {
            op,
            left,
            right,
            ..
        } => {
            let a = measure(names, left)?;
            let b = measure(names, right)?;
            let waiting = left_words(names, *op, left, right, a.operand);
            let most = larger(a.most, plus(waiting, b.most)?);
            Ok(Measured::new(a.operand.binary(*op, b.operand), most))
        }
        Expr::Shift { of, .. } | Expr::Field { of, .. } => {
            Ok(Measured::of(Kind::Logical, measure(names, of)?.most))
        }
        Expr::Transfer { to, of, .. } => Ok(Measured::of(*to, measure(names, of)?.most)),
        Expr::Bytes {
            left,
            right,
            count,
            ..
        } => {
            let a = reference(names, left)?;
            let b = plus(1, reference(names, right)?)?;
            let count = plus(2, measure(names, count)?.most)?;
            Ok(Measured::of(Kind::Logical, larger(a, larger(b, count))))
        }
    }
}

/// A name with what stands behind it: a call, an element or a variable.
#[cycle(expressions)]
#[tactic(auto)]
pub fn call(names: &Names<'_>, sort: Option<&Sort>, args: &[Expr]) -> Result<u64, AllocError>
    ensures { IfOk result (λ most. most ≡ calls.call_most (names_of names.now) (option_map (λ s. sort_of s.now) sort.entry) (trees (map view.expression args.now))) }
{
    let among = arguments(names, formals_of(sort), result_of(sort), args)?;
    Ok(larger(among, call_words(sort)?))
}

/// A reference.
#[cycle(expressions)]
#[tactic(auto, using(crate::proofs::Walks::ones))]
pub fn reference(names: &Names<'_>, r: &Ref) -> Result<u64, AllocError>
    ensures { IfOk result (λ most. most ≡ pending.most (names_of names.now) (view.reference r.now)) }
{
    let sort = names.find(&r.name);
    let words = call_words(sort)?;
    match &r.index {
        None => Ok(words),
        Some(index) => {
            let index = measure(names, index)?.most;
            Ok(larger(plus(result_of(sort), index)?, words))
        }
    }
}

/// Arguments in order, or an index, behind so many words: each waits for those behind it.
#[cycle(expressions)]
#[tactic(auto, using(crate::proofs::Walks::walks))]
fn arguments(
    names: &Names<'_>,
    formals: &[Formal],
    waiting: u64,
    args: &[Expr],
) -> Result<u64, AllocError>
    ensures { IfOk result (λ most. most ≡ pending.most_of (names_of names.now) (map formal_of formals.now) waiting (trees (map view.expression args.now))) }
{
    let mut formals = formals;
    let mut waiting = waiting;
    let mut most = 0;
    for e in args {
        most = larger(most, plus(waiting, measure(names, e)?.most)?);
        waiting = plus(waiting, argument_words(next_formal(formals)))?;
        formals = other_formals(formals);
    }
    Ok(most)
}

/// The first of some parameters.
pub fn next_formal(formals: &[Formal]) -> Option<&Formal>
    ensures { option_map (λ f. formal_of f.now) result ≡ pending.first_formal (map formal_of formals.now) }
{
    match formals {
        [formal, ..] => Some(formal),
        [] => None,
    }
}

/// The parameters behind the first.
pub fn other_formals(formals: &[Formal]) -> &[Formal]
    ensures { map formal_of result.now ≡ pending.other_formals (map formal_of formals.now) }
{
    match formals {
        [_, others @ ..] => others,
        [] => formals,
    }
}
