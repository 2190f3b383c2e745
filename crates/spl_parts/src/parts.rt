//! Parts of expressions that were read.
ghost use Rattle.std.specs.Prelude.{◌≡◌, ◌+◌, ◌==◌, IfOk, [], ◌∷◌, map};
ghost use Rattle.spl_tree.specs.Operators as operators;
ghost use Rattle.spl_tree.specs.Trees as tree;
ghost use Rattle.spl_tree.specs.Views.{constant, letters, expression};
ghost use Rattle.spl_reading.specs.ReadExpressions.{plain};
ghost use Rattle.spl_parts.specs.Parts.{form, tree_of, operand};

use crate::comparison::Comparison;
use spl_tree::{At, Chars, Const, Expr, Kind, Name, Ref, binary, unary};
use std::alloc::{AllocError, Global};

/// A part of an expression: a reference as it stands, two of them with a relation between, or anything else. A
/// comparison of bytes wants the second.
#[derive(Debug, Drop)]
pub enum Part {
    Reference(Ref),
    Comparison(Comparison),
    Other(Expr),
}

/// A part behind this many operators of its expression, its own among them.
#[derive(Debug, Drop)]
pub struct Found {
    pub count: u16,
    pub part: Part,
}

/// A name with this index, as an expression.
fn referenced(alloc: Global, reference: Ref) -> Result<Expr, AllocError>
    ensures { IfOk result (λ e. expression e ≡ tree_of (Part.Reference reference)) }
{
    let Ref { name, index, at } = reference;
    match index {
        None => Ok(Expr::Named {
            name,
            args: Vec::new(alloc),
            at,
        }),
        Some(index) => Ok(Expr::Named {
            name,
            args: vec![in alloc; Box::into_inner(index)]?,
            at,
        }),
    }
}

/// An operator between two operands, as an expression.
fn operation(alloc: Global, op: u8, left: Expr, right: Expr, at: At) -> Result<Expr, AllocError>
    ensures { IfOk result (λ e. expression e ≡ tree.Tree.binary op (expression left) (expression right) at) }
{
    Ok(Expr::Binary {
        op,
        left: Box::new(alloc, left)?,
        right: Box::new(alloc, right)?,
        at,
    })
}

/// A relation of two references, as an expression.
fn compared(alloc: Global, comparison: Comparison) -> Result<Expr, AllocError>
    ensures { IfOk result (λ e. expression e ≡ tree_of (Part.Comparison comparison)) }
{
    let Comparison {
        op,
        left,
        right,
        at,
    } = comparison;
    let op = binary::EQUAL + op;
    let left = referenced(alloc, left)?;
    operation(alloc, op, left, referenced(alloc, right)?, at)
}

impl Part {
    /// The part as an expression.
    pub fn into_expr(self, alloc: Global) -> Result<Expr, AllocError>
        ensures { IfOk result (λ e. expression e ≡ tree_of self) }
    {
        match self {
            Part::Reference(reference) => referenced(alloc, reference),
            Part::Comparison(comparison) => compared(alloc, comparison),
            Part::Other(e) => Ok(e),
        }
    }

    /// The part as an expression in a box.
    pub fn into_box(self, alloc: Global) -> Result<Box<Expr>, AllocError>
        ensures { IfOk result (λ e. expression e.value ≡ tree_of self) }
    {
        Ok(Box::new(alloc, self.into_expr(alloc)?)?)
    }
}

/// A number of one word.
#[tactic(auto, unfolding(crate::specs::Parts::operand))]
pub fn number(value: u16) -> Part
    ensures { operand result ≡ plain operators.other (tree.Tree.number value) }
{
    Part::Other(Expr::Number(value))
}

/// A number of two words.
#[tactic(auto, unfolding(crate::specs::Parts::operand))]
pub fn wide(value: u32) -> Part
    ensures { operand result ≡ plain operators.other (tree.Tree.wide value) }
{
    Part::Other(Expr::Wide(value))
}

/// A string.
#[tactic(auto, unfolding(crate::specs::Parts::operand))]
pub fn string(chars: Chars) -> Part
    ensures { operand result ≡ plain operators.other (tree.Tree.text chars.bytes.items) }
{
    Part::Other(Expr::Text(chars))
}

/// TRUE or FALSE.
#[tactic(auto, unfolding(crate::specs::Parts::operand))]
pub fn truth(value: bool) -> Part
    ensures { operand result ≡ plain operators.other (tree.Tree.truth value) }
{
    Part::Other(Expr::Truth(value))
}

/// What was read in parentheses.
#[tactic(auto, unfolding(crate::specs::Parts::operand))]
pub fn enclosing(of: Expr) -> Part
    ensures { operand result ≡ plain operators.other (expression of) }
{
    Part::Other(of)
}

/// A name alone.
#[tactic(auto, unfolding(crate::specs::Parts::operand))]
pub fn variable(name: Name, at: At) -> Part
    ensures { operand result ≡ plain operators.reference (tree.Tree.named (letters name) (tree.trees []) at) }
{
    Part::Reference(Ref {
        name,
        index: None,
        at,
    })
}

/// The address of a variable.
#[tactic(auto, using(crate::proofs::ViewLemmas::element_tree), unfolding(crate::specs::Parts::operand))]
pub fn address(name: Name, at: At) -> Part
    ensures { operand result ≡ plain operators.other (tree.Tree.address (letters name) (tree.trees []) at) }
{
    Part::Other(Expr::Address {
        name,
        index: None,
        at,
    })
}

/// The address of an element.
#[tactic(auto, unfolding(crate::specs::Parts::operand))]
pub fn element_address(alloc: Global, name: Name, index: Expr, at: At) -> Result<Part, AllocError>
    ensures { IfOk result (λ p. operand p ≡ plain operators.other (tree.Tree.address (letters name) (tree.trees (expression index ∷ [])) at)) }
{
    let index = Box::new(alloc, index)?;
    Ok(Part::Other(Expr::Address {
        name,
        index: Some(index),
        at,
    }))
}

/// A value taken as one of another kind.
#[tactic(auto, unfolding(crate::specs::Parts::operand))]
pub fn transferred(alloc: Global, to: Kind, of: Expr, at: At) -> Result<Part, AllocError>
    ensures { IfOk result (λ p. operand p ≡ plain operators.other (tree.Tree.transfer to (expression of) at)) }
{
    let of = Box::new(alloc, of)?;
    Ok(Part::Other(Expr::Transfer { to, of, at }))
}

/// A bit field, by its start and its length.
#[tactic(auto, unfolding(crate::specs::Parts::operand))]
pub fn field_of(alloc: Global, of: Part, extent: (Const, Const), at: At) -> Result<Part, AllocError>
    ensures { IfOk result (λ p. operand p ≡ plain operators.other (tree.Tree.field (operand of).tree (constant extent.0) (constant extent.1) at)) }
{
    let of = of.into_box(alloc)?;
    let (start, length) = extent;
    Ok(Part::Other(Expr::Field {
        of,
        start,
        length,
        at,
    }))
}

/// NOT before an operand.
#[tactic(auto, unfolding(crate::specs::Parts::operand))]
pub fn inverted(alloc: Global, of: Part, at: At) -> Result<Part, AllocError>
    ensures { IfOk result (λ p. operand p ≡ plain operators.other (tree.Tree.unary 2 (operand of).tree at)) }
{
    let of = of.into_box(alloc)?;
    Ok(Part::Other(Expr::Unary {
        op: unary::NOT,
        of,
        at,
    }))
}

/// A name with arguments: a reference, where it has one.
pub fn called(alloc: Global, name: Name, mut args: Vec<Expr>, at: At) -> Result<Part, AllocError>
    ensures shape { IfOk result (λ p. form p ≡ operators.form_of_call (map expression args.items)) }
    ensures tree { IfOk result (λ p. tree_of p ≡ tree.Tree.named (letters name) (tree.trees (map expression args.items)) at) }
{
    if args.len() == 1 {
        if let Some(only) = args.pop() {
            return Ok(Part::Reference(Ref {
                name,
                index: Some(Box::new(alloc, only)?),
                at,
            }));
        }
    }
    Ok(Part::Other(Expr::Named { name, args, at }))
}
