//! Parts with an operator.
//!
//! At a fault a part that was read is dropped by a call of `drop`. A `?` writes out the drop of all that it lets go, which
//! of an expression is long, and each rule is proved with it.
ghost use Rattle.std.specs.Prelude.{◌≡◌, ◌==◌, if◌then◌else◌, suc, IfOk, IsTrue};
ghost use Rattle.spl_tree.specs.Operators as operators;
ghost use Rattle.spl_tree.specs.Trees as tree;
ghost use Rattle.spl_tree.specs.Views as view;
ghost use Rattle.spl_parts.specs.Parts.{form, tree_of};

use crate::comparison::Comparison;
use crate::parts::Part;
use spl_tree::{At, Const, Expr, binary};
use std::alloc::{AllocError, Global};

/// A sign before a term.
pub fn signed(alloc: Global, op: u8, of: Part, at: At) -> Result<Part, AllocError>
    requires { IsTrue (operators.is_sign op) }
    ensures shape { IfOk result (λ p. form p ≡ operators.other) }
    ensures tree { IfOk result (λ p. tree_of p ≡ tree.Tree.unary (operators.sign_number op) (tree_of of) at) }
{
    let of = of.into_box(alloc)?;
    Ok(Part::Other(Expr::Unary {
        op: op - binary::PLUS,
        of,
        at,
    }))
}

/// An operator between two operands.
fn joined(alloc: Global, op: u8, left: Part, right: Part, at: At) -> Result<Part, AllocError>
    ensures shape { IfOk result (λ p. form p ≡ operators.other) }
    ensures tree { IfOk result (λ p. tree_of p ≡ tree.Tree.binary op (tree_of left) (tree_of right) at) }
{
    match left.into_box(alloc) {
        Ok(left) => {
            let right = right.into_box(alloc)?;
            Ok(Part::Other(Expr::Binary {
                op,
                left,
                right,
                at,
            }))
        }
        Err(error) => {
            drop(right);
            Err(error)
        }
    }
}

/// A shift, by its number and how far it goes.
pub fn shifted_by(alloc: Global, of: Part, amount: (u8, Const), at: At) -> Result<Part, AllocError>
    ensures shape { IfOk result (λ p. form p ≡ operators.other) }
    ensures tree { IfOk result (λ p. tree_of p ≡ tree.Tree.shift amount.0 (tree_of of) (view.constant amount.1) at) }
{
    let of = of.into_box(alloc)?;
    let (kind, by) = amount;
    Ok(Part::Other(Expr::Shift { kind, of, by, at }))
}

/// A comparison of so many bytes.
pub fn measured(alloc: Global, of: Comparison, bytes: Expr) -> Result<Part, AllocError>
    ensures shape { IfOk result (λ p. form p ≡ operators.other) }
    ensures tree { IfOk result (λ p. tree_of p ≡ operators.bytes_of (tree_of (Part.Comparison of)) (view.expression bytes)) }
{
    let count = Box::new(alloc, bytes)?;
    let Comparison {
        op,
        left,
        right,
        at,
    } = of;
    Ok(Part::Other(Expr::Bytes {
        op,
        left,
        right,
        count,
        at,
    }))
}

#[tactic(auto, unfolding(spl_tree::specs::Operators::binds))]
/// A relation between two operands.
fn related(alloc: Global, op: u8, left: Part, right: Part, at: At) -> Result<Part, AllocError>
    requires { operators.binds op ≡ 4 }
    ensures shape { IfOk result (λ p. form p ≡ operators.compared (form left) (form right)) }
    ensures tree { IfOk result (λ p. tree_of p ≡ tree.Tree.binary op (tree_of left) (tree_of right) at) }
{
    match (left, right) {
        (Part::Reference(left), Part::Reference(right)) => Ok(Part::Comparison(Comparison {
            op: op - binary::EQUAL,
            left,
            right,
            at,
        })),
        (left, right) => joined(alloc, op, left, right, at),
    }
}

/// An operator between two operands; a relation, at its height.
pub fn combined(
    alloc: Global,
    height: u8,
    op: u8,
    left: Part,
    right: Part,
    at: At,
) -> Result<Part, AllocError>
    requires { operators.binds op ≡ suc height }
    ensures shape { IfOk result (λ p. form p ≡ (if suc height == 4 then operators.compared (form left) (form right) else operators.other)) }
    ensures tree { IfOk result (λ p. tree_of p ≡ tree.Tree.binary op (tree_of left) (tree_of right) at) }
{
    if height == 3 {
        related(alloc, op, left, right, at)
    } else {
        joined(alloc, op, left, right, at)
    }
}
