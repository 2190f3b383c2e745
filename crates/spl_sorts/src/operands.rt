//! What expressions are: kinds, and what operators make of them.
ghost use Rattle.std.specs.Prelude.{◌≡◌, option_map};
ghost use Rattle.spl_meaning.specs.Kinds as kinds;
ghost use Rattle.spl_meaning.specs.ExpressionRules as rules;
ghost use Rattle.spl_sorts.specs.Sorts.{sort_of, operand_of};

use crate::sorts::Sort;
use spl_tree::{Kind, binary, unary};

/// What an expression is: a value of a kind, a constant of one word, or nothing known, where a part of it is wrong.
#[derive(Clone, Copy, Debug, PartialEq, Eq)]
pub enum Operand {
    Of(Kind),
    Constant,
    Unknown,
}

/// What a call gives.
fn result_of(kind: Option<Kind>) -> Operand
    ensures { operand_of result ≡ kinds.result_of kind }
{
    match kind {
        Some(kind) => Operand::Of(kind),
        None => Operand::Unknown,
    }
}

impl Operand {
    /// What a name in an expression is.
    pub fn named(sort: Option<&Sort>) -> Operand
        ensures { operand_of result ≡ kinds.named_operand (option_map (λ s. sort_of s.now) sort.entry) }
    {
        match sort {
            Some(
                Sort::Simple(kind, _)
                | Sort::Array { kind, .. }
                | Sort::View(kind, _, _)
                | Sort::Pointer(kind, _)
                | Sort::Value(kind)
                | Sort::ByReference(kind)
                | Sort::ArrayParameter(kind),
            ) => Operand::Of(*kind),
            Some(Sort::Equate(_)) => Operand::Constant,
            Some(Sort::Intrinsic(gate)) => result_of(gate.profile.result),
            Some(Sort::Procedure(profile) | Sort::Subroutine(profile)) => result_of(profile.result),
            _ => Operand::Unknown,
        }
    }

    /// Whether it is DOUBLE.
    pub fn is_double(self) -> bool
        ensures { result ≡ kinds.is_double (operand_of self) }
    {
        matches!(self, Operand::Of(Kind::Double))
    }

    /// Whether its bits may be worked on: LOGICAL, BYTE, a constant, or nothing known.
    pub fn is_bits(self) -> bool
        ensures { result ≡ rules.is_bits (operand_of self) }
    {
        match self {
            Operand::Of(Kind::Logical | Kind::Byte) | Operand::Constant | Operand::Unknown => true,
            Operand::Of(Kind::Integer | Kind::Double) => false,
        }
    }

    /// The kind of an operation of this and another, which is nothing known where kinds are mixed.
    fn arithmetic(self, other: Operand) -> Operand
        ensures { operand_of result ≡ kinds.class_operand (kinds.class_of (operand_of self) (operand_of other)) }
    {
        use Operand::{Constant, Of, Unknown};
        match (self, other) {
            (Of(Kind::Integer) | Constant, Of(Kind::Integer) | Constant) => Of(Kind::Integer),
            (Of(Kind::Logical | Kind::Byte), Of(Kind::Logical | Kind::Byte) | Constant) => {
                Of(Kind::Logical)
            }
            (Constant, Of(Kind::Logical | Kind::Byte)) => Of(Kind::Logical),
            (Of(Kind::Double), Of(Kind::Double)) => Of(Kind::Double),
            _ => Unknown,
        }
    }

    /// What an operator makes of this and another.
    pub fn binary(self, op: u8, other: Operand) -> Operand
        ensures { operand_of result ≡ kinds.binary_operand op (operand_of self) (operand_of other) }
    {
        if op < binary::PLUS {
            Operand::Of(Kind::Logical)
        } else {
            self.arithmetic(other)
        }
    }

    /// Its negative: of a LOGICAL or a BYTE a LOGICAL, of a constant an INTEGER.
    fn negative(self) -> Operand
        ensures { operand_of result ≡ kinds.minus_operand (operand_of self) }
    {
        match self {
            Operand::Of(Kind::Integer) | Operand::Constant => Operand::Of(Kind::Integer),
            Operand::Of(Kind::Logical | Kind::Byte) => Operand::Of(Kind::Logical),
            Operand::Of(Kind::Double) => Operand::Of(Kind::Double),
            Operand::Unknown => Operand::Unknown,
        }
    }

    /// What a sign or NOT makes of it.
    pub fn unary(self, op: u8) -> Operand
        ensures { operand_of result ≡ kinds.unary_operand op (operand_of self) }
    {
        if op == unary::PLUS {
            self
        } else if op == unary::MINUS {
            self.negative()
        } else {
            Operand::Of(Kind::Logical)
        }
    }

    /// Whether this and another have an operation, or one of them is not known.
    pub fn mixes(self, other: Operand) -> bool
        ensures { result ≡ rules.mixes (operand_of self) (operand_of other) }
    {
        use Operand::{Constant, Of, Unknown};
        match (self, other) {
            (Unknown, _) | (_, Unknown) => true,
            (Of(Kind::Integer) | Constant, Of(Kind::Integer) | Constant) => true,
            (Of(Kind::Logical | Kind::Byte), Of(Kind::Logical | Kind::Byte) | Constant) => true,
            (Constant, Of(Kind::Logical | Kind::Byte)) => true,
            (Of(Kind::Double), Of(Kind::Double)) => true,
            _ => false,
        }
    }

    /// Whether the operator is one of these two: `* / MOD` are none of doubles.
    pub fn has(self, op: u8, other: Operand) -> bool
        ensures { result ≡ rules.is_operation op (operand_of self) (operand_of other) }
    {
        !(self.is_double() && other.is_double() && binary::TIMES <= op)
    }
}
