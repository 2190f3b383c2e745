//! Which kinds and values fit which.
ghost use Rattle.std.specs.Prelude.{◌≡◌};
ghost use Rattle.spl_meaning.specs.ExpressionRules as rules;
ghost use Rattle.spl_sorts.specs.Sorts.{operand_of};

use crate::operands::Operand;
use spl_tree::Kind;

/// Whether a value fits a variable, a parameter or a result: a DOUBLE fits a DOUBLE alone.
pub fn fits(kind: Kind, value: Operand) -> bool
    ensures { result ≡ rules.fits kind (operand_of value) }
{
    match kind {
        Kind::Double => value.is_double() || matches!(value, Operand::Unknown),
        Kind::Integer | Kind::Logical | Kind::Byte => !value.is_double(),
    }
}

/// Whether a reference fits a parameter by reference: BYTE with BYTE, DOUBLE with DOUBLE, INTEGER and LOGICAL with each other.
pub fn same_sort(parameter: Kind, given: Kind) -> bool
    ensures { result ≡ rules.same_sort parameter given }
{
    match (parameter, given) {
        (Kind::Byte, Kind::Byte) | (Kind::Double, Kind::Double) => true,
        (Kind::Integer | Kind::Logical, Kind::Integer | Kind::Logical) => true,
        _ => false,
    }
}
