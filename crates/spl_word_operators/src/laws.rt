//! The laws of this crate, as the contracts of functions that do nothing.
ghost use Rattle.spl_word_operators.specs.Laws.{OperatorsAreWhole, OperatorsSimulate, SignsAreWhole, SignsSimulate};

/// Operators of two operands.
pub fn operators_simulate()
    ensures whole { OperatorsAreWhole }
    ensures simulates { OperatorsSimulate }
{}

/// NOT, + and - of one.
pub fn signs_simulate()
    ensures whole { SignsAreWhole }
    ensures simulates { SignsSimulate }
{}
