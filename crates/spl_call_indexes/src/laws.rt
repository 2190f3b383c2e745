//! The laws of this crate, as the contracts of functions that do nothing.
ghost use Rattle.spl_call_indexes.specs.Laws.{CodeIsIndexed, ReferenceIsIndexed, StatementIsIndexed, StatementsAreIndexed, BodyStatementsAreIndexed, ModuleIsIndexed, CodesHaveIndexes};

/// In the code of an expression, and of a reference's address, each call has its index.
pub fn expressions_are_indexed()
    ensures value { CodeIsIndexed }
    ensures reference { ReferenceIsIndexed }
{}

/// So it is with the code of statements.
pub fn statements_are_indexed()
    ensures one { StatementIsIndexed }
    ensures list { StatementsAreIndexed }
{}

/// The statements of a body call entries of its module alone.
pub fn bodies_are_indexed()
    ensures { BodyStatementsAreIndexed }
{}

/// So does all code of a unit in a segment; and where code is that, each call has its want or its entry.
pub fn modules_are_indexed()
    ensures part { ModuleIsIndexed }
    ensures code { CodesHaveIndexes }
{}
