//! The laws of this crate, as the contracts of functions that do nothing.
ghost use Rattle.spl_safe_statements.specs.Laws.{StatementsAreSafe, ListsAreSafe, BodiesAreSafe};

/// A statement that breaks no rule, and whose parts are never lost, is not: it leaves by ways that are there, and a condition code is known behind it where a
/// test may follow. So it is with the statements of a list.
pub fn statements_are_safe()
    ensures statement { StatementsAreSafe }
    ensures list { ListsAreSafe }
{}

/// A body takes all its jumps.
pub fn bodies_are_safe()
    ensures { BodiesAreSafe }
{}
