//! The laws of this crate, as the contracts of functions that do nothing.
ghost use Rattle.spl_piece_kinds.specs.Laws.{CodeHasKinds, ReferenceHasKinds, StatementHasKinds, StatementsHaveKinds, BodyStatementsHaveKinds, ModuleHasKinds, CodesHaveKinds};

/// In the code of an expression, and of a reference's address, each piece has an instruction of its kind.
pub fn expressions_have_kinds()
    ensures value { CodeHasKinds }
    ensures reference { ReferenceHasKinds }
{}

/// So it is with the code of statements.
pub fn statements_have_kinds()
    ensures one { StatementHasKinds }
    ensures list { StatementsHaveKinds }
{}

/// And with that of the statements of a body.
pub fn bodies_have_kinds()
    ensures { BodyStatementsHaveKinds }
{}

/// So all pieces of the code of a unit in a segment have instructions of their kinds.
pub fn modules_have_kinds()
    ensures part { ModuleHasKinds }
    ensures code { CodesHaveKinds }
{}
