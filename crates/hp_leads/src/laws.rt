//! The laws of this crate, as the contracts of functions that do nothing.
ghost use Rattle.hp_leads.specs.Laws.{LeftOperationsLead, SingleOperationsLead, RightOperationsLead, WholeWordsLead, BranchesLead, FarJumpsLead, FarBranchesLead, ProcedureCallsLead, SubroutineCallsLead};

/// The left operation of a pair goes on in the right half, where an operation stands there.
pub fn left_operations_lead()
    ensures { LeftOperationsLead }
{}

/// With NOP on its right it goes on behind the word.
pub fn single_operations_lead()
    ensures { SingleOperationsLead }
{}

/// The right operation goes on behind the word.
pub fn right_operations_lead()
    ensures { RightOperationsLead }
{}

/// A word of one instruction goes on behind itself, or as its row says.
pub fn whole_words_lead()
    ensures { WholeWordsLead }
{}

/// A branch goes where it reaches, or on behind its word.
pub fn branches_lead()
    ensures { BranchesLead }
{}

/// A BR through the word behind it goes where that leads.
pub fn far_jumps_lead()
    ensures { FarJumpsLead }
{}

/// The long form of a branch does what the branch does.
pub fn far_branches_lead()
    ensures { FarBranchesLead }
{}

/// PCAL calls what its entry leads to.
pub fn procedure_calls_lead()
    ensures { ProcedureCallsLead }
{}

/// SCAL calls what its entry leads to within the segment.
pub fn subroutine_calls_lead()
    ensures { SubroutineCallsLead }
{}
