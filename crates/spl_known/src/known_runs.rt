//! Runs of known programs, each set as the contract of a function that does nothing. The values are of other programs or worked by
//! hand.
ghost use Rattle.spl_known.specs.Programs.{AllRunSo, AllBegunSo};
ghost use Rattle.spl_known.specs.ArithmeticRuns.{arithmetic_runs};
ghost use Rattle.spl_known.specs.ReferenceRuns.{reference_runs};
ghost use Rattle.spl_known.specs.StatementRuns.{statement_runs};
ghost use Rattle.spl_known.specs.CallRuns.{call_runs};
ghost use Rattle.spl_known.specs.EffectRuns.{effect_runs};
ghost use Rattle.spl_known.specs.BegunRuns.{begun_runs};
ghost use Rattle.spl_known.specs.LostRuns.{AllLostSo, lost_runs};

/// Arithmetic, constants and tokens.
pub fn arithmetic_is_done()
    ensures { AllRunSo arithmetic_runs }
{}

/// Arrays, pointers, views, parameters by reference, and stray references.
pub fn references_are_made()
    ensures { AllRunSo reference_runs }
{}

/// Statements.
pub fn statements_are_run()
    ensures { AllRunSo statement_runs }
{}

/// Procedures, subroutines and split procedures.
pub fn calls_are_done()
    ensures { AllRunSo call_runs }
{}

/// Intrinsics, MOVE, SCAN and comparisons of bytes.
pub fn effects_are_done()
    ensures { AllRunSo effect_runs }
{}

/// The statements that a run begins, with its data there.
pub fn statements_are_begun()
    ensures { AllBegunSo begun_runs }
{}

/// What has no meaning, told from stray references.
pub fn losses_are_told()
    ensures { AllLostSo lost_runs }
{}
