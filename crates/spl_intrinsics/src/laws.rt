//! The laws of this crate, as the contracts of functions that do nothing.
ghost use Rattle.spl_intrinsics.specs.Laws.{IntrinsicsAnswer};
ghost use Rattle.spl_intrinsics.specs.Calls.{CallsPerform, AnswersAssigned};

/// PRINT, READ, ASCII, DASCII, BINARY and DBINARY, behind the words of their parameters.
pub fn intrinsics_answer()
    ensures { IntrinsicsAnswer }
{}

/// Their calls as statements: by themselves, and where the answer is stored in a variable.
pub fn intrinsic_calls_perform()
    ensures calls { CallsPerform }
    ensures assigned { AnswersAssigned }
{}
