//! The law of this crate, as the contract of a function that does nothing.
ghost use Rattle.spl_answers.specs.Laws.{AnswersSimulate};

/// A call of an intrinsic as a value.
pub fn answers_simulate()
    ensures { AnswersSimulate }
{}
