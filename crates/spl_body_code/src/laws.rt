//! What holds of the code of every body.
ghost use Rattle.spl_body_code.specs.Based.{CellsMoveWithTheBase};
ghost use Rattle.spl_body_code.specs.Joined.{ProceduresAreJoined, SubroutinesAreJoined, MainBodiesAreJoined};
ghost use Rattle.spl_body_code.specs.Zeros.{LocalWordsAreZero};
ghost use Rattle.spl_body_code.specs.FewWords.{ProcedureHasFewWords, SubroutineHasFewWords, MainBodyHasFewWords};

/// The cell of an array in a frame is that of its data's address, wherever the frame stands.
pub fn cells_move_with_the_base()
    ensures { CellsMoveWithTheBase }
{}

/// The local words of a procedure are pushed as zeros, each once.
pub fn local_words_are_zero()
    ensures { LocalWordsAreZero }
{}

/// The code of a procedure has at most as many words as it weighs without its subroutines, where its statements have at most as many as
/// they weigh and its local words are within their limits.
pub fn procedure_has_few_words()
    ensures { ProcedureHasFewWords }
{}

/// So has that of a subroutine.
pub fn subroutine_has_few_words()
    ensures { SubroutineHasFewWords }
{}

/// And that of a main body.
pub fn main_body_has_few_words()
    ensures { MainBodyHasFewWords }
{}

/// A body's code is that of its definition where its entry, its statements and its way out are appended one behind the other.
pub fn bodies_are_joined()
    ensures procedures { ProceduresAreJoined }
    ensures subroutines { SubroutinesAreJoined }
    ensures main_bodies { MainBodiesAreJoined }
{}
