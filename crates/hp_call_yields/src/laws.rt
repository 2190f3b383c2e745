//! The laws of this crate, as the contracts of functions that do nothing.
ghost use Rattle.hp_call_yields.specs.Laws.{WordMoves, ByteMoves, ClassMoves, Scans, ByteComparisons, Calls, ControlRows, Intrinsics, Branches, SubroutineCalls, Loops};

/// A step of MOVE moves a word, ends, or traps.
pub fn word_moves_yield()
    ensures { WordMoves }
{}

/// A step of MVB moves a byte, ends, or traps.
pub fn byte_moves_yield()
    ensures { ByteMoves }
{}

/// A step of MVBW moves a byte of its class, ends, or traps.
pub fn class_moves_yield()
    ensures { ClassMoves }
{}

/// A step of a scan passes a byte, ends, or traps.
pub fn scans_yield()
    ensures { Scans }
{}

/// A step of CMPB goes on at equal bytes, ends, or traps.
pub fn byte_comparisons_yield()
    ensures { ByteComparisons }
{}

/// A call pushes its marker, where there is room, and a return goes on where the marker says.
pub fn calls_yield()
    ensures { Calls }
{}

/// The rows of returns and of steps of moves are those of their codes.
pub fn control_rows_are()
    ensures { ControlRows }
{}

/// An intrinsic is done within bounds and where there is room, and else traps.
pub fn intrinsics_yield()
    ensures { Intrinsics }
{}

/// Branches go on by what they test.
pub fn branches_yield()
    ensures { Branches }
{}

/// SCAL pushes the offset behind it, where there is room.
pub fn subroutine_calls_yield()
    ensures { SubroutineCalls }
{}

/// TBA and MTBA go on by the variable at the address in C, or delete the three words.
pub fn loops_yield()
    ensures { Loops }
{}
