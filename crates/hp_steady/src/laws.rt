//! The laws of this crate, as the contracts of functions that do nothing.
ghost use Rattle.hp_steady.specs.Laws.{OperationsStay, ShiftsStay, ImmediatesStay, CountsStay, MemoryRowsStay, CodeLoadsStay, MovesStayOrPass, IntrinsicsStay, StepsAddPrints, WordsAreNear};

use hp_flat::hp_program::Program;

/// Operations on the top words leave the session where it stands.
pub fn operations_stay()
    ensures { OperationsStay }
{}

/// So do shifts.
pub fn shifts_stay()
    ensures { ShiftsStay }
{}

/// Immediate numbers, fields, and the change of mode.
pub fn immediates_stay()
    ensures { ImmediatesStay }
{}

/// The rows that count.
pub fn counts_stay()
    ensures { CountsStay }
{}

/// Loads, stores and sums with an operand in memory.
pub fn memory_rows_stay()
    ensures { MemoryRowsStay }
{}

/// Loads from the code.
pub fn code_loads_stay()
    ensures { CodeLoadsStay }
{}

/// A step of a move stays at its word, or passes it.
pub fn moves_stay_or_pass()
    ensures { MovesStayOrPass }
{}

/// An intrinsic leaves the session at its call, which is passed then.
pub fn intrinsics_stay()
    ensures { IntrinsicsStay }
{}

/// A step of a program only adds to what is printed.
pub fn steps_add_prints(program: &Program)
    ensures { StepsAddPrints program.now }
{}

/// The words of a program have offsets below 16,383 and segments below 62.
pub fn words_are_near(program: &Program)
    ensures { WordsAreNear program.now }
{}
