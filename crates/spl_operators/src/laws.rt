//! The laws of this crate, as the contracts of functions that do nothing.
ghost use Rattle.spl_operators.specs.Laws.{ProductsSimulate, QuotientsSimulate, BitsSimulate, SignsSimulate, ShiftsSimulate, FieldsSimulate, TransfersSimulate};

/// Products of two single words.
pub fn products_simulate()
    ensures { ProductsSimulate }
{}

/// Quotients and remainders.
pub fn quotients_simulate()
    ensures { QuotientsSimulate }
{}

/// LOR, XOR and LAND.
pub fn bits_simulate()
    ensures { BitsSimulate }
{}

/// + and - before a single word.
pub fn signs_simulate()
    ensures { SignsSimulate }
{}

/// Shifts by a constant.
pub fn shifts_simulate()
    ensures { ShiftsSimulate }
{}

/// Fields of a single word.
pub fn fields_simulate()
    ensures { FieldsSimulate }
{}

/// A single word as one of another kind.
pub fn transfers_simulate()
    ensures { TransfersSimulate }
{}
