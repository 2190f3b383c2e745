//! The laws of this crate, as the contracts of functions that do nothing.
ghost use Rattle.spl_conditions.specs.Laws.{ClosedValuesSimulate, RelationsSimulate, ComplementsSimulate, ConnectivesSimulate};

/// A value that is wanted, or tested.
pub fn closed_values_simulate()
    ensures { ClosedValuesSimulate }
{}

/// A relation of two single words.
pub fn relations_simulate()
    ensures { RelationsSimulate }
{}

/// NOT of a single word.
pub fn complements_simulate()
    ensures { ComplementsSimulate }
{}

/// AND and OR.
pub fn connectives_simulate()
    ensures { ConnectivesSimulate }
{}
