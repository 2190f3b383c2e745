//! The laws of this crate, as the contracts of functions that do nothing.
ghost use Rattle.spl_names.specs.Laws.{NamesAreWhole, NamesSimulate, AddressesSimulate, WideNamesSimulate, WideLedNamesSimulate};

/// Names of one word, and addresses.
pub fn names_simulate()
    ensures whole { NamesAreWhole }
    ensures simulates { NamesSimulate }
    ensures addresses { AddressesSimulate }
{}

/// Names of DOUBLEs.
pub fn wide_names_simulate()
    ensures own { WideNamesSimulate }
    ensures led { WideLedNamesSimulate }
{}
