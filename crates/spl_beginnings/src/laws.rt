//! The laws of this crate, as the contracts of functions that do nothing.
ghost use Rattle.spl_beginnings.specs.Laws.{ValuesMayOpen, FoundValuesOpen, TestsOpen, ReferencesMayOpen, StatementBeginsWell, StatementsBeginWell};

/// The code of a value begins with a word that is run, or is none; where the value is found, and in a test, it is never none.
pub fn values_open()
    ensures value { ValuesMayOpen }
    ensures reference { ReferencesMayOpen }
    ensures found { FoundValuesOpen }
    ensures test { TestsOpen }
{}

/// So statements whose names are found begin well.
pub fn statements_begin_well()
    ensures one { StatementBeginsWell }
    ensures list { StatementsBeginWell }
{}
