//! The laws of this crate, as the contracts of functions that do nothing.
ghost use Rattle.spl_ways.specs.Laws.{DefineEntriesLead, CallsLead, GatesLead, MainEntriesStart};

/// The entry of a module's define leads to its first word, for PCAL and for SCAL.
pub fn define_entries_lead()
    ensures { DefineEntriesLead }
{}

/// The calls of a module lead where its ways say.
pub fn module_calls_lead()
    ensures { CallsLead }
{}

/// The calls of intrinsics lead to the gate.
pub fn gate_calls_lead()
    ensures { GatesLead }
{}

/// The entry of a main body has the offset at which it starts.
pub fn main_entries_start()
    ensures { MainEntriesStart }
{}
