//! The laws of this crate, as the contracts of functions that do nothing.
ghost use Rattle.spl_tops.specs.Laws.{OwnWordsPut, DoublesPut, CellsPut};

/// Values of one word and DOUBLEs are stored in variables, and words where their words lead.
pub fn places_seen_are_stored()
    ensures words { OwnWordsPut }
    ensures doubles { DoublesPut }
    ensures cells { CellsPut }
{}
