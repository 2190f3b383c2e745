//! The laws of this crate, as the contracts of functions that do nothing.
ghost use Rattle.spl_top_stores.specs.Laws.{ElementsPut, DoubleCellsPut, DoubleElementsPut};

/// Values of one word are stored in elements.
pub fn words_are_put()
    ensures { ElementsPut }
{}

/// DOUBLEs are stored where words lead, and in elements.
pub fn doubles_are_put()
    ensures cells { DoubleCellsPut }
    ensures elements { DoubleElementsPut }
{}
