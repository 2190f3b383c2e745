//! The laws of this crate, as the contracts of functions that do nothing.
ghost use Rattle.spl_fits.specs.Fits.{ProgramsFit, LocalsFit};
ghost use Rattle.spl_fits.specs.OwnBehind.{UnitsStandInOrder, OwnItemsStandApart};

/// Where units pass no limit, the primary area has at most 256 words, and both areas at most 32,000; in each procedure
/// the local items have at most 127 words, with their arrays' data at most 32,000, and the result and parameters 59.
pub fn programs_fit()
    ensures { ProgramsFit }
{}

/// Then each local item that is not OWN ends at most 127 words above the base.
pub fn locals_fit()
    ensures { LocalsFit }
{}

/// Each unit's globals end before those of all units do, and its OWN items begin behind them.
pub fn units_stand_in_order()
    ensures { UnitsStandInOrder }
{}

/// So a global and an OWN item have no word in common.
pub fn own_items_stand_apart()
    ensures { OwnItemsStandApart }
{}
