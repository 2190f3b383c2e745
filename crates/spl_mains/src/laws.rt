//! The laws of this crate, as the contracts of functions that do nothing.
ghost use Rattle.spl_mains.specs.Laws.{CoveredBodiesFollow, CoveredInnersFollow, CoveredMainBodiesFollow};

/// The statements of a body, where each is covered.
pub fn covered_bodies_follow()
    ensures { CoveredBodiesFollow }
{}

/// The statement of a subroutine.
pub fn covered_inners_follow()
    ensures { CoveredInnersFollow }
{}

/// Those of a main body.
pub fn covered_main_bodies_follow()
    ensures { CoveredMainBodiesFollow }
{}
