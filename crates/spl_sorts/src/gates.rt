//! Intrinsics as names stand for them.
ghost use Rattle.std.specs.Prelude.{◌≡◌};
ghost use Rattle.spl_meaning.specs.Names.{intrinsic_profile};
ghost use Rattle.spl_sorts.specs.Profiles.{profile_of};

use crate::profiles::Profile;
use hp_word::Intrinsic;

/// An intrinsic, with what it takes and gives.
#[derive(Debug, Drop)]
pub struct Gate {
    pub intrinsic: Intrinsic,
    pub profile: Profile,
    ghost known: { profile_of profile ≡ intrinsic_profile intrinsic },
}
