//! The procedures of the other units.
ghost use Rattle.std.specs.Prelude.{◌≡◌, map};
ghost use Rattle.spl_tree.specs.Views.{letters};
ghost use Rattle.spl_tree.specs.Spells.{heading_tree};
ghost use Rattle.spl_sound.specs.spl_meaning.Names as n;
ghost use Rattle.spl_sorts.specs.Profiles.{profile_of};
ghost use Rattle.spl_types.specs.HeadTables.{heads_of};
ghost use Rattle.spl_types.specs.OtherUnits.{all_agreed, agrees_of};

use crate::heads::Bodies;
use spl_sorts::Profile;
use spl_tree::{Heading, Name};

/// The procedures of the units before one and of those behind it.
#[derive(Clone, Copy, Debug)]
pub struct Others<'t> {
    pub before: &'t [Bodies],
    pub behind: &'t [Bodies],
}

/// Whether all procedures of a name, in some units, take and give the same as this.
#[tactic(auto, using(crate::proofs::OtherLaws::agreed_steps))]
fn all_agree(units: &[Bodies], name: &Name, profile: &Profile) -> bool
    ensures { result ≡ all_agreed (map heads_of units.now) (letters name.now) (profile_of profile.now) }
{
    for unit in units {
        if !unit.agree(name, profile) {
            return false;
        }
    }
    true
}

impl Others<'_> {
    /// Whether the procedures of an EXTERNAL heading's name take and give what that says.
    pub fn agree(&self, heading: &Heading, profile: &Profile) -> bool
        requires { profile_of profile.now ≡ n.profile_of (heading_tree heading.now) }
        ensures { result ≡ agrees_of self.now (heading_tree heading.now) }
    {
        all_agree(self.before, &heading.name, profile)
            && all_agree(self.behind, &heading.name, profile)
    }
}
