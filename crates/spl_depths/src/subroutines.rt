//! The limits of headings and of subroutines.
ghost use Rattle.std.specs.Prelude.{◌≡◌, OnOk, option_map};
ghost use Rattle.spl_tree.specs.Views as view;
ghost use Rattle.spl_tree.specs.Spells.{heading_tree};
ghost use Rattle.spl_sorts.specs.spl_meaning.Names as n;
ghost use Rattle.spl_sorts.specs.spl_meaning.Limits as limits;
ghost use Rattle.spl_sorts.specs.spl_meaning.Pending as pending;
ghost use Rattle.spl_sorts.specs.Profiles.{profile_of};
ghost use Rattle.spl_sorts.specs.Tables.{names_of};
ghost use Rattle.spl_spots.specs.Fulls.{full_of, listed};
ghost use Rattle.spl_depths.specs.ReachLaws.{body_limits};

use crate::flow::statement;
use crate::reach::Reach;
use crate::uses::Inside;
use crate::words::{formal_words, result_words};
use spl_sorts::{Names, Profile};
use spl_spots::{FirstFull, Full};
use spl_tree::{Heading, Stmt};
use std::alloc::{AllocError, Global};

/// The most words of a result and parameters.
const MOST_PARAMETERS: u64 = 59;

/// The number of the limit on them.
const PARAMETERS_FULL: u8 = 3;

/// The parameter with which the words of a result and parameters first pass 59.
#[tactic(auto, using(crate::proofs::PassingWalks::passings))]
fn passing_parameter(profile: &Profile) -> Option<Full>
    ensures { listed (option_map full_of result) ≡ limits.passing 3 limits.most_parameters (pending.result_words (profile_of profile.now)) (limits.parameter_sizes (profile_of profile.now).formals) }
{
    let mut count = result_words(profile);
    for formal in &profile.formals {
        count += formal_words(formal);
        if MOST_PARAMETERS < count {
            return Some(Full {
                limit: PARAMETERS_FULL,
                at: formal.at,
                count,
            });
        }
    }
    None
}

/// 3: a result and parameters have more than 59 words. `profile` is what the heading takes and gives.
pub fn heading_limits(heading: &Heading, profile: &Profile, first: &mut FirstFull)
    requires { profile_of profile.now ≡ n.profile_of (heading_tree heading.now) }
    ensures { first.new ≡ limits.first_among first.old (limits.heading_limits (heading_tree heading.now)) }
{
    if let Some(full) = passing_parameter(profile) {
        first.note(full);
    }
}

/// The limits of a subroutine, with the names in its statement; `profile` is what its heading takes and gives.
///
/// 3: its result and parameters have more than 59 words. 5: one of them is used more than 63 words beneath the top. Want of memory alone is an error.
pub fn subroutine_limits(
    alloc: Global,
    names: &Names<'_>,
    heading: &Heading,
    profile: &Profile,
    body: &Stmt,
    first: &mut FirstFull,
) -> Result<(), AllocError>
    requires { profile_of profile.now ≡ n.profile_of (heading_tree heading.now) }
    ensures { OnOk result (first.new ≡ limits.first_among first.old (body_limits (heading_tree heading.now) (names_of names.now) (view.statement body.now))) }
{
    heading_limits(heading, profile, first);
    let reach = Reach::new(alloc, &heading.name, profile)?;
    let inside = Inside {
        names: *names,
        reach: &reach,
    };
    statement(&inside, body, 0, first)
}
