//! The places of parameters.
ghost use Rattle.std.specs.Prelude.{◌≡◌, ◌++◌, OnOk, map};
ghost use Rattle.spl_tree.specs.Spells.{heading_tree};
ghost use Rattle.spl_sorts.specs.spl_meaning.Names.{formals_of};
ghost use Rattle.spl_sorts.specs.Profiles.{formal_of};
ghost use Rattle.spl_entries.specs.Entries as entries;

use crate::place_type::Place;
use spl_formals::spl_lists::formals;
use spl_formals::spl_spots::plus;
use spl_formals::{below, formal_words, formals_words};
use spl_sorts::Formal;
use spl_tree::Heading;
use std::alloc::{AllocError, Global};

/// The place of a parameter, the first word of which is so many words below a base.
fn parameter_place(formal: &Formal, words: u64) -> Place
    ensures { result ≡ entries.parameter_entry (formal_of formal.now).at words }
{
    Place {
        at: formal.at,
        word: below(words),
        array: None,
    }
}

/// The places of parameters below a base, which is `gap` words above the last of them.
#[tactic(auto, using(crate::proofs::EntryWalks::parameter_steps))]
fn places_of(gap: u64, formals: &[Formal], all: &mut Vec<Place>) -> Result<(), AllocError>
    ensures { OnOk result (all.new.items ≡ all.old.items ++ entries.parameter_entries gap (map formal_of formals.now)) }
{
    let mut left = formals_words(formals)?;
    for formal in formals {
        let words = formal_words(formal);
        left -= words;
        let from_gap = plus(gap, words)?;
        all.push(parameter_place(formal, plus(from_gap, left)?))?;
    }
    Ok(())
}

/// The places of a heading's parameters.
pub fn parameter_places(
    alloc: Global,
    gap: u64,
    heading: &Heading,
    all: &mut Vec<Place>,
) -> Result<(), AllocError>
    ensures { OnOk result (all.new.items ≡ all.old.items ++ entries.parameter_entries gap (formals_of (heading_tree heading.now))) }
{
    let formals = formals(alloc, heading)?;
    places_of(gap, &formals, all)
}
