//! The procedures of a unit that have bodies.
ghost use Rattle.std.specs.Prelude.{◌≡◌, if◌then◌else◌, map, option_map, OnOk, IfOk};
ghost use Rattle.spl_tree.specs.DeclarationTrees.{declarations};
ghost use Rattle.spl_tree.specs.Spells.{declaration, heading_tree};
ghost use Rattle.spl_tree.specs.Views.{letters};
ghost use Rattle.spl_sound.specs.spl_meaning.Names as n;
ghost use Rattle.spl_sound.specs.spl_meaning.Names.{find, label};
ghost use Rattle.spl_sorts.specs.Profiles.{profile_of};
ghost use Rattle.spl_sorts.specs.Sorts.{sort_of};
ghost use Rattle.spl_sorts.specs.Tables.{table_of};
ghost use Rattle.spl_uses.specs.spl_found.OwnNames.{with_name};
ghost use Rattle.spl_types.specs.HeadTables.{heads_of, heads_with, heads_behind, heads_list, no_heads, agreed, differs};

use crate::alike::same_profile;
use spl_lists::{declare, profile};
use spl_sorts::{Profile, Sort, Table};
use spl_tree::{Decl, Heading, Name};
use std::alloc::{AllocError, Global};

/// The procedures of a unit that have bodies: the first of each name, and the names of which another differs from it.
#[derive(Debug, Drop)]
pub struct Bodies {
    pub firsts: Table,
    pub unlike: Table,
}

impl Bodies {
    /// No procedure.
    pub fn new(alloc: Global) -> Bodies
        ensures { heads_of result ≡ no_heads }
    {
        Bodies {
            firsts: Table::new(alloc),
            unlike: Table::new(alloc),
        }
    }

    /// A procedure more.
    pub fn add(&mut self, name: &Name, profile: Profile) -> Result<(), AllocError>
        ensures { OnOk result (heads_of self.new ≡ heads_with (heads_of self.old) (letters name.now) (profile_of profile)) }
    {
        let other = differs(self.firsts.find(name), &profile);
        note_where(&mut self.unlike, other, name)?;
        declare(&mut self.firsts, name, Sort::Procedure(profile))?;
        Ok(())
    }

    /// Whether all procedures of this name take and give the same as this.
    pub fn agree(&self, name: &Name, profile: &Profile) -> bool
        ensures { result ≡ agreed (heads_of self.now) (letters name.now) (profile_of profile.now) }
    {
        if self.unlike.has(name) {
            return false;
        }
        match self.firsts.find(name) {
            Some(Sort::Procedure(first)) => same_profile(profile, first),
            _ => true,
        }
    }
}

/// Whether a procedure differs from the first of its name.
fn differs(first: Option<&Sort>, profile: &Profile) -> bool
    ensures { result ≡ differs (option_map (λ s. sort_of s.now) first.entry) (profile_of profile.now) }
{
    match first {
        Some(Sort::Procedure(first)) => !same_profile(first, profile),
        _ => false,
    }
}

/// Notes a name where this holds.
fn note_where(table: &mut Table, holds: bool, name: &Name) -> Result<(), AllocError>
    ensures { OnOk result (find (table_of table.new) ≡ (if holds then with_name (find (table_of table.old)) (letters name.now) label else find (table_of table.old))) }
{
    if holds {
        declare(table, name, Sort::Label)?;
    }
    Ok(())
}

/// A procedure more, by its heading.
fn add_heading(alloc: Global, bodies: &mut Bodies, heading: &Heading) -> Result<(), AllocError>
    ensures { OnOk result (heads_of bodies.new ≡ heads_with (heads_of bodies.old) (letters heading.now.name) (n.profile_of (heading_tree heading.now))) }
{
    let profile = profile(alloc, heading)?;
    bodies.add(&heading.name, profile)?;
    Ok(())
}

/// A declaration more.
fn take_in(alloc: Global, bodies: &mut Bodies, item: &Decl) -> Result<(), AllocError>
    ensures { OnOk result (heads_of bodies.new ≡ heads_behind (heads_of bodies.old) (declaration item.now)) }
{
    match item {
        Decl::Procedure(heading, _) => {
            add_heading(alloc, bodies, heading)?;
        }
        Decl::Data { .. }
        | Decl::Equate(_)
        | Decl::Intrinsic(_)
        | Decl::Label(_)
        | Decl::Forward(_)
        | Decl::External(_)
        | Decl::Subroutine(..) => {}
    }
    Ok(())
}

/// The procedures of a unit that have bodies.
#[tactic(auto, using(crate::proofs::HeadWalks::head_steps))]
pub fn bodies_among(alloc: Global, items: &[Decl]) -> Result<Bodies, AllocError>
    ensures { IfOk result (λ b. heads_of b ≡ heads_list no_heads (declarations (map declaration items.now))) }
{
    let mut bodies = Bodies::new(alloc);
    for item in items {
        take_in(alloc, &mut bodies, item)?;
    }
    Ok(bodies)
}
