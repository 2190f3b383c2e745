//! Headings: their parameters, and the rules of their lists.
//!
//! A heading has lists of parameters, of those that VALUE names, and of kinds. They are held against each other through sets and
//! tables, so that the work grows as the lists do.
ghost use Rattle.std.specs.Prelude.{◌≡◌, OnOk, IfOk, map, []};
ghost use Rattle.spl_tree.specs.Views.{letters};
ghost use Rattle.spl_tree.specs.Spells.{placed, spec_tree, heading_tree};
ghost use Rattle.spl_sorts.specs.spl_meaning.Names as n;
ghost use Rattle.spl_sorts.specs.spl_meaning.Faults.{first_fault};
ghost use Rattle.spl_sorts.specs.spl_meaning.StatementRules.{repeated};
ghost use Rattle.spl_sorts.specs.spl_meaning.DeclarationRules as rules;
ghost use Rattle.spl_found.specs.FoundDeclarations.{found_heading};
ghost use Rattle.spl_sorts.specs.Profiles.{formal_of, profile_of};
ghost use Rattle.spl_sorts.specs.Tables.{table_of};
ghost use Rattle.spl_profiles.specs.NameSets.{has_of, and_names};
ghost use Rattle.spl_profiles.specs.Listings.{listed_of, said, and_listed, said_in};
ghost use Rattle.spl_profiles.specs.Headings as h;

use crate::listings::{Listed, Listings};
use crate::name_sets::NameSet;
use spl_sorts::{Formal, Profile, Report, Sort, Table};
use spl_tree::{At, Heading, Name, Spec};
use std::alloc::{AllocError, Global};

/// Names that stand again, also those of a set, which takes them in.
#[tactic(auto, using(crate::proofs::HeadingWalks::again_steps))]
fn again(
    rule: u8,
    seen: &mut NameSet,
    names: &[(Name, At)],
    report: &mut Report,
) -> Result<(), AllocError>
    ensures first { OnOk result (report.new ≡ h.found_again rule (has_of seen.old) (map placed names.now) report.old) }
    ensures seen { OnOk result (has_of seen.new ≡ and_names (has_of seen.old) (map placed names.now)) }
{
    for (name, at) in names {
        report.unless(!seen.has(name), rule, *at);
        seen.add(name)?;
    }
    Ok(())
}

/// The set of a list's names. 2: one of them stands again.
#[tactic(auto, using(crate::proofs::HeadingWalks::once))]
fn distinct(alloc: Global, names: &[(Name, At)], report: &mut Report) -> Result<NameSet, AllocError>
    ensures first { OnOk result (report.new ≡ first_fault report.old (repeated 2 [] (map placed names.now))) }
    ensures set { IfOk result (λ set. has_of set ≡ n.lists (map placed names.now)) }
{
    let mut set = NameSet::new(alloc);
    again(2, &mut set, names, report)?;
    Ok(set)
}

/// 18: a name stands again in lists of kinds.
#[tactic(auto, using(crate::proofs::HeadingWalks::again_specs))]
fn listed_once(alloc: Global, specs: &[Spec], report: &mut Report) -> Result<(), AllocError>
    ensures { OnOk result (report.new ≡ first_fault report.old (repeated 18 [] (rules.all_listed (map spec_tree specs.now)))) }
{
    let mut seen = NameSet::new(alloc);
    for spec in specs {
        again(18, &mut seen, &spec.names, report)?;
    }
    Ok(())
}

/// 18: a listed name is no parameter.
#[tactic(auto, using(crate::proofs::HeadingWalks::failing_steps))]
fn listed(parameters: &NameSet, names: &[(Name, At)], report: &mut Report)
    ensures { report.new ≡ h.found_failing (has_of parameters.now) (map placed names.now) report.old }
{
    for (name, at) in names {
        report.unless(parameters.has(name), 18, *at);
    }
}

/// The same of lists of kinds.
#[tactic(auto, using(crate::proofs::HeadingWalks::failing_specs))]
fn all_listed(parameters: &NameSet, specs: &[Spec], report: &mut Report)
    ensures { report.new ≡ h.found_failing (has_of parameters.now) (rules.all_listed (map spec_tree specs.now)) report.old }
{
    for spec in specs {
        listed(parameters, &spec.names, report);
    }
}

/// 18: VALUE names an array.
#[tactic(auto, using(crate::proofs::HeadingWalks::failing_steps))]
fn no_arrays(listings: &Listings, values: &[(Name, At)], report: &mut Report)
    ensures { report.new ≡ h.found_failing (h.no_array (n.find (listed_of listings.now))) (map placed values.now) report.old }
{
    for (name, at) in values {
        let array = match listings.find(name) {
            Some(listed) => listed.array,
            None => false,
        };
        report.unless(!array, 18, *at);
    }
}

/// 18: a parameter stands in no list of kinds.
#[tactic(auto, using(crate::proofs::HeadingWalks::failing_steps))]
fn with_kinds(listings: &Listings, names: &[(Name, At)], report: &mut Report)
    ensures { report.new ≡ h.found_failing (h.is_said (n.find (listed_of listings.now))) (map placed names.now) report.old }
{
    for (name, at) in names {
        report.unless(listings.find(name).is_some(), 18, *at);
    }
}

/// 27: a parameter by reference of a split procedure.
#[tactic(auto, using(crate::proofs::HeadingWalks::split_steps))]
fn split_parameters(split: bool, formals: &[Formal], report: &mut Report)
    ensures { report.new ≡ h.found_split split (map formal_of formals.now) report.old }
{
    for formal in formals {
        let fits = !split || formal.by_value() || formal.kind.is_none();
        report.unless(fits, 27, formal.at);
    }
}

/// Parameters with what lists say of them.
#[tactic(auto, using(crate::proofs::HeadingWalks::formal_steps))]
fn formals_by(
    alloc: Global,
    listings: &Listings,
    values: &NameSet,
    names: &[(Name, At)],
) -> Result<Vec<Formal>, AllocError>
    ensures { IfOk result (λ formals. map formal_of formals.items ≡ h.formals_by (n.find (listed_of listings.now)) (has_of values.now) (map placed names.now)) }
{
    let mut formals = Vec::new(alloc);
    for (name, at) in names {
        formals.push(formal_by(listings, values, name, *at))?;
    }
    Ok(formals)
}

/// A parameter with what lists say of it.
fn formal_by(listings: &Listings, values: &NameSet, name: &Name, at: At) -> Formal
    ensures { formal_of result ≡ h.formal_by (n.find (listed_of listings.now)) (has_of values.now) (letters name.now) at }
{
    let (kind, array) = match listings.find(name) {
        Some(listed) => (Some(listed.kind), listed.array),
        None => (None, false),
    };
    Formal {
        name: name.copy(),
        at,
        kind,
        array,
        value: values.has(name),
    }
}

/// The parameters of a heading, in order.
#[tactic(auto, using(crate::proofs::HeadingLaws::formals))]
pub fn formals(alloc: Global, heading: &Heading) -> Result<Vec<Formal>, AllocError>
    ensures { IfOk result (λ formals. map formal_of formals.items ≡ n.formals_of (heading_tree heading.now)) }
{
    let listings = Listings::of(alloc, &heading.specs)?;
    let values = NameSet::of(alloc, &heading.values)?;
    formals_by(alloc, &listings, &values, &heading.names)
}

/// What a heading takes and gives.
pub fn profile(alloc: Global, heading: &Heading) -> Result<Profile, AllocError>
    ensures { IfOk result (λ profile. profile_of profile ≡ n.profile_of (heading_tree heading.now)) }
{
    Ok(Profile {
        result: heading.result,
        formals: formals(alloc, heading)?,
        split: heading.split,
    })
}

/// A heading, of a procedure that is split or not; and its parameters.
///
/// 2: a parameter stands twice. 18: lists and parameters do not agree. 27: a parameter by reference of a split procedure.
pub fn heading(
    alloc: Global,
    split: bool,
    heading: &Heading,
    report: &mut Report,
) -> Result<Vec<Formal>, AllocError>
    ensures first { OnOk result (report.new ≡ found_heading split (heading_tree heading.now) report.old) }
    ensures formals { IfOk result (λ formals. map formal_of formals.items ≡ n.formals_of (heading_tree heading.now)) }
{
    let parameters = distinct(alloc, &heading.names, report)?;
    let listings = Listings::of(alloc, &heading.specs)?;
    let values = NameSet::of(alloc, &heading.values)?;
    listed(&parameters, &heading.values, report);
    all_listed(&parameters, &heading.specs, report);
    no_arrays(&listings, &heading.values, report);
    with_kinds(&listings, &heading.names, report);
    listed_once(alloc, &heading.specs, report)?;
    let formals = formals_by(alloc, &listings, &values, &heading.names)?;
    split_parameters(split, &formals, report);
    Ok(formals)
}
