//! The first rule that units break.
ghost use Rattle.std.specs.Prelude.{◌≡◌, ◌+◌, ◌<◌, ◌≤◌, None, [], drop, length, map, take, option_map, OnOk, IfOk, IfErr};
ghost use Rattle.spl_sound.specs.spl_meaning.Sound.{first_broken};
ghost use Rattle.spl_sorts.specs.Reports.{fault_of};
ghost use Rattle.spl_sound.specs.Spelled.{AreSpelled, most_units, source_of};
ghost use Rattle.spl_uses.specs.spl_found.FoundUnits.{walked_units};
ghost use Rattle.spl_types.specs.HeadTables.{heads_of};
ghost use Rattle.spl_types.specs.Checking.{unit_heads, Refuses};

use crate::check_faults::CheckFault;
use crate::heads::{Bodies, bodies_among};
use crate::main_bodies::unit_rules;
use crate::others::Others;
use spl_sorts::{Fault, Report};
use spl_sound::Sound;
use spl_tree::SplUnit;
use std::alloc::{AllocError, Global};

/// The procedures of a unit that have bodies.
fn unit_bodies(alloc: Global, unit: &SplUnit) -> Result<Bodies, AllocError>
    ensures { IfOk result (λ b. heads_of b ≡ unit_heads (source_of unit.now)) }
{
    bodies_among(alloc, &unit.items)
}

/// The procedures of each unit.
#[tactic(auto, using(crate::proofs::CheckLaws::bodies_steps))]
fn all_bodies(alloc: Global, units: &[SplUnit]) -> Result<Vec<Bodies>, AllocError>
    ensures { IfOk result (λ all. map heads_of all.items ≡ map unit_heads (map source_of units.now)) }
{
    let mut all = Vec::new(alloc);
    for unit in units {
        let bodies = unit_bodies(alloc, unit)?;
        all.push(bodies)?;
    }
    Ok(all)
}

/// The procedures of all units but one.
fn others(all: &[Bodies], i: usize) -> Others<'_>
    requires { i < length all.now }
    ensures before { result.before.now ≡ take i all.now }
    ensures behind { result.behind.now ≡ drop (i + 1) all.now }
{
    Others {
        before: &all[..i],
        behind: &all[i + 1..],
    }
}

/// All units in order, of which these are the procedures.
#[tactic(auto, using(crate::proofs::CheckLaws::units_steps))]
fn all_rules(
    alloc: Global,
    all: &[Bodies],
    units: &[SplUnit],
    report: &mut Report,
) -> Result<(), AllocError>
    requires bodies { map heads_of all.now ≡ map unit_heads (map source_of units.now) }
    requires lengths { length all.now ≡ length units.now }
    ensures { OnOk result (report.new ≡ walked_units [] (map source_of units.now) report.old) }
{
    for i in 0..units.len() {
        let others = others(all, i);
        unit_rules(alloc, &others, &units[i], report)?;
    }
    Ok(())
}

/// The first rule that units break, where they break one.
#[tactic(auto, using(crate::proofs::CheckLaws::first_walk))]
fn first_rule(alloc: Global, units: &[SplUnit]) -> Result<Option<Fault>, AllocError>
    ensures { IfOk result (λ f. option_map fault_of f ≡ first_broken (map source_of units.now)) }
{
    let all = all_bodies(alloc, units)?;
    let mut report = Report::new();
    all_rules(alloc, &all, units, &mut report)?;
    Ok(report.first())
}

/// Units, at most 32 and numbered from 1 in their order, each spelled by tokens within its limits, that break no rule.
///
/// Err: the first rule that they break: of the earliest unit, line and column, there the lowest; `NoMemory`.
#[tactic(auto, using(crate::proofs::CheckLaws::sound_units))]
pub fn check(alloc: Global, units: Vec<SplUnit>) -> Result<Sound, CheckFault>
    requires few { length units.items ≤ most_units }
    requires spelled { AreSpelled (map source_of units.items) }
    ensures sound { IfOk result (λ s. s.units ≡ units) }
    ensures broken { IfErr result (λ f. Refuses (map source_of units.items) f) }
{
    match first_rule(alloc, &units)? {
        Some(fault) => Err(CheckFault::Rule {
            rule: fault.rule,
            at: fault.at,
        }),
        None => Ok(Sound::new(units)),
    }
}
