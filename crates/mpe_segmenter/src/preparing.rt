//! Programs out of modules.
ghost use Rattle.std.specs.Prelude.{◌≡◌, ◌≤◌, ◌<◌, ◌^◌, true, None, length, option_map, IfOk, IfErr, OnOk};
ghost use Rattle.std.specs.List.{list_all};
ghost use Rattle.mpe_segmenter.specs.Entries.{either};
ghost use Rattle.mpe_segmenter.specs.Entered.{total};
ghost use Rattle.mpe_segmenter.specs.Counts.{is_well_formed};
ghost use Rattle.mpe_segmenter.specs.Faults.{mains, fault_of, main_faults, name_faults, first_fault, Faults};
ghost use Rattle.hp_program.specs.Programs.{segments_of};
ghost use Rattle.mpe_segmenter.specs.Names.{parts};
ghost use Rattle.mpe_segmenter.specs.Programs.{Makes};
ghost use Rattle.mpe_segmenter.specs.Sites.{Links};

use crate::counts::size_fault;
use crate::defined::{Collected, collect_names, first_unresolved};
use crate::entering::entered;
use crate::faults::{PrepFault, main_fault};
use crate::parts::parted;
use crate::program::make;
use hp_program::Program;
use spl_branch::Module;
use std::alloc::{AllocError, Global};

/// What is wrong first with the names of modules.
fn name_fault(alloc: Global, modules: &[Module]) -> Result<Option<PrepFault>, AllocError>
    ensures { IfOk result (λ o. option_map fault_of o ≡ option_map Some (name_faults modules.now)) }
{
    match collect_names(alloc, modules)? {
        Collected::Twice(name) => Ok(Some(PrepFault::Doubled(name))),
        Collected::Names(names) => match first_unresolved(&names, modules) {
            Some(name) => Ok(Some(PrepFault::Unresolved(name))),
            None => Ok(None),
        },
    }
}

/// What is wrong first with the main bodies and the names of modules.
fn early_fault(alloc: Global, modules: &[Module]) -> Result<Option<PrepFault>, AllocError>
    ensures { IfOk result (λ o. option_map fault_of o ≡ option_map Some (either (main_faults (mains modules.now)) (name_faults modules.now))) }
{
    match main_fault(modules) {
        Some(fault) => Ok(Some(fault)),
        None => name_fault(alloc, modules),
    }
}

/// The program that modules make, with these initial data words, or the first of their faults, in the order of `PrepFault`.
/// The modules are ready (`are_ready`), and there are at most 32,000 data words.
pub fn prepare(alloc: Global, modules: Vec<Module>, globals: Vec<u16>) -> Result<Program, PrepFault>
    requires formed { list_all is_well_formed modules.items ≡ true }
    requires few { total modules.items < 2 ^ 32 }
    requires globals { length globals.items ≤ 32000 }
    ensures ok { IfOk result (λ p. Makes modules.items globals.items p) }
    ensures links { IfOk result (λ p. Links (parts modules.items) (segments_of p)) }
    ensures sound { OnOk result (first_fault modules.items ≡ None) }
    ensures fault { IfErr result (λ f. Faults modules.items f) }
{
    if let Some(fault) = early_fault(alloc, modules.as_slice())? {
        return Err(fault);
    }
    let parts = parted(alloc, modules)?;
    if parts.len() > 62 {
        return Err(PrepFault::SegmentsFull {
            count: parts.len() as u32,
        });
    }
    let segments = entered(alloc, parts)?;
    if let Some(fault) = size_fault(segments.as_slice()) {
        return Err(fault);
    }
    Ok(make(alloc, segments, globals)?)
}
