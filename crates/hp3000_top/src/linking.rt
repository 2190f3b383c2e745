//! Programs of units, built and linked.
ghost use Rattle.std.specs.Prelude.{◌≡◌, None, map, IfOk, IfErr};
ghost use Rattle.spl_linkable.specs.spl_built.Built.{IsBuilt};
ghost use Rattle.spl_program.specs.spl_meaning.Limits.{first_full};
ghost use Rattle.spl_program.specs.spl_sound.Spelled.{source_of};
ghost use Rattle.hp3000_top.specs.Programs.{told_of, link_line};
ghost use Rattle.hp3000_top.specs.Steps.{UnlinkedBy};

use crate::unmade::Unmade;
use hp_program::Program;
use job_report::{ModulesRefusal, Refusal, refusal_line};
use spl_build::{BuildFault, PrepFault, build};
use spl_program::Sound;
use spl_tree::Name;
use std::alloc::{AllocError, Global};

/// What is told of a fault of modules; of want of memory nothing.
fn told_of(fault: PrepFault) -> Option<ModulesRefusal>
    ensures { result ≡ told_of fault }
{
    match fault {
        PrepFault::NoMain => Some(ModulesRefusal::NoMain),
        PrepFault::TwoMains => Some(ModulesRefusal::TwoMains),
        PrepFault::Doubled(name) => Some(ModulesRefusal::Doubled(name)),
        PrepFault::Unresolved(name) => Some(ModulesRefusal::Unresolved(name)),
        PrepFault::SegmentsFull { count: _count } => Some(ModulesRefusal::SegmentsFull),
        PrepFault::EntriesFull {
            segment,
            count: _count,
        } => Some(ModulesRefusal::EntriesFull(segment)),
        PrepFault::SegmentFull {
            segment,
            words: _words,
        } => Some(ModulesRefusal::SegmentFull(segment)),
        PrepFault::NoMemory => None,
    }
}

/// The line for a program whose modules have a fault.
fn link_line(alloc: Global, name: &Name, fault: PrepFault) -> Result<Vec<u8>, AllocError>
    ensures { IfOk result (λ line. line.items ≡ link_line name.now.text.items fault) }
{
    match told_of(fault) {
        None => Err(AllocError),
        Some(refusal) => {
            let program = Name::new(&name.text);
            refusal_line(
                alloc,
                &Refusal::Modules {
                    program,
                    fault: refusal,
                },
            )
        }
    }
}

/// The program that is built of units that pass no limit, or why none is.
pub fn linked_program(alloc: Global, name: &Name, sound: &Sound) -> Result<Program, Unmade>
    requires { first_full (map source_of sound.now.units.items) ≡ None }
    ensures built { IfOk result (λ p. IsBuilt (map source_of sound.now.units.items) p) }
    ensures refused { IfErr result (λ e. UnlinkedBy name.now.text.items (map source_of sound.now.units.items) e) }
{
    match build(alloc, sound) {
        Ok(program) => Ok(program),
        Err(BuildFault::Modules(fault)) => {
            let line = link_line(alloc, name, fault)?;
            Err(Unmade::Refused { line })
        }
        // No limit is passed, so this answer never comes.
        Err(BuildFault::Limit { .. }) => Err(Unmade::NoMemory),
        Err(BuildFault::NoMemory) => Err(Unmade::NoMemory),
    }
}
