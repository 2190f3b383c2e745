//! The programs of a job, made of their texts.
ghost use Rattle.std.specs.Prelude.{◌≡◌, map, IfOk, IfErr};
ghost use Rattle.job_report.specs.Refusals.{unit_refused};
ghost use Rattle.job_gen.specs.job_text.Fits.{Each, ProgramFits};
ghost use Rattle.job_gen.specs.job_text.Views.{text_value};
ghost use Rattle.hp3000_top.specs.Programs.{fault_line, IsMade, AreMade};
ghost use Rattle.hp3000_top.specs.Steps.{IsTold, RefusedBy, RefusedAmong};

use crate::filing::through_file;
use crate::linking::linked_program;
use crate::unmade::Unmade;
use hp_program::Program;
use job_gen::Text;
use job_report::{Refusal, UnitRefusal, refusal_line};
use spl_program::{ProgramFault, read_program};
use spl_tree::{At, Name};
use std::alloc::{AllocError, Global};

/// The line for something wrong at a place of a program's units.
fn unit_line(alloc: Global, name: &Name, at: At, fault: UnitRefusal) -> Result<Vec<u8>, AllocError>
    ensures { IfOk result (λ line. line.items ≡ unit_refused name.now.text.items at fault) }
{
    let program = Name::new(&name.text);
    refusal_line(alloc, &Refusal::Unit { program, at, fault })
}

/// The line for a program whose texts have a fault.
fn fault_line(alloc: Global, name: &Name, fault: ProgramFault) -> Result<Vec<u8>, AllocError>
    ensures line { IfOk result (λ line. line.items ≡ fault_line name.now.text.items fault) }
    ensures told { IfOk result (λ line. IsTold fault) }
{
    match fault {
        ProgramFault::Text { kind, at } => unit_line(alloc, name, at, UnitRefusal::Text(kind)),
        ProgramFault::Rule { rule, at } => unit_line(alloc, name, at, UnitRefusal::Rule(rule)),
        ProgramFault::Limit { limit, at } => unit_line(alloc, name, at, UnitRefusal::Limit(limit)),
        ProgramFault::NoMemory => Err(AllocError),
    }
}

/// The program that is made of a program's texts.
fn made_program(alloc: Global, text: &Text) -> Result<Program, Unmade>
    requires { ProgramFits 1048576 (text_value text.now) }
    ensures made { IfOk result (λ p. IsMade (text_value text.now).units p) }
    ensures refused { IfErr result (λ e. RefusedBy (text_value text.now) e) }
{
    let sound = match read_program(alloc, &text.units) {
        Ok(sound) => sound,
        Err(fault) => {
            let line = fault_line(alloc, &text.name, fault)?;
            return Err(Unmade::Refused { line });
        }
    };
    linked_program(alloc, &text.name, &sound)
}

/// The program that is made of a program's texts, as it is read of its file: what runs is what `prep` writes.
fn program_of(alloc: Global, text: &Text) -> Result<Program, Unmade>
    requires { ProgramFits 1048576 (text_value text.now) }
    ensures made { IfOk result (λ p. IsMade (text_value text.now).units p) }
    ensures refused { IfErr result (λ e. RefusedBy (text_value text.now) e) }
{
    let program = made_program(alloc, text)?;
    let filed = through_file(alloc, &program)?;
    Ok(filed)
}

/// The programs that are made of the texts of a job's programs, in order.
pub fn programs_of(alloc: Global, texts: &[Text]) -> Result<Vec<Program>, Unmade>
    requires { Each (ProgramFits 1048576) (map text_value texts.now) }
    ensures made { IfOk result (λ ps. AreMade (map text_value texts.now) ps.items) }
    ensures refused { IfErr result (λ e. RefusedAmong (map text_value texts.now) e) }
{
    let mut programs = Vec::with_capacity(alloc, texts.len())?;
    for text in texts {
        let program = program_of(alloc, text)?;
        programs.push(program)?;
    }
    Ok(programs)
}
