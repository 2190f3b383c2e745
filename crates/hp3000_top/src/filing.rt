//! Programs as their files have them.
ghost use Rattle.std.specs.Prelude.{IfOk};
ghost use Rattle.hp3000_top.specs.Steps.{IsCopy};

use hp_program::Program;
use mpe_progfile::{read, write};
use std::alloc::{AllocError, Global};

/// An equal program, read of the program's file. Only memory may be wanting.
#[tactic(auto, using(crate::proofs::FileLemmas::copy_so))]
pub fn through_file(alloc: Global, program: &Program) -> Result<Program, AllocError>
    ensures { IfOk result (λ p. IsCopy program.now p) }
{
    let file = write(alloc, program)?;
    match read(alloc, &file) {
        Ok(copy) => Ok(copy),
        // A program's file has no fault, so memory is wanting.
        Err(_fault) => Err(AllocError),
    }
}
