//! The top call over a source and a sink that never fail.
ghost use Rattle.std.specs.Prelude.{◌≢◌};
ghost use Rattle.hp3000_top.specs.declared.exit.Exit.TheVariants as exit;

use hp_outside::{SteadySink, SteadySource};
use hp_program::Program;
use hp3000_top::{Exit, Ran, hp3000_main};
use std::alloc::Global;

/// Does what the words say. No fault of the outside is told, whatever they ask for.
pub fn steady_main(
    alloc: Global,
    words: &Vec<String>,
    input: &mut SteadySource,
    output: &mut SteadySink,
    made: &mut Vec<Program>,
    ran: &mut Option<Ran>,
) -> Exit
    ensures read { result ≢ exit.ReadFault }
    ensures write { result ≢ exit.WriteFault }
{
    hp3000_main(alloc, words, input, output, made, ran)
}
