//! A served intrinsic: the call is carried out, and then passed.
ghost use Rattle.std.specs.Prelude.{◌≡◌, Ok, OnOk, OnErr};
ghost use Rattle.hp_word.specs.Intrinsics.{answer_words};
ghost use Rattle.hp_call_rows.specs.GateRows.{performed};
ghost use Rattle.hp_tos.specs.StackView.{seen};
ghost use Rattle.hp_rows.specs.Moves.{past};
ghost use Rattle.mpe_gate.specs.Serves.{ServesAs, Serves, came};

use crate::intrinsics::{ascii, binary, dascii, dbinary, print, quit, read};
use hp_rows::pass;
use hp_session::Regs;
use hp_tos::Stack;
use hp_word::{Ending, Intrinsic, Trap};
use mpe_session::Terminal;

/// What came of a served intrinsic.
#[derive(Clone, Copy, Debug, PartialEq, Eq)]
pub enum Served {
    /// It was carried out, and the session goes on past the call.
    Went,
    /// It was carried out, and has ended the session. The ending is never `Running`.
    Ended(Ending),
    /// It trapped, and nothing was done.
    Trapped(Trap),
}

/// Carries a call out. The answer is where the session then stands.
#[tactic(auto, using(hp_call_rows::proofs::GateLemmas::terminate_is))]
fn perform(
    entry: Intrinsic,
    regs: &mut Regs,
    stack: &mut Stack,
    terminal: &mut Terminal,
) -> Result<Ending, Trap>
    requires { (seen stack.old).in_registers ≡ 0 }
    ensures { ServesAs (performed entry) (answer_words entry) regs.old (seen stack.old) terminal.old (came result)
        regs.new (seen stack.new) terminal.new }
{
    match entry {
        Intrinsic::Print => print(regs, stack, terminal),
        Intrinsic::Read => read(regs, stack, terminal),
        Intrinsic::Ascii => ascii(regs, stack),
        Intrinsic::Dascii => dascii(regs, stack),
        Intrinsic::Binary => binary(regs, stack),
        Intrinsic::Dbinary => dbinary(regs, stack),
        Intrinsic::Terminate => Ok(Ending::Terminated),
        Intrinsic::Quit => quit(stack),
    }
}

/// What came of a call that was carried out.
fn went_or_ended(ending: Ending) -> Served
    ensures { result ≡ came (Ok ending) }
{
    match ending {
        Ending::Running => Served::Went,
        ending => Served::Ended(ending),
    }
}

/// Goes on past a call that was carried out, and says what came of it.
fn finish(regs: &mut Regs, answer: Result<Ending, Trap>) -> Served
    ensures value { result ≡ came answer }
    ensures ok { OnOk answer (regs.new ≡ past regs.old) }
    ensures err { OnErr answer (regs.new ≡ regs.old) }
{
    match answer {
        Ok(ending) => {
            pass(regs);
            went_or_ended(ending)
        }
        Err(trap) => Served::Trapped(trap),
    }
}

/// Serves an intrinsic that the session has called: it takes its words from the top of the stack, does what it does to bytes and
/// to the terminal, and leaves its answer in their place; then P is past the call's word, and R is 0.
///
/// The words are taken from memory, with no fill, and the words of the answer are pushed into registers. A trap comes before
/// anything is done: too few words first, then an address that is out of bounds, then a full print room. Takes no memory.
pub fn serve(
    entry: Intrinsic,
    regs: &mut Regs,
    stack: &mut Stack,
    terminal: &mut Terminal,
) -> Served
    requires { (seen stack.old).in_registers ≡ 0 }
    ensures { Serves entry regs.old (seen stack.old) terminal.old result regs.new (seen stack.new) terminal.new }
{
    let answer = perform(entry, regs, stack, terminal);
    finish(regs, answer)
}
