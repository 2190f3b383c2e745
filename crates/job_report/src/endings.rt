//! How a session ended, in words.
ghost use Rattle.std.specs.Prelude.{◌≡◌, ◌++◌, ◌∷◌, OnOk, codes};
ghost use Rattle.std.specs.Fmt.{decimal};
ghost use Rattle.job_report.specs.Lines.{line};
ghost use Rattle.job_report.specs.Endings.{trap_number, trap_text, end_pieces};

use crate::lines::push_line;
use crate::numbers::number;
use hp_word::{Ending, Trap, decimal_text};
use std::alloc::AllocError as NoMemory;

/// A trap's number.
fn trap_number(trap: Trap) -> u8
    ensures { result ≡ trap_number trap }
{
    trap as u8 + 1
}

/// A trap's text.
fn trap_text(trap: Trap) -> &'static str
    ensures { result.now ≡ trap_text trap }
{
    match trap {
        Trap::IntegerOverflow => "INTEGER OVERFLOW",
        Trap::DivideByZero => "DIVIDE BY ZERO",
        Trap::Bounds => "BOUNDS",
        Trap::StackOverflow => "STACK OVERFLOW",
        Trap::StackUnderflow => "STACK UNDERFLOW",
        Trap::Illegal => "ILLEGAL INSTRUCTION",
        Trap::CodeBounds => "CODE BOUNDS",
        Trap::BadEntry => "ENTRY",
        Trap::OutputLimit => "OUTPUT LIMIT",
        Trap::Mode => "MODE",
    }
}

/// Appends the line that tells how a session ended.
pub(crate) fn push_end(text: &mut Vec<u8>, session: u64, ending: Ending) -> Result<(), NoMemory>
    ensures { OnOk result (text.new.items ≡ text.old.items ++ line (codes "END " ∷ decimal session ∷ codes " " ∷ end_pieces ending)) }
{
    let session = number(session);
    match ending {
        Ending::Running => push_line(text, &[b"END ", &session, b" ", b"RUNNING"]),
        Ending::Terminated => push_line(text, &[b"END ", &session, b" ", b"TERMINATED"]),
        Ending::Quit(n) => {
            let n = decimal_text(n as i32);
            push_line(text, &[b"END ", &session, b" ", b"QUIT ", &n])
        }
        Ending::Trapped(trap) => {
            let k = number(trap_number(trap) as u64);
            let why = trap_text(trap).as_bytes();
            push_line(text, &[b"END ", &session, b" ", b"TRAP ", &k, b" ", why])
        }
    }
}
