//! A unit, from its text.
ghost use Rattle.std.specs.Prelude.{◌≡◌, ◌<◌, ◌≤◌, length, IfOk, IfErr};
ghost use Rattle.spl_tree.specs.declared.names_and_places.At as places;
ghost use Rattle.spl_tree.specs.declared.fault_kinds.FaultKind as kinds;
ghost use Rattle.spl_front.specs.Fronts.{Source, source_of, Spells, HasFault, Tells, Gives, Refuses, lex_fault_of, parse_fault_of, Stands};

use crate::faults::{UnitFault, kind_of};
use spl_cuts::LexFault;
use spl_lexer::tokens;
use spl_parser::{ParseFault, parse};
use spl_tree::{FaultKind, Lexed, SplUnit};
use std::alloc::Global;

/// A fault of tokens.
fn of_tokens(fault: LexFault) -> UnitFault
    ensures { result ≡ lex_fault_of fault }
{
    match kind_of(fault.kind) {
        None => UnitFault::NoMemory,
        Some(kind) => UnitFault::Fault { kind, at: fault.at },
    }
}

/// A fault of spelling, at the place of its token.
fn of_spelling(lexed: &Lexed, fault: ParseFault) -> UnitFault
    requires { Stands lexed.now fault }
    ensures { result ≡ parse_fault_of lexed.now fault }
{
    match fault {
        ParseFault::Syntax { at } => UnitFault::Fault {
            kind: FaultKind::Syntax,
            at: lexed.tokens[at as usize].at,
        },
        ParseFault::TooDeep { at } => UnitFault::Fault {
            kind: FaultKind::TooDeep,
            at: lexed.tokens[at as usize].at,
        },
        ParseFault::NoMemory => UnitFault::NoMemory,
    }
}

/// The unit that a text of at most 1 MiB spells; `unit` is its number, from 1. Err: the first fault, one of its tokens
/// before one of their spelling; `NoMemory`.
pub fn read_unit(alloc: Global, text: &[u8], unit: u8) -> Result<SplUnit, UnitFault>
    requires { length text.now ≤ 1048576 }
    ensures unit { IfOk result (λ u. Spells unit text.now (source_of u)) }
    ensures fault { IfErr result (λ f. Tells unit text.now f) }

    // A text that spells a unit gives that unit, and one that has a fault that fault.
    ensures units { (s : Source) → Spells unit text.now s → Gives result s }
    ensures faults { (kind : kinds.FaultKind) (at : places.At) → HasFault unit text.now kind at → Refuses result kind at }
{
    match tokens(alloc, text, unit) {
        Err(fault) => Err(of_tokens(fault)),
        Ok(lexed) => match parse(alloc, &lexed) {
            Ok(tree) => Ok(tree),
            Err(fault) => Err(of_spelling(&lexed, fault)),
        },
    }
}
