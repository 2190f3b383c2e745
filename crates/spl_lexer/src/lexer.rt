//! The tokens of a unit, from its text.
ghost use Rattle.std.specs.Prelude.{◌≡◌, ◌≤◌, ◌≢◌, map, length, IfOk, IfErr};
ghost use Rattle.spl_cuts.specs.Bytes as by;
ghost use Rattle.spl_cuts.specs.Reading as rd;
ghost use Rattle.spl_tree.specs.declared.names_and_places.At as places;
ghost use Rattle.spl_cuts.specs.Signs.{Listed};
ghost use Rattle.spl_cuts.specs.Cutting.{CutsWithin, FirstFault};
ghost use Rattle.spl_cuts.specs.declared.faults.LexKind as kinds;
ghost use Rattle.spl_lexer.specs.TokenViews.{listed_of};
ghost use Rattle.spl_lexer.specs.ReaderViews.{Answers, Gives, Refuses};
ghost use Rattle.spl_cuts.specs.Whole.{IsWhole};

use crate::reader::{Here, Reader};
use crate::state::State;
use spl_cuts::{LexFault, LexKind};
use spl_pieces::{Piece, blanked, past_all, turn};
use spl_tree::Lexed;
use std::alloc::{AllocError, Global};

/// What is left of a unit's text, with what is known before it.
#[derive(Drop)]
struct Lexer<'a> {
    text: &'a [u8],
    /// The text with a blank in place of each byte that is allowed nowhere.
    blanked: &'a [u8],
    reader: Reader,
}

/// A text with a blank in place of each byte that is allowed nowhere.
fn blanks(alloc: Global, text: &[u8]) -> Result<Vec<u8>, AllocError>
    ensures { IfOk result (λ v. v.items ≡ map by.blanked text.now) }
{
    text.iter().map(|b| blanked(*b)).collect(alloc)
}

impl<'a> Lexer<'a> {
    ghost use Rattle.std.specs.Prelude.{◌≡◌, ◌<◌, length, OnOk, IfErr};
    ghost use Rattle.spl_lexer.specs.StateViews.{state_of};
    ghost use Rattle.spl_lexer.specs.ReaderViews.{here_of, reading, IsLeft, Faults};

    /// Reads the piece at the front of what is left.
    fn step(&mut self, alloc: Global) -> Result<(), LexFault>
        requires some { 0 < length self.old.text.now }
        requires left { IsLeft (here_of self.old.reader.here) (state_of self.old.reader.state) self.old.text.now self.old.blanked.now }
        ensures left { OnOk result (IsLeft (here_of self.new.reader.here) (state_of self.new.reader.state) self.new.text.now self.new.blanked.now) }
        ensures same { OnOk result (reading (here_of self.new.reader.here) (state_of self.new.reader.state) self.new.text.now ≡ reading (here_of self.old.reader.here) (state_of self.old.reader.state) self.old.text.now) }
        ensures shorter { OnOk result (length self.new.text.now < length self.old.text.now) }
        ensures fault { IfErr result (λ f. Faults (reading (here_of self.old.reader.here) (state_of self.old.reader.state) self.old.text.now) f.kind f.at) }
    {
        let at = self.reader.here.at;
        match turn(alloc, at.column == 1, self.text, self.blanked) {
            Err(fault) => Err(LexFault {
                kind: fault.kind,
                at: past_all(at, &self.text[..fault.behind]),
            }),
            Ok(Piece { item, size }) => {
                let (front, behind) = self.text.split_at(size);
                match self.reader.add(alloc, item, front) {
                    Err(kind) => Err(LexFault { kind, at }),
                    Ok(()) => {
                        self.text = behind;
                        self.blanked = &self.blanked[size..];
                        Ok(())
                    }
                }
            }
        }
    }
}

/// The tokens of a unit, or the first fault of its text, as they are read from its front.
fn read_all(alloc: Global, text: &[u8], unit: u8) -> Result<Lexed, LexFault>
    requires { length text.now ≤ 1048576 }
    ensures { Answers (rd.read_text unit 262144 text.now) result }
{
    let reader = Reader {
        here: Here::new(unit),
        state: State::new(alloc),
    };
    let Ok(blanked) = blanks(alloc, text) else {
        return Err(LexFault {
            kind: LexKind::NoMemory,
            at: reader.here.at,
        });
    };
    let mut lexer = Lexer {
        text,
        blanked: &blanked,
        reader,
    };
    while !lexer.text.is_empty() {
        if let Err(fault) = lexer.step(alloc) {
            return Err(fault);
        }
    }
    lexer.reader.finish(alloc)
}

/// The tokens of a unit, which end with its only `End`, one past the text; or the first fault of its text, which comes where
/// more than 262,144 tokens arise too. Units, lines and columns count from 1. Only memory may be wanting besides.
pub fn tokens(alloc: Global, text: &[u8], unit: u8) -> Result<Lexed, LexFault>
    requires { length text.now ≤ 1048576 }
    ensures cut { IfOk result (λ x. CutsWithin unit 262144 text.now (listed_of x)) }
    ensures whole { IfOk result (λ x. IsWhole unit 262144 (listed_of x)) }
    ensures fault { IfErr result (λ f. f.kind ≢ LexKind.NoMemory → FirstFault unit 262144 text.now f.kind f.at) }

    // A text that is cut has its list as the answer, and one that has a fault that fault.
    ensures cuts { (x : Listed) → CutsWithin unit 262144 text.now x → Gives result x }
    ensures faults { (kind : kinds.LexKind) (at : places.At) → FirstFault unit 262144 text.now kind at → Refuses result kind at }
{
    read_all(alloc, text, unit)
}
