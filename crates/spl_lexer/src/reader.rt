//! A place in a text, and what the pieces before it told.
ghost use Rattle.std.specs.Prelude.{◌≡◌, ◌≤◌, ◌++◌, ◌∷◌, [], length, IfOk};
ghost use Rattle.spl_cuts.specs.Signs as sg;
ghost use Rattle.spl_cuts.specs.Defines as df;
ghost use Rattle.spl_cuts.specs.Cutting as cu;
ghost use Rattle.spl_lexer.specs.TokenViews.{listed_of, list_of};
ghost use Rattle.spl_lexer.specs.StateViews.{phase_of};
ghost use Rattle.spl_lexer.specs.ReaderViews.{here_of};

use crate::listing::Listing;
use crate::state::{Phase, State};
use spl_cuts::{LexFault, LexKind};
use spl_pieces::{Item, Setting, past_all};
use spl_tree::{At, Lexed, Name, What};
use std::alloc::{AllocError, Global};

/// A place in a text, with the segment in force there, and whether a command said SUBPROGRAM before.
#[derive(Debug, Drop)]
pub struct Here {
    pub at: At,
    pub segment: Name,
    pub subprogram: bool,
}

impl Here {
    ghost use Rattle.std.specs.Prelude.{◌≡◌, ◌≤◌, ◌<◌, ◌+◌, ◌∷◌, [], length, map};
    ghost use Rattle.spl_cuts.specs.Cutting as cu;
    ghost use Rattle.spl_cuts.specs.Bytes as by;
    ghost use Rattle.spl_lexer.specs.ReaderViews.{here_of, with_settings};
    ghost use Rattle.spl_pieces.specs.PieceViews.{setting_of};

    /// The beginning of a unit's text: the segment `SEG'` is in force.
    pub fn new(unit: u8) -> Self
        ensures { here_of result ≡ cu.start unit }
    {
        Here {
            at: At {
                unit,
                line: 1,
                column: 1,
            },
            segment: Name::new(b"SEG'"),
            subprogram: false,
        }
    }

    /// Passes over some bytes.
    pub fn pass(&mut self, front: &[u8])
        requires line { self.old.at.line + length front.now < 4294967296 }
        requires column { self.old.at.column + length front.now < 4294967296 }
        ensures { here_of self.new ≡ record { at = by.past_all self.old.at front.now; segment = self.old.segment.text.items; subprogram = self.old.subprogram } }
    {
        self.at = past_all(self.at, front);
    }

    /// Puts an option in force.
    #[tactic(auto, using(crate::proofs::SettingLemmas::said))]
    fn set_one(&mut self, setting: Setting)
        ensures here { here_of self.new ≡ with_settings (here_of self.old) (setting_of setting ∷ []) }
        ensures at { self.new.at ≡ self.old.at }
    {
        match setting {
            Setting::Segment(name) => self.segment = name,
            Setting::Subprogram => self.subprogram = true,
            Setting::Other => {}
        }
    }

    /// Puts the options of a command in force, one after the other.
    pub fn set(&mut self, settings: Vec<Setting>)
        ensures here { here_of self.new ≡ with_settings (here_of self.old) (map setting_of settings.items) }
        ensures at { self.new.at ≡ self.old.at }
    {
        for setting in settings {
            self.set_one(setting);
        }
    }
}

/// No DEFINE is open.
fn is_outside(phase: &Phase) -> bool
    ensures { result ≡ df.is_outside (phase_of phase.now) }
{
    matches!(phase, Phase::Outside)
}

/// The list of a unit with these tokens, and its end.
fn ended(alloc: Global, listing: Listing, here: Here) -> Result<Lexed, AllocError>
    requires { length (cu.with_name (cu.with_names [] listing) here.segment.text.items) ≤ 65536 }
    ensures { IfOk result (λ x. listed_of x ≡ list_of (listing ++ cu.here (here_of here) sg.Sign.stop ∷ []) here.subprogram) }
{
    let mut listing = listing;
    listing.push(What::End, here.at, &here.segment)?;
    listing.finish(alloc, here.subprogram)
}

/// What is known before a piece: where it stands, and what was found before.
#[derive(Debug, Drop)]
pub struct Reader {
    pub here: Here,
    pub state: State,
}

impl Reader {
    ghost use Rattle.std.specs.Prelude.{◌≡◌, ◌≤◌, ◌<◌, ◌+◌, [], length, OnOk};
    ghost use Rattle.spl_cuts.specs.Cutting as cu;
    ghost use Rattle.spl_cuts.specs.Reading as rd;
    ghost use Rattle.spl_pieces.specs.PieceViews.{item_of};
    ghost use Rattle.spl_lexer.specs.StateViews.{IsKept, state_of};
    ghost use Rattle.spl_lexer.specs.ReaderViews.{here_of, Adds, Answers};

    /// Adds what a piece of these bytes gives, and passes over them.
    #[tactic(auto, unfolding(spl_cuts::specs::Reading::added))]
    pub fn add(&mut self, alloc: Global, item: Item, front: &[u8]) -> Result<(), LexKind>
        requires kept { IsKept (state_of self.old.state) }
        requires segments { length (cu.with_name (cu.with_names [] self.old.state.listing) self.old.here.segment.text.items) ≤ 65536 }
        requires line { self.old.here.at.line + length front.now < 4294967296 }
        requires column { self.old.here.at.column + length front.now < 4294967296 }
        ensures adds { Adds (here_of self.old.here) (state_of self.old.state) (item_of item) front.now result (here_of self.new.here) (state_of self.new.state) }
        ensures kept { OnOk result (IsKept (state_of self.new.state)) }
    {
        match item {
            Item::Nothing => {
                self.here.pass(front);
                Ok(())
            }
            Item::Token(what) => {
                self.state
                    .take(alloc, what, self.here.at, &self.here.segment)?;
                self.here.pass(front);
                Ok(())
            }
            Item::Settings(settings) => {
                self.here.set(settings);
                self.here.pass(front);
                Ok(())
            }
        }
    }

    /// The list of a unit whose text ends here.
    #[tactic(auto, unfolding(spl_cuts::specs::Reading::finished))]
    pub fn finish(self, alloc: Global) -> Result<Lexed, LexFault>
        requires { length (cu.with_name (cu.with_names [] self.state.listing) self.here.segment.text.items) ≤ 65536 }
        ensures { Answers (rd.finished (here_of self.here) (state_of self.state)) result }
    {
        let Reader { here, state } = self;
        let at = here.at;
        if !is_outside(&state.phase) {
            return Err(LexFault {
                kind: LexKind::BadDefine,
                at,
            });
        }
        match ended(alloc, state.listing, here) {
            Ok(lexed) => Ok(lexed),
            Err(_) => Err(LexFault {
                kind: LexKind::NoMemory,
                at,
            }),
        }
    }
}
