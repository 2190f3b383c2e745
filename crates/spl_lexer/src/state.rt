//! What was found before a place in a text, and what a token makes of it.
ghost use Rattle.std.specs.Prelude.{◌≡◌, ◌≤◌, ◌++◌, [], length, map, OnOk, Some};
ghost use Rattle.spl_cuts.specs.Defines as df;
ghost use Rattle.spl_cuts.specs.Cutting as cu;
ghost use Rattle.spl_pieces.specs.SignViews.{sign_of};
ghost use Rattle.spl_lexer.specs.TokenViews.{use_at};

use crate::defines::Defines;
use crate::listing::Listing;
use crate::reserved::is_reserved;
use crate::signs::{append, copy, is_define, is_mark};
use spl_cuts::LexKind;
use spl_tree::{At, Name, What, mark};
use std::alloc::{AllocError, Global};
use std::mem::replace;

/// The greatest number of tokens of a unit, with those that its DEFINEs keep.
pub const MOST_TOKENS: usize = 262144;

/// How far the DEFINE that is open has come.
#[derive(Debug, Drop)]
pub enum Phase {
    /// None is open.
    Outside,
    BeforeName,
    BeforeEquals(Name),
    /// The name, and the tokens that it is to stand for so far.
    Inside(Name, Vec<What>),
    BehindHash,
}

/// What was found before a place: the DEFINEs, how far the one that is open has come, the tokens of the list, and how many
/// tokens list and DEFINEs have together.
#[derive(Debug, Drop)]
pub struct State {
    pub defines: Defines,
    pub phase: Phase,
    pub listing: Listing,
    pub count: usize,
}

/// Puts copies of some tokens at the end of a list, at one place and in one segment.
fn list_all(
    alloc: Global,
    listing: &mut Listing,
    signs: &[What],
    at: At,
    segment: &Name,
) -> Result<(), AllocError>
    requires { length (cu.with_name (cu.with_names [] listing.old) segment.now.text.items) ≤ 65536 }
    ensures { OnOk result (listing.new ≡ listing.old ++ df.at_use (use_at at segment.now) (map sign_of signs.now)) }
{
    for sign in signs {
        listing.push(copy(alloc, sign)?, at, segment)?;
    }
    Ok(())
}

impl State {
    ghost use Rattle.std.specs.Prelude.{◌≡◌, ◌≤◌, [], length, map, Some, None, OnOk};
    ghost use Rattle.spl_cuts.specs.Defines as df;
    ghost use Rattle.spl_cuts.specs.Cutting as cu;
    ghost use Rattle.spl_cuts.specs.Reading as rd;
    ghost use Rattle.spl_pieces.specs.SignViews.{sign_of};
    ghost use Rattle.spl_lexer.specs.StateViews.{Comes, IsKept, state_of, found_at, anywhere};

    /// Nothing is found before the beginning of a text.
    pub fn new(alloc: Global) -> Self
        ensures { state_of result ≡ cu.fresh }
    {
        State {
            defines: Defines::new(alloc),
            phase: Phase::Outside,
            listing: Listing::new(alloc),
            count: 0,
        }
    }

    /// Lists a token, or the tokens that it stands for.
    #[tactic(auto, unfolding(spl_cuts::specs::Reading::listed_as, spl_cuts::specs::Reading::limited))]
    fn list(&mut self, alloc: Global, what: What, at: At, segment: &Name) -> Result<(), LexKind>
        requires kept { IsKept (state_of self.old) }
        requires segments { length (cu.with_name (cu.with_names [] self.old.listing) segment.now.text.items) ≤ 65536 }
        ensures comes { Comes (rd.limited 262144 (Some (rd.listed_as (state_of self.old) (found_at what at segment.now) (df.use_of self.old.defines (sign_of what))))) result (state_of self.new) }
        ensures kept { OnOk result (IsKept (state_of self.new)) }
    {
        match self.defines.use_of(&what) {
            None => {
                if self.count >= MOST_TOKENS {
                    return Err(LexKind::TooManyTokens);
                }
                self.listing.push(what, at, segment)?;
                self.count += 1;
            }
            Some(signs) => {
                if signs.len() > MOST_TOKENS - self.count {
                    return Err(LexKind::TooManyTokens);
                }
                self.count += signs.len();
                list_all(alloc, &mut self.listing, signs, at, segment)?;
            }
        }
        Ok(())
    }

    /// Keeps a token for the DEFINE of this name, or the tokens that it stands for, behind those that are kept.
    #[tactic(auto, unfolding(spl_cuts::specs::Reading::kept_as, spl_cuts::specs::Reading::limited))]
    fn keep(
        &mut self,
        alloc: Global,
        name: Name,
        signs: Vec<What>,
        what: What,
    ) -> Result<(), LexKind>
        requires kept { IsKept (state_of self.old) }
        requires new { df.defined name.text.items self.old.defines ≡ None }
        ensures comes { Comes (rd.limited 262144 (Some (rd.kept_as (state_of self.old) (sign_of what) name.text.items (map sign_of signs.items) (df.use_of self.old.defines (sign_of what))))) result (state_of self.new) }
        ensures kept { OnOk result (IsKept (state_of self.new)) }
    {
        let mut signs = signs;
        match self.defines.use_of(&what) {
            None => {
                if self.count >= MOST_TOKENS {
                    return Err(LexKind::TooManyTokens);
                }
                signs.push(what)?;
                self.count += 1;
            }
            Some(used) => {
                if used.len() > MOST_TOKENS - self.count {
                    return Err(LexKind::TooManyTokens);
                }
                self.count += used.len();
                append(alloc, &mut signs, used)?;
            }
        }
        self.phase = Phase::Inside(name, signs);
        Ok(())
    }

    /// Takes a token between the `=` and the `#` of a DEFINE.
    #[tactic(auto, unfolding(spl_cuts::specs::Reading::fed_at, spl_cuts::specs::Reading::limited))]
    fn inside(
        &mut self,
        alloc: Global,
        name: Name,
        signs: Vec<What>,
        what: What,
    ) -> Result<(), LexKind>
        requires kept { IsKept (state_of self.old) }
        requires new { df.defined name.text.items self.old.defines ≡ None }
        ensures comes { Comes (rd.limited 262144 (rd.fed_at (df.Phase.inside name.text.items (map sign_of signs.items)) (state_of self.old) (anywhere (sign_of what)))) result (state_of self.new) }
        ensures kept { OnOk result (IsKept (state_of self.new)) }
    {
        if is_mark(&what, mark::HASH) {
            self.defines.add(name, signs)?;
            self.phase = Phase::BehindHash;
            Ok(())
        } else if is_define(&what) {
            Err(LexKind::BadDefine)
        } else {
            self.keep(alloc, name, signs, what)
        }
    }

    /// Takes the name of a DEFINE: no reserved word, and none that was defined before.
    #[tactic(auto, unfolding(spl_cuts::specs::Reading::name_found, spl_cuts::specs::Reading::named, spl_cuts::specs::Reading::limited))]
    fn named(&mut self, what: What) -> Result<(), LexKind>
        requires kept { IsKept (state_of self.old) }
        ensures comes { Comes (rd.limited 262144 (rd.name_found (state_of self.old) (sign_of what))) result (state_of self.new) }
        ensures kept { OnOk result (IsKept (state_of self.new)) }
    {
        match what {
            What::Word(name) => {
                if is_reserved(&name) || self.defines.get(&name).is_some() {
                    return Err(LexKind::BadDefine);
                }
                self.phase = Phase::BeforeEquals(name);
                Ok(())
            }
            _other => Err(LexKind::BadDefine),
        }
    }

    /// Takes the token behind the `#` of a DEFINE.
    #[tactic(auto, unfolding(spl_cuts::specs::Reading::fed_at, spl_cuts::specs::Reading::limited))]
    fn behind_hash(&mut self, what: &What) -> Result<(), LexKind>
        requires kept { IsKept (state_of self.old) }
        ensures comes { Comes (rd.limited 262144 (rd.fed_at df.Phase.behind_hash (state_of self.old) (anywhere (sign_of what.now)))) result (state_of self.new) }
        ensures kept { OnOk result (IsKept (state_of self.new)) }
    {
        if is_mark(what, mark::COMMA) {
            self.phase = Phase::BeforeName;
            Ok(())
        } else if is_mark(what, mark::SEMICOLON) {
            self.phase = Phase::Outside;
            Ok(())
        } else {
            Err(LexKind::BadDefine)
        }
    }

    /// Takes a token where no DEFINE is open.
    #[tactic(auto, unfolding(spl_cuts::specs::Reading::fed_at, spl_cuts::specs::Reading::limited))]
    fn outside(&mut self, alloc: Global, what: What, at: At, segment: &Name) -> Result<(), LexKind>
        requires kept { IsKept (state_of self.old) }
        requires segments { length (cu.with_name (cu.with_names [] self.old.listing) segment.now.text.items) ≤ 65536 }
        ensures comes { Comes (rd.limited 262144 (rd.fed_at df.Phase.outside (state_of self.old) (found_at what at segment.now))) result (state_of self.new) }
        ensures kept { OnOk result (IsKept (state_of self.new)) }
    {
        if is_define(&what) {
            self.phase = Phase::BeforeName;
            Ok(())
        } else {
            self.list(alloc, what, at, segment)
        }
    }

    /// Takes a token, which stands at a place in a segment. There are at most 65,536 segments with it.
    #[tactic(auto, unfolding(spl_cuts::specs::Reading::fed, spl_cuts::specs::Reading::fed_at, spl_cuts::specs::Reading::limited))]
    pub fn take(&mut self, alloc: Global, what: What, at: At, segment: &Name) -> Result<(), LexKind>
        requires kept { IsKept (state_of self.old) }
        requires segments { length (cu.with_name (cu.with_names [] self.old.listing) segment.now.text.items) ≤ 65536 }
        ensures comes { Comes (rd.limited 262144 (rd.fed (state_of self.old) (found_at what at segment.now))) result (state_of self.new) }
        ensures kept { OnOk result (IsKept (state_of self.new)) }
    {
        match replace(&mut self.phase, Phase::Outside) {
            Phase::Outside => self.outside(alloc, what, at, segment),
            Phase::BeforeName => self.named(what),
            Phase::BeforeEquals(name) => {
                if is_mark(&what, mark::EQUAL) {
                    self.phase = Phase::Inside(name, Vec::new(alloc));
                    Ok(())
                } else {
                    Err(LexKind::BadDefine)
                }
            }
            Phase::Inside(name, signs) => self.inside(alloc, name, signs, what),
            Phase::BehindHash => self.behind_hash(&what),
        }
    }
}
