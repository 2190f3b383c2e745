//! Views with segments at hand: they were looked up beforehand, so that a turn reads the words of the segment that it runs in without a
//! search, and goes back to the one before without one.
ghost use Rattle.std.specs.Prelude.{◌≡◌, ◌≢◌, ◌≤◌, Some, is_some, length, IfSome};
ghost use Rattle.std.specs.Bool.{OnFalse, OnTrue};
ghost use Rattle.mpe_overlay.specs.Held.{held_by};

use crate::view::{View, read};
use hp_program::{CodeStore, Fetched};
use std::mem::swap;

/// The loaded segments of one program, with two of them at hand, which may be the same. Their fields stand side by side, and not in a
/// struct for each, since then an exchange would copy the bytes between fields too.
#[derive(Drop)]
pub struct SegmentView<'a> {
    /// All of them.
    pub view: View<'a>,
    /// The number of the one that is read.
    pub seg: u8,
    /// The number of the one that was read before.
    pub before: u8,
    /// The words of the one that is read.
    pub words: &'a [u16],
    /// The words of the one that was read before.
    pub words_before: &'a [u16],
    pub ghost here_is: { held_by view seg ≡ Some words.now },
    pub ghost before_is: { held_by view before ≡ Some words_before.now },
    ghost short: { length words.now ≤ 65535 },
    ghost short_before: { length words_before.now ≤ 65535 },
}

impl<'a> View<'a> {
    /// The same segments, with one of them looked up; None exactly where it is not loaded.
    pub fn segment(self, seg: u8) -> Option<SegmentView<'a>>
        ensures value { is_some result ≡ is_some (held_by self.entry seg) }
        ensures view { IfSome result (λ code. code.view ≡ self.entry) }
        ensures seg { IfSome result (λ code. code.seg ≡ seg) }
        ensures before { IfSome result (λ code. code.before ≡ seg) }
    {
        match self.find(seg) {
            None => None,
            Some(words) => Some(SegmentView {
                view: self,
                seg,
                before: seg,
                words,
                words_before: words,
            }),
        }
    }
}

impl SegmentView<'_> {
    /// Looks a segment up and takes it at hand, and keeps the one that was read. Where it is not loaded nothing changes, and false is
    /// the answer.
    #[inline(never)]
    fn look_up(&mut self, seg: u8) -> bool
        ensures value { result ≡ is_some (held_by self.old.view seg) }
        ensures view { self.new.view ≡ self.old.view }
        ensures seg { OnTrue result (self.new.seg ≡ seg) }
        ensures before { OnTrue result (self.new.before ≡ self.old.seg) }
        ensures kept { OnFalse result (self.new ≡ self.old) }
    {
        match self.view.find(seg) {
            None => false,
            Some(words) => {
                self.before = self.seg;
                self.words_before = self.words;
                self.seg = seg;
                self.words = words;
                true
            }
        }
    }

    /// Takes a segment at hand. The one that was read is kept beside it, so that going back to it needs no search. Where it is not
    /// loaded nothing changes, and false is the answer.
    #[inline(always)]
    pub fn turn_to(&mut self, seg: u8) -> bool
        ensures value { result ≡ is_some (held_by self.old.view seg) }
        ensures view { self.new.view ≡ self.old.view }
        ensures seg { OnTrue result (self.new.seg ≡ seg) }
        ensures before { OnTrue result (seg ≢ self.old.seg → self.new.before ≡ self.old.seg) }
        ensures kept { OnFalse result (self.new ≡ self.old) }
    {
        if seg == self.before {
            swap(&mut self.seg, &mut self.before);
            swap(&mut self.words, &mut self.words_before);
            return true;
        }
        seg == self.seg || self.look_up(seg)
    }
}

impl CodeStore for SegmentView<'_> {
    ghost held = { λ code. held_by code.view };

    #[inline(always)]
    fn size(&self, seg: u8) -> Option<u16> {
        if seg == self.seg {
            Some(self.words.len() as u16)
        } else {
            self.view.size(seg)
        }
    }

    #[inline(always)]
    fn fetch(&self, seg: u8, offset: u16) -> Fetched {
        if seg == self.seg {
            read(self.words, offset)
        } else {
            self.view.fetch(seg, offset)
        }
    }
}
