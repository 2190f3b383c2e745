//! Where a session goes on.
ghost use Rattle.std.specs.Prelude.{◌≡◌};
ghost use Rattle.hp_session.specs.State.{displaced, at_place, passed, branching};

use crate::session::Session;

/// P plus `d`, or minus `d` where it is back.
#[inline]
pub fn displacement(back: bool, d: u8, p: u16) -> u16
    ensures { result ≡ displaced back d p }
{
    if back {
        p.wrapping_sub(d as u16)
    } else {
        p.wrapping_add(d as u16)
    }
}

impl Session {
    /// Goes on past the word at P.
    #[inline]
    pub fn pass(&mut self)
        ensures { self.new ≡ passed self.old }
    {
        self.regs.p = self.regs.p.wrapping_add(1);
        self.regs.right = false;
    }

    /// Goes on at a place of the same segment, with the left half of its word.
    #[inline]
    pub fn go_to(&mut self, p: u16)
        ensures { self.new ≡ at_place p self.old }
    {
        self.regs.p = p;
        self.regs.right = false;
    }

    /// Branches where `taken`, and else goes on past the word at P.
    #[inline]
    pub fn branch_where(&mut self, taken: bool, back: bool, d: u8)
        ensures { self.new ≡ branching taken back d self.old }
    {
        let p = self.regs.p;
        self.go_to(if taken {
            displacement(back, d, p)
        } else {
            p.wrapping_add(1)
        });
    }
}
