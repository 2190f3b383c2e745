//! A turn of a session.
ghost use Rattle.std.specs.Prelude.{◌≡◌, ◌≤◌, ◌+◌, ◌^◌, slice_get};
ghost use Rattle.hp_word.specs.declared.endings.Ending.TheVariants.{Running};

use crate::monitor::Monitor;
use crate::session::Turned;
use crate::stepping::{answer, run};

impl Monitor {
    ghost use Rattle.std.specs.Prelude.{IsSomeAnd};
    ghost use Rattle.mpe_worlds.specs.Alone.{EachGoesOn};
    ghost use Rattle.mpe_worlds.specs.Turns.{turned};
    ghost use Rattle.mpe_turns.specs.Answers.{Advances, SameBut, answer_at};
    ghost use Rattle.mpe_turns.specs.Monitors.{codes_in, world_of};

    /// Gives a session a turn of at most `quantum` steps, at least one. The segment that it needs is brought in, unless it is there,
    /// and counts as used last. Then it makes steps until the quantum is made, it has ended, or it needs another segment that is not
    /// there.
    pub fn turn(&mut self, who: u8, quantum: u32) -> Turned
        requires live { IsSomeAnd (slice_get self.old.sessions.items who) (λ s. s.ending ≡ Running) }
        requires some { 1 ≤ quantum }
        requires spent { self.old.spent + quantum ≤ 2 ^ 60 }
        ensures value { result ≡ answer_at who quantum (world_of self.old) (world_of self.new) }
        ensures world { world_of self.new ≡ turned (codes_in self.old) who quantum (world_of self.old) }
        ensures spent { self.new.spent ≡ self.old.spent + quantum }
        // at least one step of its own program's flat run, at most one load, and nothing of any other session
        ensures advances { Advances who (world_of self.old) (world_of self.new) }
        ensures alone { EachGoesOn (codes_in self.old) (world_of self.old) (world_of self.new) }
        ensures others { SameBut who self.old.sessions.items self.new.sessions.items }

        // what no event changes
        ensures programs { self.new.overlay.programs ≡ self.old.overlay.programs }
        ensures base { self.new.overlay.base ≡ self.old.overlay.base }
    {
        let session = &mut self.sessions[who as usize];
        let _ = self
            .overlay
            .need(session.program, session.cpu.needed_segment());
        let until = session.steps + quantum as u64;
        run(session, &self.overlay, until);
        let turned = answer(session, until);
        self.last = who;
        self.turns += 1;
        self.spent += quantum as u64;
        turned
    }
}
