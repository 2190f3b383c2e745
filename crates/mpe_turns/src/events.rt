//! Lists of events.
ghost use Rattle.std.specs.Prelude.{◌≡◌, ◌+◌, ◌-◌, ◌^◌, ◌<◌, ◌≤◌};

use crate::monitor::Monitor;
use hp_word::Ending;
use mpe_worlds::Event;

/// How many steps all turns are given at most.
const MOST: u64 = 1 << 60;

impl Monitor {
    ghost use Rattle.mpe_worlds.specs.Alone.{EachGoesOn};
    ghost use Rattle.mpe_worlds.specs.Events.{happened, may_evict, may_turn, played};
    ghost use Rattle.mpe_turns.specs.Monitors.{codes_in, played_by};

    /// Whether a turn may happen.
    fn may_turn(&self, who: u8, quantum: u32) -> bool
        ensures { result ≡ may_turn (played_by self.now 0) who quantum }
    {
        match self.sessions.get(who as usize) {
            None => false,
            Some(session) => {
                session.ending == Ending::Running
                    && quantum >= 1
                    && self.spent + quantum as u64 <= MOST
            }
        }
    }

    /// Whether a segment exists, so that an eviction may happen.
    fn may_evict(&self, program: u8, seg: u8) -> bool
        ensures { result ≡ may_evict (codes_in self.now) program seg }
    {
        self.overlay.fits(program, seg)
    }

    /// One event, after so many that were not passed over. Answers how many there are then.
    fn happen(&mut self, event: Event, count: u64) -> u64
        requires { count < 2 ^ 64 - 1 }
        ensures played { played_by self.new result ≡ happened (codes_in self.old) event (played_by self.old count) }
        ensures few { result ≤ count + 1 }
        ensures programs { self.new.overlay.programs ≡ self.old.overlay.programs }
        ensures base { self.new.overlay.base ≡ self.old.overlay.base }
    {
        match event {
            Event::Turn { who, quantum } => {
                if !self.may_turn(who, quantum) {
                    return count;
                }
                let _ = self.turn(who, quantum);
                count + 1
            }
            Event::Evict { program, seg } => {
                if !self.may_evict(program, seg) {
                    return count;
                }
                let _ = self.evict(program, seg);
                count + 1
            }
        }
    }

    /// Plays events in order. It passes over a turn of a session that does not exist or is not live, with no step, or with which
    /// `spent` would be above 2 to the power 60, and over an eviction of a segment that does not exist. Answers how many events it
    /// did not pass over.
    pub fn play(&mut self, events: &Vec<Event>) -> u64
        ensures played { played_by self.new result ≡ played (codes_in self.old) (played_by self.old 0) events.now.items }
        ensures alone { EachGoesOn (codes_in self.old) (played_by self.old 0).world (played_by self.new 0).world }

        // what no event changes
        ensures programs { self.new.overlay.programs ≡ self.old.overlay.programs }
        ensures base { self.new.overlay.base ≡ self.old.overlay.base }
    {
        let mut count = 0;
        for event in events {
            count = self.happen(*event, count);
        }
        count
    }
}
