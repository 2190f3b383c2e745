//! The monitor: what it keeps, and its calls on one session or one segment.
ghost use Rattle.std.specs.Prelude.{◌≡◌, ◌≤◌, ◌+◌, ◌^◌, length, drop, map, slice_get, IfSome, IsSomeAnd};
ghost use Rattle.hp_word.specs.declared.endings.Ending.TheVariants.{Running};
ghost use Rattle.mpe_overlay.specs.mpe_regions.Area.{is_live};
ghost use Rattle.mpe_overlay.specs.Codes.{key_of};
ghost use Rattle.mpe_worlds.specs.Dispatch.{first_live};
ghost use Rattle.mpe_turns.specs.Stands.{IsKept};

use crate::session::Session;
use hp_word::Ending;
use mpe_overlay::Overlay;

/// Sessions that take turns over one code area. From its opening on no call takes memory.
#[derive(Drop)]
pub struct Monitor {
    /// The code area, and the programs of the job.
    pub overlay: Overlay,
    /// The sessions, by number.
    pub sessions: Vec<Session>,
    /// The session that had the last turn; 255 before the first.
    pub last: u8,
    /// How many turns there were.
    pub turns: u64,
    /// The quanta of all turns: how many steps they were given. At most 2 to the power 60.
    pub spent: u64,
    pub ghost kept: { IsKept overlay.programs.items overlay.regions.area.size sessions.items overlay.loads turns spent },
    pub ghost bounded: { spent ≤ 2 ^ 60 },
}

/// The first session from number `from` on that has not ended.
fn find_live(sessions: &[Session], from: usize) -> Option<u8>
    requires { length sessions.now ≤ 255 }
    ensures value { result ≡ first_live from (drop from (map (λ s. s.ending) sessions.now)) }
    ensures live { IfSome result (λ who. IsSomeAnd (slice_get sessions.now who) (λ s. s.ending ≡ Running)) }
{
    for i in from..sessions.len() {
        if sessions[i].ending == Ending::Running {
            return Some(i as u8);
        }
    }
    None
}

impl Monitor {
    ghost use Rattle.mpe_worlds.specs.Dispatch.{next_of};
    ghost use Rattle.mpe_worlds.specs.Turns.{evicted};
    ghost use Rattle.mpe_turns.specs.Monitors.{world_of};

    /// The session whose turn is next: the live one with the least number above that of the last turn, else the live one with the
    /// least number. None exactly where no session is live.
    pub fn next(&self) -> Option<u8>
        ensures value { result ≡ next_of (world_of self.now) }
        ensures live { IfSome result (λ who. IsSomeAnd (slice_get self.now.sessions.items who) (λ s. s.ending ≡ Running)) }
    {
        match find_live(&self.sessions, self.last as usize + 1) {
            None => find_live(&self.sessions, 0),
            found => found,
        }
    }

    /// Gives a segment up. Answers whether it was loaded; where it was not, nothing changes.
    pub fn evict(&mut self, program: u8, seg: u8) -> bool
        ensures live { result ≡ is_live (key_of program seg) self.old.overlay.regions.area }
        ensures world { world_of self.new ≡ evicted program seg (world_of self.old) }
        ensures sessions { self.new.sessions ≡ self.old.sessions }
        ensures spent { self.new.spent ≡ self.old.spent }

        // what no event changes
        ensures programs { self.new.overlay.programs ≡ self.old.overlay.programs }
        ensures base { self.new.overlay.base ≡ self.old.overlay.base }
    {
        self.overlay.evict(program, seg)
    }
}
