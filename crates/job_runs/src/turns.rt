//! The turns of a job.
ghost use Rattle.std.specs.Prelude.{◌≡◌, ◌≤◌, ◌+◌, ◌*◌, ◌^◌};
ghost use Rattle.mpe_turns.specs.mpe_worlds.Alone.{EachGoesOn};
ghost use Rattle.mpe_turns.specs.mpe_worlds.Dispatch.{after};
ghost use Rattle.mpe_turns.specs.Monitors.{codes_in, world_of};

use mpe_turns::Monitor;

/// Takes turns of at most `quantum` steps, at least one, of the next session each time, until no session is live or `turns` were
/// taken. Takes no memory.
pub fn take_turns(monitor: &mut Monitor, quantum: u32, turns: u32)
    requires some { 1 ≤ quantum }
    requires spent { monitor.old.spent + quantum * turns ≤ 2 ^ 60 }
    ensures world { world_of monitor.new ≡ after (codes_in monitor.old) quantum turns (world_of monitor.old) }
    // each session has only gone on in its own program
    ensures alone { EachGoesOn (codes_in monitor.old) (world_of monitor.old) (world_of monitor.new) }
    ensures programs { monitor.new.overlay.programs ≡ monitor.old.overlay.programs }
    ensures base { monitor.new.overlay.base ≡ monitor.old.overlay.base }
{
    let mut left = turns;
    while left > 0 {
        let who = match monitor.next() {
            None => return,
            Some(who) => who,
        };
        let _ = monitor.turn(who, quantum);
        left -= 1;
    }
}
