//! The laws of worlds, each as a call without a body: its contract is the law.
ghost use Rattle.std.specs.Prelude.{ℕ, List};
ghost use Rattle.mpe_worlds.specs.declared.event.Event.{Event};
ghost use Rattle.mpe_worlds.specs.Worlds.{World};
ghost use Rattle.mpe_worlds.specs.Turns.{turned};
ghost use Rattle.mpe_worlds.specs.Events.{Played, played};
ghost use Rattle.mpe_worlds.specs.Alone.{EachGoesOn};

/// A turn leaves each session where the flat machine of its own program stands after as many steps as it has made.
pub fn turns_leave_each_alone()
    ensures { (codes : List (List (List ℕ))) (who quantum : ℕ) (w : World) → EachGoesOn codes w (turned codes who quantum w) }
{}

/// So does every list of events: turns of any sessions with any quanta, and evictions of any segments.
pub fn events_leave_each_alone()
    ensures { (codes : List (List (List ℕ))) (p : Played) (events : List Event) → EachGoesOn codes p.world (played codes p events).world }
{}
