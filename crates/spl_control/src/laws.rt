//! The laws of this crate, as the contracts of functions that do nothing.
ghost use Rattle.spl_control.specs.Sequences.{IdleCodePerforms, NothingPerforms, ListsPerform};
ghost use Rattle.spl_control.specs.Laws.{ChoicesFollow, LoopsFollow, RepeatsFollow, LandingsFollow};

/// A test, and then one of two sides.
pub fn choices_follow()
    ensures { ChoicesFollow }
{}

/// A loop with its test before its body, and one with its test behind it.
pub fn loops_follow()
    ensures before { LoopsFollow }
    ensures behind { RepeatsFollow }
{}

/// A list that takes the jumps to its labels.
pub fn landings_follow()
    ensures { LandingsFollow }
{}

/// The code of statements one behind the other, wherever it stands: none, the empty one, and one before others.
pub fn lists_perform()
    ensures idle { IdleCodePerforms }
    ensures none { NothingPerforms }
    ensures more { ListsPerform }
{}
