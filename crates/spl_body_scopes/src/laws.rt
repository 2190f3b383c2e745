//! What holds of the scopes that are found along a unit's declarations, as the contracts of functions that do nothing.
ghost use Rattle.spl_body_scopes.specs.Found.{RoutineResults, InnerResults, MainResults, MainInnerResults};
ghost use Rattle.spl_body_scopes.specs.Units.{UnitsBegin, UnitsEnter, UnitsGoOn};
ghost use Rattle.spl_body_scopes.specs.Walks.{WalksBegin, WalksGoOn, RoutineScopes, InnerScopes, MainScopes, MainInnerScopes};

/// A program has all units left at first, and behind each those behind it, the data of which stand behind its own.
pub fn programs_are_walked()
    ensures begin { UnitsBegin }
    ensures enter { UnitsEnter }
    ensures go_on { UnitsGoOn }
{}

/// Before its first declaration a unit of a program has all of them left, and behind each those behind it.
pub fn units_are_walked()
    ensures begin { WalksBegin }
    ensures go_on { WalksGoOn }
{}

/// Through the levels of a procedure its scope is seen, in the state before it; and so it is with its subroutines.
pub fn routine_scopes_are_found()
    ensures routine { RoutineScopes }
    ensures inner { InnerScopes }
{}

/// Through the level of a unit that is no subprogram, behind all declarations, the scope of its main body is seen; and so it
/// is with its subroutines.
pub fn main_scopes_are_found()
    ensures main { MainScopes }
    ensures inner { MainInnerScopes }
{}

/// The results that bodies may assign: in a subroutine its own, and that of the procedure around it.
pub fn results_are_found()
    ensures routine { RoutineResults }
    ensures inner { InnerResults }
    ensures main { MainResults }
    ensures main_inner { MainInnerResults }
{}
