//! The scopes of the statements of bodies.
ghost use Rattle.std.specs.Prelude.{◌≡◌};
ghost use Rattle.spl_body_scopes.specs.spl_code_scopes.Scopes.{scope_of};
ghost use Rattle.spl_body_scopes.specs.Levels.{level_of};
ghost use Rattle.spl_body_scopes.specs.Found.{calls_in};
ghost use Rattle.spl_statement_scopes.specs.Scopes.{StatesRoutine, StatesInner, StatesMain, StatesMainInner};

use spl_body_scopes::spl_code_scopes::{Entries, Scope};
use spl_body_scopes::{Level, scope};

/// The scope of the statements of a body. Its first level has the results too, as `with_results` gives it: that of a
/// procedure or of a main body has nothing else, that of a subroutine the parameters.
pub fn statement_scope<'t>(
    first: &'t Level,
    own: &'t Level,
    outer: &'t Level,
    entries: Entries<'t>,
) -> Scope<'t>
    ensures routine { StatesRoutine (level_of first.now) (level_of own.now) (level_of outer.now) (calls_in entries.entry) (scope_of result) }
    ensures inner { StatesInner (level_of first.now) (level_of own.now) (level_of outer.now) (calls_in entries.entry) (scope_of result) }
    ensures main { StatesMain (level_of first.now) (level_of own.now) (level_of outer.now) (calls_in entries.entry) (scope_of result) }
    ensures main_inner { StatesMainInner (level_of first.now) (level_of own.now) (level_of outer.now) (calls_in entries.entry) (scope_of result) }
{
    scope(first, own, outer, entries)
}
