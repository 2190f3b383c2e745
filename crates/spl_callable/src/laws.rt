//! The law of this crate, as the contract of a function that does nothing but call those whose laws it stands on.
ghost use Rattle.spl_callable.specs.Laws.{CallablesFollow};

use spl_callees::{
    routines_are_procedures, settable_procedures_are_called, subroutine_bodies_are_subroutines,
    subroutines_are_called,
};
use spl_inners::{gates_are_served, inners_find, inners_land, names_mean};
use spl_link_routes::links_find;
use spl_mains::{covered_bodies_follow, covered_inners_follow};
use spl_readings::{bodies_read_alike, statements_read_alike};

/// Calls of procedures and subroutines that may be called.
pub fn callables_follow()
    ensures { CallablesFollow }
{
    settable_procedures_are_called();
    subroutines_are_called();
    links_find();
    inners_find();
    covered_bodies_follow();
    covered_inners_follow();
    routines_are_procedures();
    subroutine_bodies_are_subroutines();
    bodies_read_alike();
    statements_read_alike();
    inners_land();
    names_mean();
    gates_are_served();
}
