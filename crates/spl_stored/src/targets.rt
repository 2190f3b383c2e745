//! How targets of assignments lead to words, and what waits behind their indexes.
ghost use Rattle.std.specs.Prelude.{◌≡◌, option_map, IfOk};
ghost use Rattle.spl_tree.specs.Views as view;
ghost use Rattle.spl_sorts.specs.spl_meaning.Pending as pending;
ghost use Rattle.spl_sorts.specs.Sorts.{sort_of};
ghost use Rattle.spl_operations.specs.Views.{access_view};
ghost use Rattle.spl_statement_code.specs.Assignments as targets;

use spl_operations::Access;
use spl_operations::spl_spots::plus;
use spl_sorts::Sort;
use spl_tree::{Ref, Target};
use std::alloc::AllocError;

/// How what a name stands for on the left of := leads to a word.
pub fn assigned_access(sort: Option<&Sort>) -> Access
    ensures { access_view result ≡ targets.assigned_access (option_map (λ s. sort_of s.now) sort.entry) }
{
    match sort {
        Some(Sort::Procedure(profile) | Sort::Subroutine(profile)) => match profile.result {
            Some(kind) => Access::Own(kind),
            None => Access::Nowhere,
        },
        _ => Access::of(sort),
    }
}

/// What waits behind the index of a reference.
fn behind_index(r: &Ref, waiting: u64) -> Result<u64, AllocError>
    ensures { IfOk result (λ k. k ≡ pending.behind_index (view.reference r.now) waiting) }
{
    match r.index {
        Some(_) => plus(waiting, 1),
        None => Ok(waiting),
    }
}

/// What waits while the value for a target is worked out.
pub fn behind_target(to: &Target, waiting: u64) -> Result<u64, AllocError>
    ensures { IfOk result (λ k. k ≡ pending.waiting (view.target_tree to.now) waiting) }
{
    match to {
        Target::Plain(r) => behind_index(r, waiting),
        Target::Field { of, .. } => behind_index(of, waiting),
        Target::Address(..) => Ok(waiting),
    }
}
