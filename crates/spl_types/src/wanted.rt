//! FORWARDs that never get their bodies.
ghost use Rattle.std.specs.Prelude.{◌≡◌, map, OnOk};
ghost use Rattle.spl_tree.specs.DeclarationTrees.{declarations};
ghost use Rattle.spl_tree.specs.Spells.{declaration};
ghost use Rattle.spl_sound.specs.spl_meaning.Names.{find};
ghost use Rattle.spl_sorts.specs.Tables.{table_of};
ghost use Rattle.spl_uses.specs.spl_found.FoundUnits.{found_forwards};
ghost use Rattle.spl_types.specs.Forwards.{bodied, forward_by};

use spl_lists::declare;
use spl_sorts::{Report, Sort, Table};
use spl_tree::Decl;
use std::alloc::{AllocError, Global};

/// A declaration before those with these bodies. 19: it is a FORWARD with none of them.
fn before(item: &Decl, bodies: &mut Table, report: &mut Report) -> Result<(), AllocError>
    ensures bodies { OnOk result (find (table_of bodies.new) ≡ bodied (find (table_of bodies.old)) (declaration item.now)) }
    ensures first { OnOk result (report.new ≡ forward_by (find (table_of bodies.old)) (declaration item.now) report.old) }
{
    match item {
        Decl::Forward(heading) => report.unless(bodies.has(&heading.name), 19, heading.at),
        Decl::Procedure(heading, _) => declare(bodies, &heading.name, Sort::Label)?,
        Decl::Data { .. }
        | Decl::Equate(_)
        | Decl::Intrinsic(_)
        | Decl::Label(_)
        | Decl::External(_)
        | Decl::Subroutine(..) => {}
    }
    Ok(())
}

/// FORWARDs that never get their bodies. 19: each of them.
#[tactic(auto, using(crate::proofs::ForwardLaws::forward_steps))]
pub fn forwards(alloc: Global, items: &[Decl], report: &mut Report) -> Result<(), AllocError>
    ensures { OnOk result (report.new ≡ found_forwards (declarations (map declaration items.now)) report.old) }
{
    let mut bodies = Table::new(alloc);
    for i in 0..items.len() {
        before(&items[items.len() - 1 - i], &mut bodies, report)?;
    }
    Ok(())
}
