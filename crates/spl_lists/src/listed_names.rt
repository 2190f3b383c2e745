//! Declarations that list names: LABEL and INTRINSIC.
ghost use Rattle.std.specs.Prelude.{◌≡◌, OnOk, map};
ghost use Rattle.spl_tree.specs.Spells.{placed};
ghost use Rattle.spl_sorts.specs.spl_meaning.Names.{find};
ghost use Rattle.spl_uses.specs.spl_found.OwnNames.{behind_labels, behind_intrinsics};
ghost use Rattle.spl_uses.specs.spl_found.FoundDeclarations as found;
ghost use Rattle.spl_sorts.specs.Tables.{table_of};

use crate::own::{again, declare};
use spl_profiles::{intrinsic_named, intrinsic_sort};
use spl_sorts::{Report, Sort, Table};
use spl_tree::{At, Name};
use std::alloc::{AllocError, Global};

/// Declares the names of a LABEL. 2: a name is declared twice.
#[tactic(auto, using(crate::proofs::ListWalks::label_steps))]
pub fn labels(here: &mut Table, names: &[(Name, At)], report: &mut Report) -> Result<(), AllocError>
    ensures first { OnOk result (report.new ≡ found.found_labels (find (table_of here.old)) (map placed names.now) report.old) }
    ensures names { OnOk result (find (table_of here.new) ≡ behind_labels (find (table_of here.old)) (map placed names.now)) }
{
    for (name, at) in names {
        again(here, name, *at, report);
        declare(here, name, Sort::Label)?;
    }
    Ok(())
}

/// Declares the names of an INTRINSIC. 2: a name is declared twice. 26: it is that of no intrinsic.
#[tactic(auto, using(crate::proofs::ListWalks::intrinsic_steps))]
pub fn intrinsics(
    alloc: Global,
    here: &mut Table,
    names: &[(Name, At)],
    report: &mut Report,
) -> Result<(), AllocError>
    ensures first { OnOk result (report.new ≡ found.found_intrinsics (find (table_of here.old)) (map placed names.now) report.old) }
    ensures names { OnOk result (find (table_of here.new) ≡ behind_intrinsics (find (table_of here.old)) (map placed names.now)) }
{
    for (name, at) in names {
        again(here, name, *at, report);
        let intrinsic = intrinsic_named(name);
        report.unless(intrinsic.is_some(), 26, *at);
        declare(here, name, intrinsic_sort(alloc, intrinsic)?)?;
    }
    Ok(())
}
