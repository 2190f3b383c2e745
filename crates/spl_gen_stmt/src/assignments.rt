//! Targets of assignments: their indexes, and what stores a value in them.
ghost use Rattle.std.specs.Prelude.{OnOk};
ghost use Rattle.spl_tree.specs.Views as view;
ghost use Rattle.spl_tree.specs.Views.{letters};
ghost use Rattle.spl_tree.specs.Trees.{trees};
ghost use Rattle.spl_statement_code.specs.spl_code.Parts.{pieces};
ghost use Rattle.spl_statement_code.specs.spl_code.Operands.{at_place};
ghost use Rattle.spl_statement_code.specs.spl_code.Stores as stores;
ghost use Rattle.spl_statement_code.specs.spl_code.Code.{is_indexed};
ghost use Rattle.spl_statement_code.specs.spl_code.Appends.{Appends};
ghost use Rattle.spl_gen_expr.specs.spl_code_scopes.Scopes.{scope_of};
ghost use Rattle.spl_statement_code.specs.Assignments as targets;

use spl_branch::Code;
use spl_gen_expr::{Aim, Scope, small_constant, write};
use spl_operations::mode_of;
use spl_stored::{Bits, assigned_access, deposit_at, store, store_at};
use spl_tree::{Kind, Name, Ref, Target};
use std::alloc::AllocError;

/// Appends the index of a reference, where it has one.
fn reference_index(
    scope: &Scope<'_>,
    r: &Ref,
    waiting: u64,
    code: &mut Code,
) -> Result<(), AllocError>
    ensures { OnOk result (Appends (targets.reference_index (scope_of scope.now) (view.reference r.now) waiting) code.old code.new) }
{
    match &r.index {
        Some(index) => {
            let _ = write(scope, index, Aim::Value, waiting, code)?;
            Ok(())
        }
        None => Ok(()),
    }
}

/// Appends the index of a target, where it has one.
pub fn target_index(
    scope: &Scope<'_>,
    to: &Target,
    waiting: u64,
    code: &mut Code,
) -> Result<(), AllocError>
    ensures { OnOk result (Appends (targets.target_index (scope_of scope.now) (view.target_tree to.now) waiting) code.old code.new) }
{
    match to {
        Target::Plain(r) => reference_index(scope, r, waiting, code),
        Target::Field { of, .. } => reference_index(scope, of, waiting, code),
        Target::Address(..) => Ok(()),
    }
}

/// Appends the store in a reference.
fn reference_store(
    scope: &Scope<'_>,
    r: &Ref,
    waiting: u64,
    code: &mut Code,
) -> Result<(), AllocError>
    ensures { OnOk result (Appends (pieces (targets.reference_stored (scope_of scope.now) (view.reference r.now) waiting)) code.old code.new) }
{
    match scope.places.find(&r.name) {
        Some(place) => {
            let access = assigned_access(scope.names.find(&r.name));
            store_at(code, access, r.index.is_some(), waiting, place)
        }
        None => Ok(()),
    }
}

/// Appends the store in a bit field of a name, with its index or not.
fn field_store(
    scope: &Scope<'_>,
    name: &Name,
    indexed: bool,
    start: u64,
    size: u64,
    waiting: u64,
    code: &mut Code,
) -> Result<(), AllocError>
    ensures { OnOk result (Appends (pieces (targets.field_of_name_stored (scope_of scope.now) (letters name.now) indexed start size waiting)) code.old code.new) }
{
    if size < 1 || 16 < size || 16 - size < start {
        return Ok(());
    }
    let bits = Bits { start, size };
    match scope.places.find(name) {
        Some(place) => {
            let access = assigned_access(scope.names.find(name));
            deposit_at(code, access, bits, indexed, waiting, place)
        }
        None => Ok(()),
    }
}

/// Appends the store in a pointer's own word.
fn pointer_store(
    scope: &Scope<'_>,
    name: &Name,
    waiting: u64,
    code: &mut Code,
) -> Result<(), AllocError>
    ensures { OnOk result (Appends (pieces (at_place ((scope_of scope.now).places (letters name.now)) (λ place. stores.pointer_stored waiting place))) code.old code.new) }
{
    match scope.places.find(name) {
        Some(place) => store(code, Kind::Integer, false, false, mode_of(waiting, place)?),
        None => Ok(()),
    }
}

/// Appends the store of the value on top in a target, where so many words waited before its index and the value.
pub fn target_store(
    scope: &Scope<'_>,
    to: &Target,
    waiting: u64,
    code: &mut Code,
) -> Result<(), AllocError>
    ensures { OnOk result (Appends (pieces (targets.target_stored (scope_of scope.now) (view.target_tree to.now) waiting)) code.old code.new) }
{
    match to {
        Target::Plain(r) => reference_store(scope, r, waiting, code),
        Target::Field { of, start, length } => {
            let start = small_constant(&scope.names, start);
            let size = small_constant(&scope.names, length);
            field_store(
                scope,
                &of.name,
                of.index.is_some(),
                start,
                size,
                waiting,
                code,
            )
        }
        Target::Address(name, _) => pointer_store(scope, name, waiting, code),
    }
}
