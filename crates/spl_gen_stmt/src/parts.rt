//! The parts of statements in which no other statement stands.
ghost use Rattle.std.specs.Prelude.{◌<◌, true, length, map, OnOk};
ghost use Rattle.spl_tree.specs.declared.names_and_places.At.{At};
ghost use Rattle.spl_tree.specs.Views as view;
ghost use Rattle.spl_tree.specs.Views.{letters};
ghost use Rattle.spl_tree.specs.Trees.{trees};
ghost use Rattle.spl_statement_code.specs.spl_code.Parts.{pieces};
ghost use Rattle.spl_statement_code.specs.spl_code.Code as written;
ghost use Rattle.spl_statement_code.specs.spl_code.Appends.{Appends};
ghost use Rattle.spl_gen_expr.specs.spl_code_scopes.Scopes.{scope_of};
ghost use Rattle.spl_statement_code.specs.Assignments as targets;
ghost use Rattle.spl_statement_code.specs.Effects as effects;
ghost use Rattle.spl_statement_code.specs.Statements as shapes;

use crate::assignments::{target_index, target_store};
use crate::effects::effect as append_effect;
use hp_instr::immediate;
use spl_branch::Code;
use spl_gen_expr::{Aim, Scope, named, relate, write};
use spl_operations::spl_spots::plus;
use spl_operations::{Access, immediate as put_immediate, mode_of};
use spl_stored::{behind_target, count_at, drop_result, from_top, result_of};
use spl_tree::{Effect, Expr, Name, Target, Test};
use std::alloc::AllocError;

/// Appends a test, which leads to a mark where it is false.
pub fn tested(
    scope: &Scope<'_>,
    test: &Test,
    fail: usize,
    waiting: u64,
    code: &mut Code,
) -> Result<(), AllocError>
    requires { fail < length code.old.marks.items }
    ensures { OnOk result (Appends (shapes.tested (scope_of scope.now) (view.test_tree test.now) fail waiting) code.old code.new) }
{
    match test {
        Test::Of(e) => {
            let _ = write(scope, e, Aim::Test(fail), waiting, code)?;
            Ok(())
        }
        Test::Code(relation) => relate(code, *relation, fail),
    }
}

/// Appends an assignment.
#[tactic(auto, using(spl_operations::proofs::PutLemmas::joins))]
pub fn assign(
    scope: &Scope<'_>,
    to: &Target,
    value: &Expr,
    waiting: u64,
    code: &mut Code,
) -> Result<(), AllocError>
    ensures { OnOk result (Appends (targets.assigned (scope_of scope.now) (view.target_tree to.now) (λ j. written.code (scope_of scope.now) (view.expression value.now) written.as_value j) waiting) code.old code.new) }
{
    target_index(scope, to, waiting, code)?;
    let _ = write(scope, value, Aim::Value, behind_target(to, waiting)?, code)?;
    target_store(scope, to, waiting, code)
}

/// Appends an assignment of the answer of a MOVE or a SCAN.
#[tactic(auto, using(spl_operations::proofs::PutLemmas::joins))]
pub fn assign_effect(
    scope: &Scope<'_>,
    to: &Target,
    effect: &Effect,
    waiting: u64,
    code: &mut Code,
) -> Result<(), AllocError>
    ensures { OnOk result (Appends (targets.assigned (scope_of scope.now) (view.target_tree to.now) (λ j. effects.effect (scope_of scope.now) true (view.effect_tree effect.now) j) waiting) code.old code.new) }
{
    target_index(scope, to, waiting, code)?;
    append_effect(scope, true, effect, behind_target(to, waiting)?, code)?;
    target_store(scope, to, waiting, code)
}

/// The same for the variable that has a name.
fn counter(scope: &Scope<'_>, name: &Name, waiting: u64, code: &mut Code) -> Result<(), AllocError>
    ensures { OnOk result (Appends (pieces (shapes.counter (scope_of scope.now) (letters name.now) waiting)) code.old code.new) }
{
    match scope.places.find(name) {
        Some(place) => {
            let access = Access::of(scope.names.find(name));
            count_at(code, access, from_top(place), mode_of(waiting, place)?)
        }
        None => Ok(()),
    }
}

/// Appends the step of a FOR, 1 where it has none.
fn step_value(
    scope: &Scope<'_>,
    step: &Option<Expr>,
    waiting: u64,
    code: &mut Code,
) -> Result<(), AllocError>
    ensures { OnOk result (Appends (shapes.step_value (scope_of scope.now) (trees (view.optional step.now)) waiting) code.old code.new) }
{
    match step {
        Some(e) => {
            let _ = write(scope, e, Aim::Value, waiting, code)?;
            Ok(())
        }
        None => put_immediate(code, immediate::LDI, 1),
    }
}

/// Appends what stands before the turns of a FOR.
#[tactic(auto, using(spl_operations::proofs::PutLemmas::joins))]
pub fn counting(
    scope: &Scope<'_>,
    name: &Name,
    first: &Expr,
    step: &Option<Expr>,
    last: &Expr,
    waiting: u64,
    code: &mut Code,
) -> Result<(), AllocError>
    ensures { OnOk result (Appends (shapes.counting (scope_of scope.now) (letters name.now) (view.expression first.now) (trees (view.optional step.now)) (view.expression last.now) waiting) code.old code.new) }
{
    let _ = write(scope, first, Aim::Value, waiting, code)?;
    counter(scope, name, waiting, code)?;
    step_value(scope, step, plus(waiting, 1)?, code)?;
    let _ = write(scope, last, Aim::Value, plus(waiting, 2)?, code)?;
    Ok(())
}

/// Appends a call whose result is not used.
#[tactic(auto, using(crate::proofs::PartLemmas::call_dropped_is))]
pub fn call(
    scope: &Scope<'_>,
    name: &Name,
    args: &[Expr],
    waiting: u64,
    code: &mut Code,
) -> Result<(), AllocError>
    ensures { OnOk result ((at : At) → Appends (shapes.call_dropped (scope_of scope.now) (letters name.now) (trees (map view.expression args.now)) at waiting) code.old code.new) }
{
    named(scope, name, args, waiting, code)?;
    drop_result(code, result_of(scope.names.find(name)))
}
