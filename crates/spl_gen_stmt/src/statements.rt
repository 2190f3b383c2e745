//! Statements along the tree.
//!
//! The recursion goes as deep as statements stand in one another; its depth is bounded by the nesting that the grammar
//! allows. The statements of a list and the arms of a CASE follow one another in loops.
ghost use Rattle.std.specs.Prelude.{◌≡◌, ◌<◌, ◌++◌, length, map, option_map, OnOk};
ghost use Rattle.spl_tree.specs.Views as view;
ghost use Rattle.spl_tree.specs.StatementTrees.{statements};
ghost use Rattle.spl_statement_code.specs.spl_code.Parts.{pieces, piece, ◌⨟◌};
ghost use Rattle.spl_statement_code.specs.spl_code.Code as written;
ghost use Rattle.spl_gen_expr.specs.spl_code_scopes.Scopes.{scope_of};
ghost use Rattle.spl_statement_code.specs.Landings.{IsMade};
ghost use Rattle.spl_statement_code.specs.Statements as shapes;
ghost use Rattle.spl_statement_code.specs.Labels.{AppendsSetting, CanBeSet, marks_inside, marks_within};
ghost use Rattle.spl_gen_stmt.specs.Contexts.{context_of};

use crate::contexts::Context;
use crate::effects::effect;
use crate::jumps::{go_to, jump, land};
use crate::parts::{assign, assign_effect, call, counting, tested};
use hp_instr::{Op, immediate};
use spl_branch::Code;
use spl_gen_expr::{Aim, lead, relate, set_mark, two_marks, write};
use spl_operations::spl_spots::plus;
use spl_operations::{immediate as put_immediate, operate};
use spl_stored::{begin, count_to, idle, new_mark};
use spl_tree::{Expr, Stmt, Test};
use std::alloc::AllocError;

/// Appends a statement, while so many words wait.
///
/// A sum of words beyond `u64` is an error, as want of memory is.
#[cycle(statements)]
#[tactic(auto)]
pub fn statement(
    context: &Context<'_>,
    s: &Stmt,
    waiting: u64,
    code: &mut Code,
) -> Result<(), AllocError>
    requires made { IsMade (context_of context.now) (length code.old.marks.items) }
    requires free { CanBeSet code.old.marks.items (marks_inside (context_of context.now) (view.statement s.now)) }
    ensures { OnOk result (AppendsSetting (marks_inside (context_of context.now) (view.statement s.now)) (shapes.statement (context_of context.now) (view.statement s.now) waiting) code.old code.new) }
{
    match s {
        Stmt::Empty => idle(code),
        Stmt::Labelled { name, body, .. } => {
            land(context, name, code)?;
            idle(code)?;
            statement(context, body, waiting, code)
        }
        Stmt::Block(list) => {
            idle(code)?;
            listed(context, list, waiting, code)
        }
        Stmt::If { test, yes, no, at } => {
            begin(code, *at)?;
            match no {
                None => choose(context, test, yes, waiting, code),
                Some(no) => choose_or(context, test, yes, no, waiting, code),
            }
        }
        Stmt::While { test, body, .. } => repeat_while(context, test, body, waiting, code),
        Stmt::Until { body, test, .. } => repeat_until(context, body, test, waiting, code),
        Stmt::For {
            name,
            first,
            step,
            last,
            body,
            at,
        } => {
            begin(code, *at)?;
            counting(context.scope, name, first, step, last, waiting, code)?;
            turn(context, body, plus(waiting, 3)?, code)
        }
        Stmt::Case { of, arms, at } => {
            begin(code, *at)?;
            choose_among(context, of, arms, waiting, code)
        }
        Stmt::Goto(name, at) => {
            begin(code, *at)?;
            go_to(context, name, waiting, code)
        }
        Stmt::Return(at) => {
            begin(code, *at)?;
            jump(code, waiting, context.leave)
        }
        Stmt::Assign { to, value, at } => {
            begin(code, *at)?;
            assign(context.scope, to, value, waiting, code)
        }
        Stmt::AssignEffect { to, effect, at } => {
            begin(code, *at)?;
            assign_effect(context.scope, to, effect, waiting, code)
        }
        Stmt::Do(e, at) => {
            begin(code, *at)?;
            effect(context.scope, false, e, waiting, code)
        }
        Stmt::Call { name, args, at } => {
            begin(code, *at)?;
            call(context.scope, name, args, waiting, code)
        }
    }
}

/// Appends the statements of a list, one behind the other.
#[cycle(statements)]
#[tactic(auto)]
pub fn listed(
    context: &Context<'_>,
    list: &[Stmt],
    waiting: u64,
    code: &mut Code,
) -> Result<(), AllocError>
    requires made { IsMade (context_of context.now) (length code.old.marks.items) }
    requires free { CanBeSet code.old.marks.items (marks_within (context_of context.now) (statements (map view.statement list.now))) }
    ensures { OnOk result (AppendsSetting (marks_within (context_of context.now) (statements (map view.statement list.now))) (shapes.listed (context_of context.now) (statements (map view.statement list.now)) waiting) code.old code.new) }
{
    for s in list {
        statement(context, s, waiting, code)?;
    }
    Ok(())
}

/// Appends an IF without ELSE.
#[cycle(statements)]
#[tactic(auto)]
fn choose(
    context: &Context<'_>,
    test: &Test,
    then_part: &Stmt,
    waiting: u64,
    code: &mut Code,
) -> Result<(), AllocError>
    requires made { IsMade (context_of context.now) (length code.old.marks.items) }
    requires free { CanBeSet code.old.marks.items (marks_inside (context_of context.now) (view.statement then_part.now)) }
    ensures { OnOk result (AppendsSetting (marks_inside (context_of context.now) (view.statement then_part.now)) (shapes.chosen (λ fail. shapes.tested (scope_of context.now.scope.now) (view.test_tree test.now) fail waiting) (shapes.statement (context_of context.now) (view.statement then_part.now) waiting)) code.old code.new) }
{
    let fail = new_mark(code)?;
    tested(context.scope, test, fail, waiting, code)?;
    statement(context, then_part, waiting, code)?;
    set_mark(code, fail)
}

/// Appends an IF with ELSE: behind the first part the second is passed.
#[cycle(statements)]
#[tactic(auto)]
fn choose_or(
    context: &Context<'_>,
    test: &Test,
    then_part: &Stmt,
    else_part: &Stmt,
    waiting: u64,
    code: &mut Code,
) -> Result<(), AllocError>
    requires made { IsMade (context_of context.now) (length code.old.marks.items) }
    requires free { CanBeSet code.old.marks.items (marks_inside (context_of context.now) (view.statement then_part.now) ++ marks_inside (context_of context.now) (view.statement else_part.now)) }
    ensures { OnOk result (AppendsSetting (marks_inside (context_of context.now) (view.statement then_part.now) ++ marks_inside (context_of context.now) (view.statement else_part.now)) (shapes.chosen_or (λ fail. shapes.tested (scope_of context.now.scope.now) (view.test_tree test.now) fail waiting) (shapes.statement (context_of context.now) (view.statement then_part.now) waiting) (shapes.statement (context_of context.now) (view.statement else_part.now) waiting)) code.old code.new) }
{
    let fail = two_marks(code)?;
    let over = fail + 1;
    tested(context.scope, test, fail, waiting, code)?;
    statement(context, then_part, waiting, code)?;
    lead(code, over)?;
    set_mark(code, fail)?;
    statement(context, else_part, waiting, code)?;
    set_mark(code, over)
}

/// Appends a WHILE: the test stands before the body, from which the loop goes back to it.
#[cycle(statements)]
#[tactic(auto)]
fn repeat_while(
    context: &Context<'_>,
    test: &Expr,
    body: &Stmt,
    waiting: u64,
    code: &mut Code,
) -> Result<(), AllocError>
    requires made { IsMade (context_of context.now) (length code.old.marks.items) }
    requires free { CanBeSet code.old.marks.items (marks_inside (context_of context.now) (view.statement body.now)) }
    ensures { OnOk result (AppendsSetting (marks_inside (context_of context.now) (view.statement body.now)) (shapes.repeated_while (λ end. written.code (scope_of context.now.scope.now) (view.expression test.now) (written.as_test end) waiting) (shapes.statement (context_of context.now) (view.statement body.now) waiting)) code.old code.new) }
{
    let next = two_marks(code)?;
    let end = next + 1;
    set_mark(code, next)?;
    let _ = write(context.scope, test, Aim::Test(end), waiting, code)?;
    statement(context, body, waiting, code)?;
    lead(code, next)?;
    set_mark(code, end)
}

/// Appends a DO UNTIL: the test stands behind the body, and leads back where it is false.
#[cycle(statements)]
#[tactic(auto)]
fn repeat_until(
    context: &Context<'_>,
    body: &Stmt,
    test: &Expr,
    waiting: u64,
    code: &mut Code,
) -> Result<(), AllocError>
    requires made { IsMade (context_of context.now) (length code.old.marks.items) }
    requires free { CanBeSet code.old.marks.items (marks_inside (context_of context.now) (view.statement body.now)) }
    ensures { OnOk result (AppendsSetting (marks_inside (context_of context.now) (view.statement body.now)) (shapes.repeated_until (shapes.statement (context_of context.now) (view.statement body.now) waiting) (λ again. written.code (scope_of context.now.scope.now) (view.expression test.now) (written.as_test again) waiting)) code.old code.new) }
{
    let again = new_mark(code)?;
    idle(code)?;
    set_mark(code, again)?;
    statement(context, body, waiting, code)?;
    let _ = write(context.scope, test, Aim::Test(again), waiting, code)?;
    Ok(())
}

/// Appends the turns of a FOR, behind address, step and limit.
#[cycle(statements)]
#[tactic(auto)]
fn turn(context: &Context<'_>, body: &Stmt, waiting: u64, code: &mut Code) -> Result<(), AllocError>
    requires made { IsMade (context_of context.now) (length code.old.marks.items) }
    requires free { CanBeSet code.old.marks.items (marks_inside (context_of context.now) (view.statement body.now)) }
    ensures { OnOk result (AppendsSetting (marks_inside (context_of context.now) (view.statement body.now)) (shapes.turns (shapes.statement (context_of context.now) (view.statement body.now) waiting)) code.old code.new) }
{
    let again = two_marks(code)?;
    let end = again + 1;
    count_to(code, false, again)?;
    lead(code, end)?;
    set_mark(code, again)?;
    statement(context, body, waiting, code)?;
    count_to(code, true, again)?;
    set_mark(code, end)
}

/// Appends a CASE: behind the arms, none of which was taken, the value is deleted.
#[cycle(statements)]
#[tactic(auto, unfolding(hp_instr::specs::Fields::is_op))]
fn choose_among(
    context: &Context<'_>,
    of: &Expr,
    list: &[Stmt],
    waiting: u64,
    code: &mut Code,
) -> Result<(), AllocError>
    requires made { IsMade (context_of context.now) (length code.old.marks.items) }
    requires free { CanBeSet code.old.marks.items (marks_within (context_of context.now) (statements (map view.statement list.now))) }
    ensures { OnOk result (AppendsSetting (marks_within (context_of context.now) (statements (map view.statement list.now))) (shapes.chosen_among (written.code (scope_of context.now.scope.now) (view.expression of.now) written.as_value waiting) (λ end. shapes.arms (context_of context.now) (statements (map view.statement list.now)) waiting end)) code.old code.new) }
{
    let end = new_mark(code)?;
    let _ = write(context.scope, of, Aim::Value, waiting, code)?;
    arms(context, list, end, waiting, code)?;
    operate(code, Op::DEL)?;
    set_mark(code, end)
}

/// Appends the arms of a CASE, each of which leads to its end.
#[cycle(statements)]
#[tactic(auto)]
fn arms(
    context: &Context<'_>,
    list: &[Stmt],
    end: usize,
    waiting: u64,
    code: &mut Code,
) -> Result<(), AllocError>
    requires made { IsMade (context_of context.now) (length code.old.marks.items) }
    requires free { CanBeSet code.old.marks.items (marks_within (context_of context.now) (statements (map view.statement list.now))) }
    requires end { end < length code.old.marks.items }
    ensures { OnOk result (AppendsSetting (marks_within (context_of context.now) (statements (map view.statement list.now))) (shapes.arms (context_of context.now) (statements (map view.statement list.now)) waiting end) code.old code.new) }
{
    for s in list {
        arm(context, s, end, waiting, code)?;
    }
    Ok(())
}

/// Appends an arm of a CASE, for the value 0: behind it the value is one less.
#[cycle(statements)]
#[tactic(auto, unfolding(hp_instr::specs::Fields::is_op))]
fn arm(
    context: &Context<'_>,
    body: &Stmt,
    end: usize,
    waiting: u64,
    code: &mut Code,
) -> Result<(), AllocError>
    requires made { IsMade (context_of context.now) (length code.old.marks.items) }
    requires free { CanBeSet code.old.marks.items (marks_inside (context_of context.now) (view.statement body.now)) }
    requires end { end < length code.old.marks.items }
    ensures { OnOk result (AppendsSetting (marks_inside (context_of context.now) (view.statement body.now)) (shapes.arm (shapes.statement (context_of context.now) (view.statement body.now) waiting) end) code.old code.new) }
{
    let next = new_mark(code)?;
    operate(code, Op::TEST)?;
    relate(code, 0, next)?;
    operate(code, Op::DEL)?;
    statement(context, body, waiting, code)?;
    lead(code, end)?;
    set_mark(code, next)?;
    put_immediate(code, immediate::LDI, 1)?;
    operate(code, Op::LSUB)
}
