//! Expressions and conditions along the tree. A part answers what it is, so that no kind is worked out twice.
//!
//! Operands follow one another as in the text. The recursion goes as deep as the tree; its depth is bounded by the nesting
//! that the grammar allows.
ghost use Rattle.std.specs.Prelude.{◌≡◌, ◌<◌, true, length, map, option_map, OnOk, IfOk};
ghost use Rattle.spl_tree.specs.Views as view;
ghost use Rattle.spl_tree.specs.Views.{letters};
ghost use Rattle.spl_tree.specs.Trees.{trees};
ghost use Rattle.spl_sorts.specs.spl_meaning.Kinds as kinds;
ghost use Rattle.spl_sorts.specs.spl_meaning.References.{access_of};
ghost use Rattle.spl_sorts.specs.spl_meaning.Values.{sense_of};
ghost use Rattle.spl_tree.specs.declared.expressions.Kind.TheVariants as kind;
ghost use Rattle.spl_sorts.specs.Sorts.{operand_of, sort_of};
ghost use Rattle.spl_sorts.specs.Profiles.{formal_of, profile_of};
ghost use Rattle.spl_sorts.specs.Tables.{names_of};
ghost use Rattle.spl_operations.specs.spl_code.Parts.{pieces, ◌⨟◌};
ghost use Rattle.spl_operations.specs.spl_code.Calls.{result_room};
ghost use Rattle.spl_operations.specs.spl_code.Operands.{leads_to_doubles};
ghost use Rattle.spl_operations.specs.spl_code.Code as written;
ghost use Rattle.spl_operations.specs.spl_code.Appends.{Appends};
ghost use Rattle.spl_code_scopes.specs.Scopes.{scope_of};
ghost use Rattle.spl_operations.specs.Views.{access_view};
ghost use Rattle.spl_gen_expr.specs.Marks.{aim_view, Known};
ghost use Rattle.spl_gen_expr.specs.Phrases.{is_condition, value_part, test_part, either_part, both_part, relation_part, text_part, bytes_part, index_part, call_part, named_part, element_part, argument_part, equated, called_by};

use crate::calls::{call_name, call_procedure, call_subroutine, make_room, take_result};
use crate::marks::{Aim, close, end, lead, open, relate, set_mark, two_marks};
use crate::texts::{compare_bytes, compare_text};
use crate::words::{
    formal_words, next_formal, operand_width, other_formals, relation_number, result_words,
    small_constant, text_bytes,
};
use spl_branch::Code;
use spl_code_scopes::Scope;
use spl_operations::spl_spots::plus;
use spl_operations::{
    Access, Class, address_at, compare, convert, extract, index_to_x, load_at, mode_of,
    operate_on_one, operate_on_two, pass, push_double, push_number, push_text, push_word,
    shift_value,
};
use spl_sorts::{Formal, Operand, Profile, Sort, callable, text_value};
use spl_tree::{Expr, Kind, Name, Ref, binary};
use spl_uses::compares_text;
use std::alloc::AllocError;

/// Appends what pushes the value of a variable, behind what moved its index to X where it has one.
fn variable(
    scope: &Scope<'_>,
    name: &Name,
    indexed: bool,
    waiting: u64,
    code: &mut Code,
) -> Result<(), AllocError>
    ensures { OnOk result (Appends (written.variable (scope_of scope.now) (letters name.now) indexed waiting) code.old code.new) }
{
    match scope.places.find(name) {
        Some(place) => {
            let access = Access::of(scope.names.find(name));
            load_at(code, access, indexed, mode_of(waiting, place)?)
        }
        None => Ok(()),
    }
}

/// Appends what pushes the address of a reference, behind what moved its index to X where it has one.
fn addressed(
    scope: &Scope<'_>,
    name: &Name,
    indexed: bool,
    waiting: u64,
    code: &mut Code,
) -> Result<(), AllocError>
    ensures { OnOk result (Appends (written.addressed (scope_of scope.now) (letters name.now) indexed waiting) code.old code.new) }
{
    match scope.places.find(name) {
        Some(place) => {
            let access = Access::of(scope.names.find(name));
            address_at(code, access, indexed, mode_of(waiting, place)?)
        }
        None => Ok(()),
    }
}

/// The value of a name of a sum of constants.
fn equated(sort: Option<&Sort>) -> Option<Option<i64>>
    ensures { result ≡ equated (option_map (λ s. sort_of s.now) sort.entry) }
{
    match sort {
        Some(Sort::Equate(value)) => Some(*value),
        _ => None,
    }
}

/// Appends the call of what a name stands for.
fn call_by_sort(
    scope: &Scope<'_>,
    name: &Name,
    sort: Option<&Sort>,
    code: &mut Code,
) -> Result<(), AllocError>
    ensures { OnOk result (Appends (called_by (scope_of scope.now) (letters name.now) (option_map (λ s. sort_of s.now) sort.entry)) code.old code.new) }
{
    match sort {
        Some(Sort::Intrinsic(_)) => call_name(code, name, true),
        Some(Sort::Procedure(_)) => {
            call_procedure(code, name, scope.entries.procedures.find(name))
        }
        Some(Sort::Subroutine(_)) => { call_subroutine(code, scope.entries.subroutines.find(name)) }
        _ => Ok(()),
    }
}

/// Whether an expression is a condition: AND, OR, or a relation.
fn is_condition(e: &Expr) -> bool
    ensures { result ≡ is_condition (view.expression e.now) }
{
    match e {
        Expr::Binary { op, .. } => {
            *op < binary::LOR || binary::EQUAL <= *op && *op < binary::PLUS
        }
        Expr::Bytes { .. } => true,
        _ => false,
    }
}

/// Appends an expression as it is wanted, while so many words wait, and answers what it is.
///
/// A sum of words beyond `u64` is an error, as want of memory is.
#[cycle(expressions)]
#[tactic(auto)]
pub fn write(
    scope: &Scope<'_>,
    e: &Expr,
    aim: Aim,
    waiting: u64,
    code: &mut Code,
) -> Result<Operand, AllocError>
    requires { Known aim code.old }
    ensures kind { IfOk result (λ o. operand_of o ≡ kinds.kind_of (names_of scope.now.names) (view.expression e.now)) }
    ensures code { OnOk result (Appends (written.code (scope_of scope.now) (view.expression e.now) (aim_view aim) waiting) code.old code.new) }
{
    if is_condition(e) {
        let opening = open(code, aim)?;
        tested(scope, e, opening.fail, waiting, code)?;
        end(code, opening)?;
        Ok(Operand::Of(Kind::Logical))
    } else {
        let operand = value(scope, e, waiting, code)?;
        close(code, aim)?;
        Ok(operand)
    }
}

/// Appends the value of an expression that is no condition, and answers what it is.
#[cycle(expressions)]
#[tactic(auto)]
fn value(scope: &Scope<'_>, e: &Expr, waiting: u64, code: &mut Code) -> Result<Operand, AllocError>
    ensures kind { IfOk result (λ o. operand_of o ≡ kinds.kind_of (names_of scope.now.names) (view.expression e.now)) }
    ensures code { OnOk result (Appends (value_part (scope_of scope.now) (view.expression e.now) waiting) code.old code.new) }
{
    match e {
        Expr::Number(value) => {
            push_word(code, *value)?;
            Ok(Operand::Constant)
        }
        Expr::Wide(value) => {
            push_double(code, *value)?;
            Ok(Operand::Of(Kind::Double))
        }
        Expr::Text(chars) => {
            push_text(code, text_value(&chars.bytes))?;
            Ok(Operand::Constant)
        }
        Expr::Truth(value) => {
            push_word(code, if *value { 65535 } else { 0 })?;
            Ok(Operand::Constant)
        }
        Expr::Named { name, args, .. } => {
            named(scope, name, args, waiting, code)?;
            Ok(Operand::named(scope.names.find(name)))
        }
        Expr::Address {
            name,
            index: Some(index),
            ..
        } => {
            let access = Access::of(scope.names.find(name));
            index_in_x(scope, index, access.is_double(), waiting, code)?;
            addressed(scope, name, true, waiting, code)?;
            Ok(Operand::Of(Kind::Logical))
        }
        Expr::Address {
            name,
            index: None,
            ..
        } => {
            addressed(scope, name, false, waiting, code)?;
            Ok(Operand::Of(Kind::Logical))
        }
        Expr::Unary { op, of, .. } => {
            let value = write(scope, of, Aim::Value, waiting, code)?;
            operate_on_one(code, *op, value)?;
            Ok(value.unary(*op))
        }
        Expr::Binary {
            op,
            left,
            right,
            ..
        } => {
            let a = write(scope, left, Aim::Value, waiting, code)?;
            let waiting = plus(waiting, operand_width(a))?;
            let b = write(scope, right, Aim::Value, waiting, code)?;
            operate_on_two(code, Class::of(a, b), *op)?;
            Ok(a.binary(*op, b))
        }
        Expr::Shift { kind, of, by, .. } => {
            let _ = write(scope, of, Aim::Value, waiting, code)?;
            shift_value(code, *kind, small_constant(&scope.names, by))?;
            Ok(Operand::Of(Kind::Logical))
        }
        Expr::Field {
            of,
            start,
            length,
            ..
        } => {
            let _ = write(scope, of, Aim::Value, waiting, code)?;
            let start = small_constant(&scope.names, start);
            extract(code, start, small_constant(&scope.names, length))?;
            Ok(Operand::Of(Kind::Logical))
        }
        Expr::Transfer { to, of, .. } => {
            let value = write(scope, of, Aim::Value, waiting, code)?;
            convert(code, *to, value)?;
            Ok(Operand::Of(*to))
        }
        Expr::Bytes { .. } => Ok(Operand::Of(Kind::Logical)),
    }
}

/// Appends the test of a condition, which leads to a mark where it is false.
#[cycle(expressions)]
#[tactic(auto)]
fn tested(
    scope: &Scope<'_>,
    e: &Expr,
    fail: usize,
    waiting: u64,
    code: &mut Code,
) -> Result<(), AllocError>
    requires { fail < length code.old.marks.items }
    ensures { OnOk result (Appends (test_part (scope_of scope.now) (view.expression e.now) waiting fail) code.old code.new) }
{
    match e {
        Expr::Binary {
            op,
            left,
            right,
            ..
        } => {
            if *op < binary::LOR {
                if *op == binary::OR {
                    either(scope, e, fail, waiting, code)
                } else {
                    both(scope, e, fail, waiting, code)
                }
            } else if compares_text(&scope.names, *op, left, right) {
                text_relation(scope, e, fail, waiting, code)
            } else {
                relation(scope, e, fail, waiting, code)
            }
        }
        Expr::Bytes { .. } => bytes_relation(scope, e, fail, waiting, code),
        _ => Ok(()),
    }
}

/// Appends OR as a test: where the left side is false it leads to the right one, and else over that.
#[cycle(expressions)]
#[tactic(auto)]
fn either(
    scope: &Scope<'_>,
    e: &Expr,
    fail: usize,
    waiting: u64,
    code: &mut Code,
) -> Result<(), AllocError>
    requires { fail < length code.old.marks.items }
    ensures { OnOk result (Appends (either_part (scope_of scope.now) (view.expression e.now) waiting fail) code.old code.new) }
{
    match e {
        Expr::Binary { left, right, .. } => {
            let next = two_marks(code)?;
            let over = next + 1;
            let _ = write(scope, left, Aim::Test(next), waiting, code)?;
            lead(code, over)?;
            set_mark(code, next)?;
            let _ = write(scope, right, Aim::Test(fail), waiting, code)?;
            set_mark(code, over)
        }
        _ => Ok(()),
    }
}

/// Appends AND as a test: each side leads to the mark where it is false.
#[cycle(expressions)]
#[tactic(auto)]
fn both(
    scope: &Scope<'_>,
    e: &Expr,
    fail: usize,
    waiting: u64,
    code: &mut Code,
) -> Result<(), AllocError>
    requires { fail < length code.old.marks.items }
    ensures { OnOk result (Appends (both_part (scope_of scope.now) (view.expression e.now) waiting fail) code.old code.new) }
{
    match e {
        Expr::Binary { left, right, .. } => {
            let _ = write(scope, left, Aim::Test(fail), waiting, code)?;
            let _ = write(scope, right, Aim::Test(fail), waiting, code)?;
            Ok(())
        }
        _ => Ok(()),
    }
}

/// Appends a relation of two values.
#[cycle(expressions)]
#[tactic(auto)]
fn relation(
    scope: &Scope<'_>,
    e: &Expr,
    fail: usize,
    waiting: u64,
    code: &mut Code,
) -> Result<(), AllocError>
    requires { fail < length code.old.marks.items }
    ensures { OnOk result (Appends (relation_part (scope_of scope.now) (view.expression e.now) waiting fail) code.old code.new) }
{
    match e {
        Expr::Binary {
            op,
            left,
            right,
            ..
        } => {
            let first = write(scope, left, Aim::Value, waiting, code)?;
            let waiting = plus(waiting, operand_width(first))?;
            let second = write(scope, right, Aim::Value, waiting, code)?;
            compare(code, Class::of(first, second))?;
            relate(code, relation_number(*op), fail)
        }
        _ => Ok(()),
    }
}

/// Appends a relation of the bytes from a reference on to those of a string.
#[cycle(expressions)]
#[tactic(auto)]
fn text_relation(
    scope: &Scope<'_>,
    e: &Expr,
    fail: usize,
    waiting: u64,
    code: &mut Code,
) -> Result<(), AllocError>
    requires { fail < length code.old.marks.items }
    ensures { OnOk result (Appends (text_part (scope_of scope.now) (view.expression e.now) waiting fail) code.old code.new) }
{
    match e {
        Expr::Binary {
            op,
            left,
            right,
            ..
        } => {
            named_reference(scope, left, waiting, code)?;
            compare_text(code, text_bytes(right))?;
            relate(code, relation_number(*op), fail)
        }
        _ => Ok(()),
    }
}

/// Appends a relation of the bytes from two references on.
#[cycle(expressions)]
#[tactic(auto)]
fn bytes_relation(
    scope: &Scope<'_>,
    e: &Expr,
    fail: usize,
    waiting: u64,
    code: &mut Code,
) -> Result<(), AllocError>
    requires { fail < length code.old.marks.items }
    ensures { OnOk result (Appends (bytes_part (scope_of scope.now) (view.expression e.now) waiting fail) code.old code.new) }
{
    match e {
        Expr::Bytes {
            op,
            left,
            right,
            count,
            ..
        } => {
            let behind_first = plus(waiting, 1)?;
            let behind_second = plus(waiting, 2)?;
            reference(scope, left, waiting, code)?;
            reference(scope, right, behind_first, code)?;
            let _ = write(scope, count, Aim::Value, behind_second, code)?;
            compare_bytes(code, false)?;
            relate(code, *op, fail)
        }
        _ => Ok(()),
    }
}

/// Appends an index, moved to X, doubled where an address of DOUBLEs is wanted.
#[cycle(expressions)]
#[tactic(auto)]
fn index_in_x(
    scope: &Scope<'_>,
    index: &Expr,
    doubled: bool,
    waiting: u64,
    code: &mut Code,
) -> Result<(), AllocError>
    ensures { OnOk result (Appends (index_part (scope_of scope.now) (view.expression index.now) doubled waiting) code.old code.new) }
{
    let _ = write(scope, index, Aim::Value, waiting, code)?;
    index_to_x(code, doubled)
}

/// Appends the address of a reference.
#[cycle(expressions)]
#[tactic(auto)]
pub fn reference(
    scope: &Scope<'_>,
    r: &Ref,
    waiting: u64,
    code: &mut Code,
) -> Result<(), AllocError>
    ensures { OnOk result (Appends (written.reference (scope_of scope.now) (view.reference r.now) waiting) code.old code.new) }
{
    let access = Access::of(scope.names.find(&r.name));
    match &r.index {
        Some(index) => {
            index_in_x(scope, index, access.is_double(), waiting, code)?;
            addressed(scope, &r.name, true, waiting, code)
        }
        None => addressed(scope, &r.name, false, waiting, code),
    }
}

/// Appends the address of what an expression names.
#[cycle(expressions)]
#[tactic(auto)]
fn named_reference(
    scope: &Scope<'_>,
    e: &Expr,
    waiting: u64,
    code: &mut Code,
) -> Result<(), AllocError>
    ensures { OnOk result (Appends (written.reference (scope_of scope.now) (view.expression e.now) waiting) code.old code.new) }
{
    match e {
        Expr::Named { name, args, .. } => {
            let access = Access::of(scope.names.find(name));
            match args.as_slice() {
                [index, ..] => {
                    index_in_x(scope, index, access.is_double(), waiting, code)?;
                    addressed(scope, name, true, waiting, code)
                }
                [] => addressed(scope, name, false, waiting, code),
            }
        }
        _ => Ok(()),
    }
}

/// Appends a name with what stands behind it: a constant, a call, or a variable at its index.
#[cycle(expressions)]
#[tactic(auto)]
pub fn named(
    scope: &Scope<'_>,
    name: &Name,
    args: &[Expr],
    waiting: u64,
    code: &mut Code,
) -> Result<(), AllocError>
    ensures { OnOk result (Appends (named_part (scope_of scope.now) (letters name.now) (trees (map view.expression args.now)) waiting) code.old code.new) }
{
    let sort = scope.names.find(name);
    match equated(sort) {
        Some(value) => push_number(code, value),
        None => match callable(sort) {
            Some(profile) => {
                begin_call(scope, profile, args, waiting, code)?;
                call_by_sort(scope, name, sort, code)?;
                take_result(code, profile.result)
            }
            None => element(scope, name, args, waiting, code),
        },
    }
}

/// Appends what pushes the value of a variable at its index, where it has one.
#[cycle(expressions)]
#[tactic(auto)]
fn element(
    scope: &Scope<'_>,
    name: &Name,
    args: &[Expr],
    waiting: u64,
    code: &mut Code,
) -> Result<(), AllocError>
    ensures { OnOk result (Appends (element_part (scope_of scope.now) (letters name.now) (trees (map view.expression args.now)) waiting) code.old code.new) }
{
    match args {
        [index, ..] => {
            index_in_x(scope, index, false, waiting, code)?;
            variable(scope, name, true, waiting, code)
        }
        [] => variable(scope, name, false, waiting, code),
    }
}

/// Appends the words of a result and the arguments of a call.
#[cycle(expressions)]
#[tactic(auto)]
fn begin_call(
    scope: &Scope<'_>,
    profile: &Profile,
    args: &[Expr],
    waiting: u64,
    code: &mut Code,
) -> Result<(), AllocError>
    ensures { OnOk result (Appends (call_part (scope_of scope.now) (profile_of profile.now) (trees (map view.expression args.now)) waiting) code.old code.new) }
{
    make_room(code, profile.result)?;
    let waiting = plus(waiting, result_words(profile))?;
    arguments(scope, &profile.formals, args, waiting, code)
}

/// Appends arguments, one for each parameter: each waits for those behind it.
#[cycle(expressions)]
#[tactic(auto)]
fn arguments(
    scope: &Scope<'_>,
    formals: &[Formal],
    args: &[Expr],
    waiting: u64,
    code: &mut Code,
) -> Result<(), AllocError>
    ensures { OnOk result (Appends (written.arguments (scope_of scope.now) (map formal_of formals.now) (trees (map view.expression args.now)) waiting) code.old code.new) }
{
    let mut formals = formals;
    let mut waiting = waiting;
    for e in args {
        let Some(formal) = next_formal(formals) else {
            return Ok(());
        };
        argument(scope, formal, e, waiting, code)?;
        waiting = plus(waiting, formal_words(formal))?;
        formals = other_formals(formals);
    }
    Ok(())
}

/// Appends an argument: its value as its parameter holds it, or the address of what it names.
#[cycle(expressions)]
#[tactic(auto)]
fn argument(
    scope: &Scope<'_>,
    formal: &Formal,
    e: &Expr,
    waiting: u64,
    code: &mut Code,
) -> Result<(), AllocError>
    ensures { OnOk result (Appends (argument_part (scope_of scope.now) (formal_of formal.now) (view.expression e.now) waiting) code.old code.new) }
{
    if formal.by_value() {
        let _ = write(scope, e, Aim::Value, waiting, code)?;
        pass(code, formal.kind)
    } else {
        named_reference(scope, e, waiting, code)
    }
}
