//! MOVE and SCAN, whose answer is used or not.
ghost use Rattle.std.specs.Prelude.{◌≡◌, ◌%◌, OnOk};
ghost use Rattle.spl_tree.specs.Views as view;
ghost use Rattle.spl_statement_code.specs.spl_code.Parts.{piece, pieces, ◌⨟◌};
ghost use Rattle.spl_statement_code.specs.spl_code.Constants.{constant, text_offset};
ghost use Rattle.spl_statement_code.specs.spl_code.Appends.{Appends};
ghost use Rattle.spl_gen_expr.specs.spl_code_scopes.Scopes.{scope_of};
ghost use Rattle.spl_statement_code.specs.Effects as effects;

use spl_branch::Code;
use spl_gen_expr::{Aim, Scope, push_text_offset, reference, write};
use spl_operations::push_word;
use spl_sorts::variable_kind;
use spl_stored::{
    behind_first, behind_second, keep_first, move_class, move_elements, scale_offset, scan, tell,
    text_count,
};
use spl_tree::{Effect, Kind, Ref, Source};
use std::alloc::AllocError;

/// Whether a reference leads to bytes.
fn leads_to_bytes(scope: &Scope<'_>, r: &Ref) -> bool
    ensures { result ≡ effects.leads_to_bytes (scope_of scope.now) (view.reference r.now) }
{
    matches!(variable_kind(scope.names.find(&r.name)), Some(Kind::Byte))
}

/// Appends what moves a string to the address on top.
#[tactic(auto, using(spl_operations::proofs::PutLemmas::joins))]
fn move_text(code: &mut Code, bytes: bool, text: &[u8]) -> Result<(), AllocError>
    ensures { OnOk result (Appends (text_offset text.now ⨟ pieces (effects.text_scaled bytes) ⨟ pieces (constant (effects.text_count bytes text.now % 65536)) ⨟ piece (effects.move_of bytes 1)) code.old code.new) }
{
    push_text_offset(code, text)?;
    scale_offset(code, bytes)?;
    push_word(code, (text_count(bytes, text) % 65536) as u16)?;
    move_elements(code, bytes, true)
}

/// Appends what moves a source to the address on top.
#[tactic(auto, using(spl_operations::proofs::PutLemmas::joins))]
fn move_source(
    scope: &Scope<'_>,
    used: bool,
    bytes: bool,
    from: &Source,
    waiting: u64,
    code: &mut Code,
) -> Result<(), AllocError>
    ensures { OnOk result (Appends (effects.source_moved (scope_of scope.now) used bytes (view.source_tree from.now) waiting) code.old code.new) }
{
    match from {
        Source::Counted(r, count) => {
            reference(scope, r, behind_first(used, waiting)?, code)?;
            let _ = write(
                scope,
                count,
                Aim::Value,
                behind_second(used, waiting)?,
                code,
            )?;
            move_elements(code, bytes, false)
        }
        Source::Text(chars) => move_text(code, bytes, &chars.bytes),
        Source::While(r, class) => {
            reference(scope, r, behind_first(used, waiting)?, code)?;
            move_class(code, *class)
        }
    }
}

/// Appends a MOVE or a SCAN.
#[tactic(auto, using(spl_operations::proofs::PutLemmas::joins))]
pub fn effect(
    scope: &Scope<'_>,
    used: bool,
    e: &Effect,
    waiting: u64,
    code: &mut Code,
) -> Result<(), AllocError>
    ensures { OnOk result (Appends (effects.effect (scope_of scope.now) used (view.effect_tree e.now) waiting) code.old code.new) }
{
    match e {
        Effect::Move { to, from } => {
            reference(scope, to, waiting, code)?;
            keep_first(code, used)?;
            move_source(scope, used, leads_to_bytes(scope, to), from, waiting, code)?;
            tell(code, used)
        }
        Effect::Scan { from, until, test } => {
            reference(scope, from, waiting, code)?;
            keep_first(code, used)?;
            let _ = write(scope, test, Aim::Value, behind_first(used, waiting)?, code)?;
            scan(code, *until)?;
            tell(code, used)
        }
    }
}
