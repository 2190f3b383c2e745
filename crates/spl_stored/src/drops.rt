//! What deletes words that wait, and results that are not used.
ghost use Rattle.std.specs.Prelude.{◌≡◌, option_map, OnOk};
ghost use Rattle.spl_sorts.specs.Sorts.{sort_of};
ghost use Rattle.spl_sorts.specs.spl_meaning.Kinds as kinds;
ghost use Rattle.spl_statement_code.specs.spl_code.Parts.{pieces};
ghost use Rattle.spl_statement_code.specs.spl_code.Appends.{Appends};
ghost use Rattle.spl_statement_code.specs.Landings as landings;
ghost use Rattle.spl_statement_code.specs.Statements as shapes;

use crate::puts::subtract_words;
use hp_instr::Op;
use spl_branch::Code;
use spl_operations::operate;
use spl_sorts::{Sort, callable};
use spl_tree::Kind;
use std::alloc::AllocError;

/// Appends what deletes so many words.
pub fn drop_words(code: &mut Code, n: u64) -> Result<(), AllocError>
    ensures { OnOk result (Appends (pieces (landings.dropped n)) code.old code.new) }
{
    if n <= 255 {
        return subtract_words(code, n as u8);
    }
    for i in 0..n / 255 {
        subtract_words(code, 255)?;
    }
    subtract_words(code, (n % 255) as u8)
}

/// Appends what deletes a result.
#[tactic(auto, unfolding(hp_instr::specs::Fields::is_op))]
pub fn drop_result(code: &mut Code, kind: Option<Kind>) -> Result<(), AllocError>
    ensures { OnOk result (Appends (pieces (shapes.result_dropped kind)) code.old code.new) }
{
    match kind {
        None => Ok(()),
        Some(Kind::Double) => operate(code, Op::DDEL),
        Some(Kind::Integer | Kind::Logical | Kind::Byte) => operate(code, Op::DEL),
    }
}

/// The kind of the result of what a name stands for.
pub fn result_of(sort: Option<&Sort>) -> Option<Kind>
    ensures { result ≡ shapes.result_of (kinds.callable (option_map (λ s. sort_of s.now) sort.entry)) }
{
    match callable(sort) {
        Some(profile) => profile.result,
        None => None,
    }
}
