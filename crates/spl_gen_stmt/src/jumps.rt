//! GO TO, RETURN and the places of labels.
ghost use Rattle.std.specs.Prelude.{◌<◌, length, OnOk};
ghost use Rattle.spl_tree.specs.Views.{letters};
ghost use Rattle.spl_statement_code.specs.spl_code.Appends.{Appends};
ghost use Rattle.spl_statement_code.specs.Landings as landings;
ghost use Rattle.spl_statement_code.specs.Landings.{IsMade};
ghost use Rattle.spl_statement_code.specs.Labels.{AppendsSetting, CanBeSet, mark_of};
ghost use Rattle.spl_gen_stmt.specs.Contexts.{context_of};
ghost use Rattle.spl_landing_maps.specs.Landings.{landings_of};

use crate::contexts::Context;
use spl_branch::Code;
use spl_gen_expr::{lead, set_mark};
use spl_stored::drop_words;
use spl_tree::Name;
use std::alloc::AllocError;

/// Appends a jump to a mark where so many words fewer wait.
#[tactic(auto, using(spl_operations::proofs::PutLemmas::joins))]
pub fn jump(code: &mut Code, surplus: u64, mark: usize) -> Result<(), AllocError>
    requires { mark < length code.old.marks.items }
    ensures { OnOk result (Appends (landings.jump surplus mark) code.old code.new) }
{
    drop_words(code, surplus)?;
    lead(code, mark)
}

/// Appends a jump to a label, where it leads somewhere.
pub fn go_to(
    context: &Context<'_>,
    name: &Name,
    waiting: u64,
    code: &mut Code,
) -> Result<(), AllocError>
    requires { IsMade (context_of context.now) (length code.old.marks.items) }
    ensures { OnOk result (Appends (landings.gone_to (landings_of context.now.landings.now (letters name.now)) waiting) code.old code.new) }
{
    match context.landings.find(name) {
        Some(landing) => jump(
            code,
            waiting.saturating_sub(u64::from(landing.pending)),
            landing.mark,
        ),
        None => Ok(()),
    }
}

/// Sets the mark of a label here, where it leads somewhere.
pub fn land(context: &Context<'_>, name: &Name, code: &mut Code) -> Result<(), AllocError>
    requires { CanBeSet code.old.marks.items (mark_of (landings_of context.now.landings.now (letters name.now))) }
    ensures { OnOk result (AppendsSetting (mark_of (landings_of context.now.landings.now (letters name.now))) (landings.landed (landings_of context.now.landings.now (letters name.now))) code.old code.new) }
{
    match context.landings.find(name) {
        Some(landing) => set_mark(code, landing.mark),
        None => Ok(()),
    }
}
