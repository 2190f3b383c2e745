//! The store of the first value of a FOR.
ghost use Rattle.std.specs.Prelude.{◌≡◌, true, OnOk};
ghost use Rattle.hp_instr.specs.Given.{is_mode};
ghost use Rattle.spl_sorts.specs.spl_meaning.References.{by_address};
ghost use Rattle.spl_statement_code.specs.spl_code.Parts.{pieces};
ghost use Rattle.spl_statement_code.specs.spl_code.Appends.{Appends};
ghost use Rattle.spl_operations.specs.Views.{access_view};
ghost use Rattle.spl_statement_code.specs.Statements as shapes;

use crate::stores::{bring_under, store, store_own};
use hp_instr::{Mode, Op};
use spl_branch::Code;
use spl_operations::{Access, address_at, load_at, operate};
use spl_tree::Kind;
use std::alloc::AllocError;

/// Appends the store through the address that was passed for a variable of a kind. It is read before the store, and stays.
#[tactic(auto, using(spl_operations::proofs::PutLemmas::joins), unfolding(hp_instr::specs::Fields::is_op))]
fn count_through(code: &mut Code, kind: Kind, moved: bool, mode: Mode) -> Result<(), AllocError>
    requires { is_mode mode ≡ true }
    ensures { OnOk result (Appends (pieces (shapes.counter_at (by_address kind) moved mode)) code.old code.new) }
{
    if moved {
        bring_under(code, Kind::Integer, 1, mode)?;
    } else {
        load_at(code, Access::Own(Kind::Integer), false, mode)?;
        operate(code, Op::XCH)?;
    }
    store(code, Kind::Integer, true, false, Mode::SMinus(1))
}

/// Appends the store of the first value of a FOR in its variable, whose address stays.
#[tactic(auto, using(spl_operations::proofs::PutLemmas::joins))]
pub fn count_at(code: &mut Code, access: Access, moved: bool, mode: Mode) -> Result<(), AllocError>
    requires { is_mode mode ≡ true }
    ensures { OnOk result (Appends (pieces (shapes.counter_at (access_view access) moved mode)) code.old code.new) }
{
    match access {
        Access::Own(kind) => {
            store_own(code, kind, moved, mode)?;
            address_at(code, Access::Own(Kind::Integer), false, mode)
        }
        Access::ByAddress(kind) => count_through(code, kind, moved, mode),
        Access::ByCell(..) | Access::Nowhere => Ok(()),
    }
}
