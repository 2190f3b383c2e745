//! The entries of a segment: its own, and the names that it wants.
ghost use Rattle.std.specs.Prelude.{◌≡◌, ◌+◌, ◌<◌, ◌^◌, [], length, map, IfOk, OnOk};
ghost use Rattle.mpe_segmenter.specs.Entries.{own_count, owned, wanted_of, all_wants};
ghost use Rattle.mpe_segmenter.specs.Entered.{IsEntered, total};
ghost use Rattle.mpe_segmenter.specs.Walks.{with_defines, with_modules, with_unmet, with_wants};

use crate::places::Places;
use crate::wants::Wants;
use spl_branch::{Define, Module, Want};
use std::alloc::{AllocError, Global};

/// The entries of a segment.
#[derive(Debug, Drop)]
pub struct Entries {
    /// How many the segment has of its own: procedures, subroutines and the main body.
    pub own: usize,
    /// The places, counted from 0, of the procedures that other modules may call.
    pub called: Places,
    /// The names that are wanted, whose entries follow.
    pub wanted: Wants,
}

/// How many entries a module has of its own.
pub fn own_count(one: &Module) -> usize
    ensures { result ≡ own_count one.now }
{
    if one.main.is_some() {
        one.defines.len() + 1
    } else {
        one.defines.len()
    }
}

/// Notes the places of the defines that may be called, from `first` on.
fn note_defines(called: &mut Places, first: usize, defines: &[Define]) -> Result<(), AllocError>
    requires { first + length defines.now < 2 ^ 64 }
    ensures { OnOk result (called.new ≡ with_defines called.old first defines.now) }
{
    for (k, define) in defines.iter().enumerate() {
        if define.callable {
            called.note(&define.name, first + k)?;
        }
    }
    Ok(())
}

/// Notes the places of the procedures of modules, and answers how many entries these have.
fn note_modules(called: &mut Places, modules: &[Module]) -> Result<usize, AllocError>
    requires { total modules.now < 2 ^ 32 }
    ensures called { OnOk result (called.new ≡ with_modules called.old 0 modules.now) }
    ensures own { IfOk result (λ n. n ≡ owned modules.now) }
{
    let mut own = 0usize;
    for one in modules {
        note_defines(called, own, one.defines.as_slice())?;
        own += own_count(one);
    }
    Ok(own)
}

/// Wants a name, unless it is wanted or a procedure of the segment meets it.
fn want_one(wanted: &mut Wants, called: &Places, want: &Want) -> Result<(), AllocError>
    ensures { OnOk result (wanted.new ≡ with_unmet called.now wanted.old (wanted_of want.now)) }
{
    if want.gate || called.find(&want.name.text).is_none() {
        wanted.put(want)?;
    }
    Ok(())
}

/// Wants what a module wants.
fn want_all(wanted: &mut Wants, called: &Places, wants: &[Want]) -> Result<(), AllocError>
    ensures { OnOk result (wanted.new ≡ with_wants called.now wanted.old (map wanted_of wants.now)) }
{
    for want in wants {
        want_one(wanted, called, want)?;
    }
    Ok(())
}

/// Wants what modules want.
fn want_modules(wanted: &mut Wants, called: &Places, modules: &[Module]) -> Result<(), AllocError>
    ensures { OnOk result (wanted.new ≡ with_wants called.now wanted.old (all_wants modules.now)) }
{
    for one in modules {
        want_all(wanted, called, one.wants.as_slice())?;
    }
    Ok(())
}

/// The entries of the segment that modules make.
pub fn entries_of(alloc: Global, modules: &[Module]) -> Result<Entries, AllocError>
    requires { total modules.now < 2 ^ 32 }
    ensures { IfOk result (λ e. IsEntered modules.now e.own e.called e.wanted) }
{
    let mut called = Places::new(alloc);
    let own = note_modules(&mut called, modules)?;
    let mut wanted = Wants::new(alloc);
    want_modules(&mut wanted, &called, modules)?;
    Ok(Entries {
        own,
        called,
        wanted,
    })
}
