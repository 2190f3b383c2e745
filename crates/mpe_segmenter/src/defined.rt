//! Names that are defined twice, and names that nothing defines.
ghost use Rattle.std.specs.Prelude.{◌≡◌, ◌++◌, [], ◌∷◌, IfOk};
ghost use Rattle.mpe_segmenter.specs.Faults.{define_names, callables, doubled, first_unmet, unmet_from, letters_if, Repeats, Collects};

use crate::names::Names;
use spl_branch::{Define, Module, Want};
use spl_tree::Name;
use std::alloc::{AllocError, Global};

/// The names of procedures that other modules may call, or one that is defined twice.
#[derive(Debug, Drop)]
pub enum Collected {
    Names(Names),
    /// Of several the one whose second definition comes first.
    Twice(Name),
}

/// Notes a name that may be called, or answers that it is there already.
fn note(names: &mut Names, define: &Define) -> Result<Option<Name>, AllocError>
    ensures { IfOk result (λ o. Repeats names.old (define_names (define.now ∷ [])) names.new o) }
{
    if !define.callable {
        return Ok(None);
    }
    if names.has(&define.name) {
        return Ok(Some(define.name.copy()));
    }
    names.number(&define.name)?;
    Ok(None)
}

/// The first want of a module that is no intrinsic's and that no procedure of these names meets.
fn unmet(names: &Names, wants: &[Want]) -> Option<Name>
    ensures { letters_if result ≡ first_unmet names.now wants.now }
{
    for want in wants {
        if !want.gate && !names.has(&want.name) {
            return Some(want.name.copy());
        }
    }
    None
}

/// The name that is wanted and not defined, whose first call comes first, where these are the names defined.
pub fn first_unresolved(names: &Names, modules: &[Module]) -> Option<Name>
    ensures { letters_if result ≡ unmet_from names.now modules.now }
{
    for module in modules {
        if let Some(name) = unmet(names, module.wants.as_slice()) {
            return Some(name);
        }
    }
    None
}

/// Notes the names that may be called, or answers the first that is there already.
fn note_all(names: &mut Names, defines: &[Define]) -> Result<Option<Name>, AllocError>
    ensures { IfOk result (λ o. Repeats names.old (define_names defines.now) names.new o) }
{
    for define in defines {
        if let Some(name) = note(names, define)? {
            return Ok(Some(name));
        }
    }
    Ok(None)
}

/// The names that modules define, or the first that is defined twice.
pub fn collect_names(alloc: Global, modules: &[Module]) -> Result<Collected, AllocError>
    ensures { IfOk result (λ o. Collects modules.now o) }
{
    let mut names = Names::new(alloc);
    for module in modules {
        if let Some(name) = note_all(&mut names, module.defines.as_slice())? {
            return Ok(Collected::Twice(name));
        }
    }
    Ok(Collected::Names(names))
}
