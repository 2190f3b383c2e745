//! The segments of a program, each with its modules.
ghost use Rattle.std.specs.Prelude.{◌≡◌, ◌<◌, [], length, map, IfOk, OnOk};
ghost use Rattle.mpe_segmenter.specs.Names.{parts as program_parts};
ghost use Rattle.mpe_segmenter.specs.PartViews.{part_of, parts_in, names_in};
ghost use Rattle.mpe_segmenter.specs.Walks.{with_module};

use crate::names::Names;
use spl_branch::Module;
use spl_tree::Name;
use std::alloc::{AllocError, Global};

/// A segment: its name, and its modules in order.
#[derive(Debug, Drop)]
pub struct Part {
    pub name: Name,
    pub modules: Vec<Module>,
}

/// Puts a module into the segment of its name; a segment that is new goes last.
fn put(
    alloc: Global,
    names: &mut Names,
    parts: &mut Vec<Part>,
    one: Module,
) -> Result<(), AllocError>
    requires { names.old ≡ names_in parts.old.items }
    ensures parts { OnOk result (parts_in parts.new.items ≡ with_module (parts_in parts.old.items) one) }
    ensures names { OnOk result (names.new ≡ names_in parts.new.items) }
{
    let number = names.number(&one.segment)?;
    if number < parts.len() {
        parts[number].modules.push(one)?;
    } else {
        let name = one.segment.copy();
        let mut modules = Vec::new(alloc);
        modules.push(one)?;
        parts.push(Part { name, modules })?;
    }
    Ok(())
}

/// The segments that modules make, each with its modules.
pub fn parted(alloc: Global, modules: Vec<Module>) -> Result<Vec<Part>, AllocError>
    ensures { IfOk result (λ v. parts_in v.items ≡ program_parts modules.items) }
{
    let mut names = Names::new(alloc);
    let mut parts = Vec::new(alloc);
    for module in modules {
        put(alloc, &mut names, &mut parts, module)?;
    }
    Ok(parts)
}
