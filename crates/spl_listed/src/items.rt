//! Data items.
ghost use Rattle.std.specs.Prelude.{◌≡◌, IfOk};
ghost use Rattle.spl_tree.specs.Declarations as decls;
ghost use Rattle.spl_tree.specs.Spells as spells;
ghost use Rattle.spl_reading.specs.ReadDeclarations as spec;
ghost use Rattle.spl_listed.specs.Lists as lists;

use spl_tree::{At, Const, Item, Name, Shape};
use std::alloc::{AllocError, Global};

/// An item with these values.
pub fn with_values(item: Item, first: Vec<Const>) -> Item
    ensures { spells.item_tree result ≡ spec.with_values (lists.constants first) (spells.item_tree item) }
{
    Item {
        name: item.name,
        at: item.at,
        shape: item.shape,
        first,
    }
}

/// A pointer.
fn pointer(alloc: Global, name: Name, at: At) -> Item
    ensures { spells.item_tree result ≡ decls.pointer (spells.placed (name, at)) }
{
    Item {
        name,
        at,
        shape: Shape::Pointer,
        first: Vec::new(alloc),
    }
}

#[tactic(auto, using(crate::proofs::ItemLemmas::one_pointer))]
/// Pointers with these names.
pub fn pointers(alloc: Global, names: Vec<(Name, At)>) -> Result<Vec<Item>, AllocError>
    ensures { IfOk result (λ items. lists.items items ≡ decls.pointers (lists.names names)) }
{
    let mut items = Vec::new(alloc);
    for (name, at) in names {
        items.push(pointer(alloc, name, at))?;
    }
    Ok(items)
}
