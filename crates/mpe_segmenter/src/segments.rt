//! Segments with their entries.
ghost use Rattle.std.specs.Prelude.{◌<◌, ◌^◌};
ghost use Rattle.mpe_segmenter.specs.Entered.{IsEntered, total};

use crate::entries::Entries;
use spl_branch::Module;
use spl_tree::Name;

/// A segment: its name, its modules in order, and its entries.
#[derive(Debug, Drop)]
pub struct Segment {
    pub name: Name,
    pub modules: Vec<Module>,
    pub entries: Entries,
    pub ghost entered: { IsEntered modules.items entries.own entries.called entries.wanted },
    pub ghost few: { total modules.items < 2 ^ 32 },
}
