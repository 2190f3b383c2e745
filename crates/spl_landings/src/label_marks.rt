//! Marks for the labels of a body.
ghost use Rattle.std.specs.Prelude.{◌≡◌, ◌++◌, OnOk, IfOk, map, length, replicate, false};
ghost use Rattle.spl_tree.specs.Views as view;
ghost use Rattle.spl_tree.specs.StatementTrees as trees;
ghost use Rattle.spl_module_code.specs.spl_meaning.Names.{find};
ghost use Rattle.spl_branch.specs.Codes.{SameFrame};
ghost use Rattle.spl_landing_maps.specs.Landings.{landings_of};
ghost use Rattle.spl_module_code.specs.LabelsOfBodies.{labels_among, landed_from};

use crate::label_lists::labels;
use spl_branch::Code;
use spl_landing_maps::Landing;
use spl_spots::NameMap;
use spl_tree::Stmt;
use std::alloc::{AllocError, Global};

/// A number of words that wait, as a landing has it. In a body they are fewer than 65,536, since statements nest at most 64
/// deep.
fn narrow(pending: u64) -> Result<u16, AllocError>
    ensures { IfOk result (λ words. words ≡ pending) }
{
    match u16::try_from(pending) {
        Ok(words) => Ok(words),
        Err(_) => Err(AllocError),
    }
}

/// Makes a mark for each label in the statements of a body, in order of text, and answers where they lead. The code has these
/// marks more, and is else as before. Want of memory alone is an error.
pub fn landings(
    alloc: Global,
    statements: &[Stmt],
    code: &mut Code,
) -> Result<NameMap<Landing>, AllocError>
    ensures map { IfOk result (λ m. landings_of m ≡ find (landed_from (length code.old.marks.items) (labels_among (trees.statements (map view.statement statements.now)) 0))) }
    ensures marks { OnOk result (code.new.marks.items ≡ code.old.marks.items ++ replicate (length (labels_among (trees.statements (map view.statement statements.now)) 0)) false) }
    ensures pieces { code.new.pieces ≡ code.old.pieces }
    ensures wants { code.new.wants ≡ code.old.wants }
    ensures same { SameFrame code.old code.new }
{
    let mut landings = NameMap::new(alloc);
    let labels = labels(alloc, statements)?;
    for label in &labels {
        let pending = narrow(label.pending)?;
        let mark = code.fresh()?;
        landings.add(&label.name, Landing { mark, pending })?;
    }
    Ok(landings)
}
