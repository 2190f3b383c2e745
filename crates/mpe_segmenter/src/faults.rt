//! Why no program can be made of modules.
ghost use Rattle.std.specs.Prelude.{◌≡◌, ◌+◌, ◌≤◌, Bool, true, false};
ghost use Rattle.mpe_segmenter.specs.Faults.{mains, MainBodies};

use spl_branch::Module;
use spl_tree::Name;
use std::alloc::AllocError;

/// Why no program can be made of modules. The first that holds is answered, in this order.
#[derive(Debug, PartialEq, Eq, Drop)]
pub enum PrepFault {
    /// No module has a main body.
    NoMain,
    /// Two modules have a main body.
    TwoMains,
    /// A name that may be called from other modules is defined twice: the one whose second definition comes first.
    Doubled(Name),
    /// A name is wanted that is no intrinsic's and that no module defines: the one whose first call comes first.
    Unresolved(Name),
    /// There are more than 62 segments.
    SegmentsFull { count: u32 },
    /// A segment has more than 127 entries: the one with the least number.
    EntriesFull { segment: Name, count: u32 },
    /// A segment has more than 16,383 words: the one with the least number. `words` is the sum where it first passes, its
    /// table counted first and then its modules in order.
    SegmentFull { segment: Name, words: u32 },
    /// Memory is wanting.
    NoMemory,
}

impl From<AllocError> for PrepFault {
    ghost use Rattle.std.specs.Prelude.{◌≡◌};
    ghost use Rattle.mpe_segmenter.specs.declared.faults.PrepFault.TheVariants as variants;

    ghost from_gives = { λ _ e. e ≡ variants.NoMemory };

    fn from(_e: AllocError) -> PrepFault {
        PrepFault::NoMemory
    }
}

/// What is wrong with the number of main bodies.
pub fn main_fault(modules: &[Module]) -> Option<PrepFault>
    ensures { MainBodies (mains modules.now) result }
{
    let mut found = false;
    for module in modules {
        if module.main.is_some() {
            if found {
                return Some(PrepFault::TwoMains);
            }
            found = true;
        }
    }
    if found { None } else { Some(PrepFault::NoMain) }
}
