//! The faults of a unit's text.
ghost use Rattle.std.specs.Prelude.{◌≡◌};
ghost use Rattle.spl_front.specs.Kinds.{kind_of};

use spl_cuts::LexKind;
use spl_tree::{At, FaultKind};

/// Why a unit is not read: its first fault, or want of memory.
#[derive(Clone, Copy, Debug, PartialEq, Eq)]
pub enum UnitFault {
    Fault { kind: FaultKind, at: At },
    NoMemory,
}

/// The kind of a fault of tokens; None for want of memory.
pub fn kind_of(kind: LexKind) -> Option<FaultKind>
    ensures { result ≡ kind_of kind }
{
    match kind {
        LexKind::BadByte => Some(FaultKind::BadByte),
        LexKind::BadCommand => Some(FaultKind::BadCommand),
        LexKind::OpenString => Some(FaultKind::OpenString),
        LexKind::OpenComment => Some(FaultKind::OpenComment),
        LexKind::NameTooLong => Some(FaultKind::NameTooLong),
        LexKind::NumberTooLarge => Some(FaultKind::NumberTooLarge),
        LexKind::BadDefine => Some(FaultKind::BadDefine),
        LexKind::TooManyTokens => Some(FaultKind::TooManyTokens),
        LexKind::NoMemory => None,
    }
}
