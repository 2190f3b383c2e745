//! What a name stands for.
ghost use Rattle.std.specs.Prelude.{◌≡◌, option_map};
ghost use Rattle.spl_meaning.specs.Kinds as kinds;
ghost use Rattle.spl_sorts.specs.Profiles.{profile_of};
ghost use Rattle.spl_sorts.specs.Sorts.{sort_of};

use crate::gates::Gate;
use crate::profiles::Profile;
use spl_tree::{Kind, Name};

/// What a name stands for. The flag of data says that it is OWN.
#[derive(Debug, Drop)]
pub enum Sort {
    Simple(Kind, bool),
    /// An array with its bounds.
    Array {
        kind: Kind,
        own: bool,
        low: i64,
        high: i64,
    },
    /// A view, with the name of its base.
    View(Kind, bool, Name),
    Pointer(Kind, bool),
    /// A parameter by value.
    Value(Kind),
    ByReference(Kind),
    ArrayParameter(Kind),
    /// A name of a sum, with its value where it has one.
    Equate(Option<i64>),
    Label,
    Intrinsic(Gate),
    Procedure(Profile),
    Subroutine(Profile),
    /// A name that is declared wrongly.
    Unknown,
}

/// What a name takes and gives, where it can be called.
pub fn callable(sort: Option<&Sort>) -> Option<&Profile>
    ensures { option_map (λ p. profile_of p.now) result ≡ kinds.callable (option_map (λ s. sort_of s.now) sort.entry) }
{
    match sort {
        Some(Sort::Intrinsic(gate)) => Some(&gate.profile),
        Some(Sort::Procedure(profile)) => Some(profile),
        Some(Sort::Subroutine(profile)) => Some(profile),
        _ => None,
    }
}

/// The kind of a variable, an element or a pointer that a name stands for.
pub fn variable_kind(sort: Option<&Sort>) -> Option<Kind>
    ensures { result ≡ kinds.variable_kind (option_map (λ s. sort_of s.now) sort.entry) }
{
    match sort {
        Some(
            Sort::Simple(kind, _)
            | Sort::Array { kind, .. }
            | Sort::View(kind, _, _)
            | Sort::Pointer(kind, _)
            | Sort::Value(kind)
            | Sort::ByReference(kind)
            | Sort::ArrayParameter(kind),
        ) => Some(*kind),
        _ => None,
    }
}
