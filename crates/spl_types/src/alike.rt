//! Headings that are alike.
ghost use Rattle.std.specs.Prelude.{◌≡◌, map};
ghost use Rattle.spl_sound.specs.spl_meaning.Names.{same_flag};
ghost use Rattle.spl_sound.specs.spl_meaning.DeclarationRules as rules;
ghost use Rattle.spl_sorts.specs.Profiles.{formal_of, profile_of};
ghost use Rattle.spl_types.specs.SameFormal.{same_formal};

use spl_sorts::{Formal, Profile};
use spl_tree::Kind;

/// The number of a kind, 0 for none.
fn number_of(kind: Option<Kind>) -> u8
    ensures { result ≡ rules.kind_number kind }
{
    match kind {
        None => 0,
        Some(Kind::Integer) => 1,
        Some(Kind::Logical) => 2,
        Some(Kind::Byte) => 3,
        Some(Kind::Double) => 4,
    }
}

/// Whether two flags are alike.
fn both_or_neither(a: bool, b: bool) -> bool
    ensures { result ≡ same_flag a b }
{
    if a { b } else { !b }
}

/// Whether two parameters are alike: in kind, array or not, and VALUE or not.
fn same_formal(a: &Formal, b: &Formal) -> bool
    ensures { result ≡ same_formal (formal_of a.now) (formal_of b.now) }
{
    number_of(a.kind) == number_of(b.kind)
        && both_or_neither(a.array, b.array)
        && both_or_neither(a.value, b.value)
}

/// Whether parameters are alike, one by one.
#[tactic(auto, using(crate::proofs::FormalLists::formal_lists))]
fn same_formals(a: &[Formal], b: &[Formal]) -> bool
    ensures { result ≡ rules.same_formals (map formal_of a.now) (map formal_of b.now) }
{
    if a.len() != b.len() {
        return false;
    }
    for i in 0..a.len() {
        if !same_formal(&a[i], &b[i]) {
            return false;
        }
    }
    true
}

/// Whether two headings take and give the same: the same result, parameters alike one by one, both split or neither.
pub fn same_profile(a: &Profile, b: &Profile) -> bool
    ensures { result ≡ rules.same_profile (profile_of a.now) (profile_of b.now) }
{
    number_of(a.result) == number_of(b.result)
        && both_or_neither(a.split, b.split)
        && same_formals(&a.formals, &b.formals)
}
