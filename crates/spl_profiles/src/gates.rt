//! The intrinsics by their names, with what they take and give.
ghost use Rattle.std.specs.Prelude.{◌≡◌, IfOk, map, not, true, false};
ghost use Rattle.spl_tree.specs.Views.{letters};
ghost use Rattle.spl_sorts.specs.spl_meaning.Names as n;
ghost use Rattle.spl_sorts.specs.spl_meaning.Tables as t;
ghost use Rattle.spl_sorts.specs.Profiles.{formal_of, profile_of};
ghost use Rattle.spl_sorts.specs.Sorts.{sort_of};

use hp_word::Intrinsic;
use spl_sorts::{Formal, Gate, Profile, Sort};
use spl_tree::{At, Kind, Name};
use std::alloc::{AllocError, Global};

/// The intrinsic of a name.
pub fn intrinsic_named(name: &Name) -> Option<Intrinsic>
    ensures { result ≡ n.intrinsic_named (letters name.now) }
{
    let letters = name.text.as_slice();
    if letters == b"PRINT".as_slice() {
        Some(Intrinsic::Print)
    } else if letters == b"READ".as_slice() {
        Some(Intrinsic::Read)
    } else if letters == b"ASCII".as_slice() {
        Some(Intrinsic::Ascii)
    } else if letters == b"DASCII".as_slice() {
        Some(Intrinsic::Dascii)
    } else if letters == b"BINARY".as_slice() {
        Some(Intrinsic::Binary)
    } else if letters == b"DBINARY".as_slice() {
        Some(Intrinsic::Dbinary)
    } else if letters == b"TERMINATE".as_slice() {
        Some(Intrinsic::Terminate)
    } else if letters == b"QUIT".as_slice() {
        Some(Intrinsic::Quit)
    } else {
        None
    }
}

/// An array that an intrinsic is given.
fn array(kind: Kind) -> Formal
    ensures { formal_of result ≡ n.given kind true false }
{
    given(kind, true)
}

/// A value that an intrinsic is given.
fn value(kind: Kind) -> Formal
    ensures { formal_of result ≡ n.given kind false true }
{
    given(kind, false)
}

/// A parameter of an intrinsic: an array, or a value. It has no name, and stands nowhere.
fn given(kind: Kind, array: bool) -> Formal
    ensures { formal_of result ≡ n.given kind array (not array) }
{
    Formal {
        name: Name::new(&[]),
        at: At {
            unit: 0,
            line: 0,
            column: 0,
        },
        kind: Some(kind),
        array,
        value: !array,
    }
}

/// What an intrinsic takes.
fn taken(alloc: Global, intrinsic: Intrinsic) -> Result<Vec<Formal>, AllocError>
    ensures { IfOk result (λ formals. map formal_of formals.items ≡ (n.intrinsic_profile intrinsic).formals) }
{
    let (byte, word, number, double) = (Kind::Byte, Kind::Logical, Kind::Integer, Kind::Double);
    Ok(match intrinsic {
        Intrinsic::Print => vec![in alloc; array(word), value(number), value(word)]?,
        Intrinsic::Read => vec![in alloc; array(word), value(number)]?,
        Intrinsic::Ascii => vec![in alloc; value(word), value(number), array(byte)]?,
        Intrinsic::Dascii => vec![in alloc; value(double), value(number), array(byte)]?,
        Intrinsic::Binary | Intrinsic::Dbinary => vec![in alloc; array(byte), value(number)]?,
        Intrinsic::Terminate => Vec::new(alloc),
        Intrinsic::Quit => vec![in alloc; value(number)]?,
    })
}

/// The kind of what an intrinsic gives.
fn given_back(intrinsic: Intrinsic) -> Option<Kind>
    ensures { result ≡ (n.intrinsic_profile intrinsic).result }
{
    match intrinsic {
        Intrinsic::Read | Intrinsic::Ascii | Intrinsic::Dascii => Some(Kind::Integer),
        Intrinsic::Binary => Some(Kind::Logical),
        Intrinsic::Dbinary => Some(Kind::Double),
        Intrinsic::Print | Intrinsic::Terminate | Intrinsic::Quit => None,
    }
}

/// What an intrinsic takes and gives.
fn intrinsic_profile(alloc: Global, intrinsic: Intrinsic) -> Result<Profile, AllocError>
    ensures { IfOk result (λ profile. profile_of profile ≡ n.intrinsic_profile intrinsic) }
{
    Ok(Profile {
        result: given_back(intrinsic),
        formals: taken(alloc, intrinsic)?,
        split: false,
    })
}

/// What a name of an INTRINSIC stands for: an intrinsic, or nothing known.
pub fn intrinsic_sort(alloc: Global, intrinsic: Option<Intrinsic>) -> Result<Sort, AllocError>
    ensures { IfOk result (λ sort. sort_of sort ≡ t.intrinsic_sort intrinsic) }
{
    match intrinsic {
        Some(intrinsic) => {
            let profile = intrinsic_profile(alloc, intrinsic)?;
            Ok(Sort::Intrinsic(Gate { intrinsic, profile }))
        }
        None => Ok(Sort::Unknown),
    }
}
