//! Tokens by themselves: tests and copies of them.
ghost use Rattle.std.specs.Prelude.{◌≡◌, ◌++◌, map, IfOk, OnOk};
ghost use Rattle.spl_cuts.specs.Defines as df;
ghost use Rattle.spl_pieces.specs.SignViews.{sign_of};

use spl_tree::{Chars, What};
use std::alloc::{AllocError, Global};

/// The word DEFINE.
pub fn is_define(what: &What) -> bool
    ensures { result ≡ df.is_define (sign_of what.now) }
{
    match what {
        What::Word(name) => name.text.as_slice() == b"DEFINE".as_slice(),
        _ => false,
    }
}

/// The mark of this number.
pub fn is_mark(what: &What, mark: u8) -> bool
    ensures { result ≡ df.is_mark mark (sign_of what.now) }
{
    match what {
        What::Mark(m) => *m == mark,
        _ => false,
    }
}

/// A token equal to another.
pub fn copy(alloc: Global, what: &What) -> Result<What, AllocError>
    ensures { IfOk result (λ w. sign_of w ≡ sign_of what.now) }
{
    match what {
        What::Word(name) => Ok(What::Word(name.copy())),
        What::Number(n) => Ok(What::Number(*n)),
        What::Wide(n) => Ok(What::Wide(*n)),
        What::Text(chars) => Ok(What::Text(Chars {
            bytes: Vec::from_slice(alloc, &chars.bytes)?,
        })),
        What::Mark(m) => Ok(What::Mark(*m)),
        What::End => Ok(What::End),
    }
}

/// Puts copies of some tokens behind others.
pub fn append(alloc: Global, kept: &mut Vec<What>, signs: &[What]) -> Result<(), AllocError>
    ensures { OnOk result (map sign_of kept.new.items ≡ map sign_of kept.old.items ++ map sign_of signs.now) }
{
    for sign in signs {
        kept.push(copy(alloc, sign)?)?;
    }
    Ok(())
}
