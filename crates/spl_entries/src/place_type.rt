//! The place of an item or a parameter.
use spl_tree::At;

/// Where an item or a parameter stands. Places of frames are two's complement words, counted from a base.
#[derive(Clone, Copy, Debug, PartialEq, Eq)]
pub struct Place {
    /// The place of its name in the text. Many may have one.
    pub at: At,
    /// Its first word: the address of a global or OWN item; from Q for a procedure's parameter or local item; from its
    /// return word for a subroutine's parameter.
    pub word: u16,
    /// The first word of its data, where it is an array: an address, or from Q.
    pub array: Option<u16>,
}
