//! The refusal of an address, and the reads and writes that both states share.
ghost use Rattle.std.specs.Prelude.{◌≡◌, ◌≤◌, length, OnOk, OnErr, slice_set, vec_capacity};
ghost use Rattle.hp_window.specs.Window.{bounded, read_below};

/// An address that is not in bounds.
#[derive(Clone, Copy, Debug, PartialEq, Eq)]
pub struct Bounds {
    /// The address.
    pub address: u16,
    /// The first address that is above all in bounds: how many words there are.
    pub top: u16,
}

/// The word at an address below `top`.
#[inline]
pub(crate) fn read_below(words: &Vec<u16>, address: u16, top: usize) -> Result<u16, Bounds>
    requires { top ≤ length words.now.items }
    ensures { result ≡ read_below words.now.items address top }
{
    if (address as usize) < top {
        Ok(words[address as usize])
    } else {
        Err(out_of_bounds(address, top))
    }
}

/// Puts a word at an address below `top`, in place.
#[inline]
pub(crate) fn write_below(
    words: &mut Vec<u16>,
    address: u16,
    top: usize,
    w: u16,
) -> Result<(), Bounds>
    requires { top ≤ length words.old.items }
    ensures value { result ≡ bounded address top tt }
    ensures ok { OnOk result (words.new.items ≡ slice_set words.old.items address w) }
    ensures err { OnErr result (words.new ≡ words.old) }
    ensures capacity { vec_capacity words.new ≡ vec_capacity words.old }
{
    if (address as usize) < top {
        words[address as usize] = w;
        Ok(())
    } else {
        Err(out_of_bounds(address, top))
    }
}

/// The refusal of an address.
#[inline]
fn out_of_bounds(address: u16, top: usize) -> Bounds
    requires { top ≤ address }
    ensures { result ≡ record { address = address; top = top } }
{
    Bounds {
        address,
        top: top as u16,
    }
}
