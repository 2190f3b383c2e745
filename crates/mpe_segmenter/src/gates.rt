//! The intrinsics by their entries in the gate.
ghost use Rattle.std.specs.Prelude.{◌≡◌, ◌≤◌};
ghost use Rattle.mpe_segmenter.specs.Entries.{gate_of};

/// The entry of an intrinsic, 1 to 8; 0 of a name that is none.
pub fn gate_number(name: &[u8]) -> u8
    ensures value { result ≡ gate_of name.now }
    ensures small { result ≤ 8 }
{
    if name == b"PRINT".as_slice() {
        1
    } else if name == b"READ".as_slice() {
        2
    } else if name == b"ASCII".as_slice() {
        3
    } else if name == b"DASCII".as_slice() {
        4
    } else if name == b"BINARY".as_slice() {
        5
    } else if name == b"DBINARY".as_slice() {
        6
    } else if name == b"TERMINATE".as_slice() {
        7
    } else if name == b"QUIT".as_slice() {
        8
    } else {
        0
    }
}
