//! Where a walk along the units of a program has come to.

/// Where a walk along the declarations of a unit has come to.
#[derive(Clone, Copy, Debug, PartialEq, Eq)]
pub struct Cursor {
    /// How many procedures there are so far.
    pub routines: u64,
    /// The address of the next OWN item.
    pub own: u64,
    /// The address of the data of the next OWN array.
    pub own_arrays: u64,
    /// The number of the next procedure's room.
    pub room: u64,
    /// The number of the room of the main body's next subroutine.
    pub inner_room: u64,
}

/// Where the data and the rooms of a unit begin.
#[derive(Clone, Copy, Debug, PartialEq, Eq)]
pub struct Start {
    /// The address of its first global.
    pub primary: u64,
    /// The address of its first OWN item.
    pub own: u64,
    /// The address of the data of its first OWN array.
    pub own_arrays: u64,
    /// The number of its first room.
    pub room: u64,
}
