//! Rooms by number.
ghost use Rattle.std.specs.Prelude.{◌≡◌};
ghost use Rattle.spl_routine_code.specs.Routines as r;

use spl_rooms::Room;
use spl_tree::At;

/// A room of nothing.
const NO_ROOM: Room = Room {
    at: At {
        unit: 0,
        line: 0,
        column: 0,
    },
    locals: 0,
    depth: 0,
    result: None,
};

/// The room of a number; behind the last, a room of nothing.
pub fn room_at(rooms: &[Room], k: u64) -> Room
    ensures { result ≡ r.room_at rooms.now k }
{
    rooms.get(k as usize).copied().unwrap_or(NO_ROOM)
}
