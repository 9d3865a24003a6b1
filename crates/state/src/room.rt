// How many object records an area has, and how long it is then (request N2: room by the configuration's count alone).
ghost use Rattle.std.specs.Prelude.{◌≡◌, ◌≤◌};
ghost use Rattle.model.specs.Number.{most_number};
ghost use Rattle.model.specs.State.{room_for, area_length};

use crate::{LOCK_BYTES, RECORD_BYTES, RECORDS_FROM};
use model::{MOST_OBJECTS, SMALL_ROOM};

// How many object records the area of a configuration with n objects has.
pub fn room_for(n: u8) -> usize
    ensures { result ≡ room_for n }
{
    if n <= SMALL_ROOM {
        usize::from(SMALL_ROOM)
    } else {
        usize::from(MOST_OBJECTS)
    }
}

// The length of an area with `room` object records.
pub fn area_length(room: usize) -> usize
    requires { room ≤ most_number }
    ensures { result ≡ area_length room }
{
    RECORDS_FROM + RECORD_BYTES * room + LOCK_BYTES
}
