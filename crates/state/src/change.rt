// One change of the state that an area shows. A number that names nothing changes nothing.
ghost use Rattle.std.specs.Prelude.{◌≡◌, ◌+◌, ◌*◌, ◌<◌, length};
ghost use Rattle.model.specs.State.{cleared, area_length, view, layout};
ghost use Rattle.state.specs.Bytes.{with_byte};
ghost use Rattle.state.specs.Change.{with_status, with_driver, with_device, with_object, with_content, with_lock};

use crate::bytes::save;
use crate::{
    DEVICE_BYTES, DEVICES_FROM, DRIVER_BYTES, DRIVERS_FROM, LOCK_BYTES, PARTITIONS, RECORD_BYTES,
    RECORDS_FROM,
};
use model::CONTENT_BYTES;

// Of the bytes of 1 to `many`, which stand `step` apart behind place `before`, that of number n becomes v.
fn set_byte(s: &mut [u8], before: usize, step: usize, many: usize, n: usize, v: u8)
    requires { before + step * many < length s.old }
    ensures { s.new ≡ with_byte s.old before step many n v }
{
    if 1 <= n && n <= many {
        s[before + step * n] = v;
    }
}

// Partition p gets the status v.
pub fn set_status(area: &mut [u8], room: usize, p: usize, v: u8)
    requires { length area.old ≡ area_length room }
    ensures { area.new ≡ layout (with_status (view room area.old) p v) }
{
    if p < PARTITIONS {
        area[p] = v;
    }
}

// Driver d goes to partition v.
pub fn set_driver(area: &mut [u8], room: usize, d: usize, v: u8)
    requires { length area.old ≡ area_length room }
    ensures { area.new ≡ layout (with_driver (view room area.old) d v) }
{
    set_byte(area, DRIVERS_FROM - 1, 1, DRIVER_BYTES, d, v);
}

// Device c goes to partition v.
pub fn set_device(area: &mut [u8], room: usize, c: usize, v: u8)
    requires { length area.old ≡ area_length room }
    ensures { area.new ≡ layout (with_device (view room area.old) c v) }
{
    set_byte(area, DEVICES_FROM - 1, 1, DEVICE_BYTES, c, v);
}

// Device c gets the lock v.
pub fn set_lock(area: &mut [u8], room: usize, c: usize, v: u8)
    requires { length area.old ≡ area_length room }
    ensures { area.new ≡ layout (with_lock (view room area.old) c v) }
{
    set_byte(
        area,
        RECORDS_FROM - 1 + RECORD_BYTES * room,
        1,
        LOCK_BYTES,
        c,
        v,
    );
}

// Object n goes to partition v.
pub fn set_object(area: &mut [u8], room: usize, n: usize, v: u8)
    requires { length area.old ≡ area_length room }
    ensures { area.new ≡ layout (with_object (view room area.old) n v) }
{
    set_byte(area, RECORDS_FROM - RECORD_BYTES, RECORD_BYTES, room, n, v);
}

// Object n gets the contents v.
pub fn store(area: &mut [u8], room: usize, n: usize, v: [u8; CONTENT_BYTES])
    requires { length area.old ≡ area_length room }
    ensures { area.new ≡ layout (with_content (view room area.old) n v) }
{
    if 1 <= n && n <= room {
        save(area, RECORDS_FROM - CONTENT_BYTES + RECORD_BYTES * n, &v);
    }
}

// Object n is cleared.
pub fn clear(area: &mut [u8], room: usize, n: usize)
    requires { length area.old ≡ area_length room }
    ensures { area.new ≡ layout (with_content (view room area.old) n cleared) }
{
    store(area, room, n, [0u8; CONTENT_BYTES]);
}
