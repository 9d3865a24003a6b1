// A state area lent for reading, and what it shows of partitions, drivers, devices and objects. A number that names
// nothing shows 0.
ghost use Rattle.std.specs.Prelude.{◌≡◌, ◌+◌, ◌*◌, ◌<◌, length};
ghost use Rattle.model.specs.State.{status_of, existing, green, driver_in, device_in, object_in, content_of};
ghost use Rattle.model.specs.State.{held, lock_of, area_length};
ghost use Rattle.state.specs.Bytes.{byte_of};

use crate::bytes::load;
use crate::look::is_standing;
use crate::{
    DEVICE_BYTES, DEVICES_FROM, DRIVER_BYTES, DRIVERS_FROM, GREEN, LOCK_BYTES, PARTITIONS,
    RECORD_BYTES, RECORDS_FROM,
};
use model::CONTENT_BYTES;

// The bytes of the area, and how many object records it has. It has the length for these (question 7).
#[derive(Clone, Copy)]
pub struct Area<'a> {
    pub bytes: &'a [u8],
    pub room: usize,
    pub ghost sized: { length bytes.now ≡ area_length room },
}

impl<'a> Area<'a> {
    ghost use Rattle.state.specs.Shown.{shown};

    // The byte of number n of 1 to `many`, which stand `step` apart behind place `before`.
    fn byte(&self, before: usize, step: usize, many: usize, n: usize) -> u8
        requires { before + step * many < length self.now.bytes.now }
        ensures { result ≡ byte_of self.now.bytes.now before step many n }
    {
        if 1 <= n && n <= many {
            self.bytes[before + step * n]
        } else {
            0
        }
    }

    // The status of partition p.
    pub fn status(&self, p: usize) -> u8
        ensures { result ≡ status_of (shown self.now) p }
    {
        if p < PARTITIONS { self.bytes[p] } else { 0 }
    }

    // Partition p exists, green or not.
    pub fn is_existing(&self, p: usize) -> bool
        ensures { result ≡ existing (shown self.now) p }
    {
        is_standing(self.status(p))
    }

    // Partition p is a green zone.
    pub fn is_green(&self, p: usize) -> bool
        ensures { result ≡ green (shown self.now) p }
    {
        self.status(p) == GREEN
    }

    // The partition of driver d.
    pub fn driver(&self, d: usize) -> u8
        ensures { result ≡ driver_in (shown self.now) d }
    {
        self.byte(DRIVERS_FROM - 1, 1, DRIVER_BYTES, d)
    }

    // The partition of device c.
    pub fn device(&self, c: usize) -> u8
        ensures { result ≡ device_in (shown self.now) c }
    {
        self.byte(DEVICES_FROM - 1, 1, DEVICE_BYTES, c)
    }

    // The lock of device c.
    pub fn lock(&self, c: usize) -> u8
        ensures { result ≡ lock_of (shown self.now) c }
    {
        self.byte(
            RECORDS_FROM - 1 + RECORD_BYTES * self.room,
            1,
            LOCK_BYTES,
            c,
        )
    }

    // The partition of object n.
    pub fn object(&self, n: usize) -> u8
        ensures { result ≡ object_in (shown self.now) n }
    {
        self.byte(RECORDS_FROM - RECORD_BYTES, RECORD_BYTES, self.room, n)
    }

    // The value number that object n holds.
    pub fn value(&self, n: usize) -> u8
        ensures { result ≡ held (shown self.now) n }
    {
        self.byte(RECORDS_FROM - CONTENT_BYTES, RECORD_BYTES, self.room, n)
    }

    // The contents of object n.
    pub fn content(&self, n: usize) -> [u8; CONTENT_BYTES]
        ensures { result ≡ content_of (shown self.now) n }
    {
        if 1 <= n && n <= self.room {
            load(self.bytes, RECORDS_FROM - CONTENT_BYTES + RECORD_BYTES * n)
        } else {
            [0u8; CONTENT_BYTES]
        }
    }
}
