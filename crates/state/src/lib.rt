// The state area: lookups, contents of sixteen bytes, changes, a fresh state, and question 9. Who reads the area is
// lent an `Area`; who changes it, a slice, with `room`, which is how many object records it has.

#![tactic(auto)]

pub mod area;
pub mod bytes;
pub mod change;
pub mod formed;
pub mod fresh;
mod locks;
pub mod look;
pub mod room;
mod tables;
pub mod walk;

use model::{CONTENT_BYTES, MOST_DEVICES, MOST_DRIVERS, MOST_OBJECTS, SMALL_ROOM};

// The area (document 01, 'State area'): the status of partitions 0 to 63, a byte for each driver, a byte for each
// device, a record for each object: its partition, then its contents; and (document 02, N6) a lock for each device.
pub const MOST_PARTITION: u8 = 63;

pub(crate) const PARTITIONS: usize = MOST_PARTITION as usize + 1;

pub const DRIVER_BYTES: usize = MOST_DRIVERS as usize;

pub const DEVICE_BYTES: usize = MOST_DEVICES as usize;

pub const RECORD_BYTES: usize = CONTENT_BYTES + 1;

// Where the drivers' bytes, the devices' bytes and the records begin.
pub(crate) const DRIVERS_FROM: usize = PARTITIONS;

pub const DEVICES_FROM: usize = DRIVERS_FROM + DRIVER_BYTES;

pub const RECORDS_FROM: usize = DEVICES_FROM + DEVICE_BYTES;

// The locks follow the records, so where they begin depends on the room.
pub const LOCK_BYTES: usize = MOST_DEVICES as usize;

// The length of the area of a small room, and of the longest, which has a record for each object that there may be.
pub const SMALL_AREA_BYTES: usize = RECORDS_FROM
    + RECORD_BYTES * (SMALL_ROOM as usize)
    + LOCK_BYTES;

pub const AREA_BYTES: usize = RECORDS_FROM + RECORD_BYTES * (MOST_OBJECTS as usize) + LOCK_BYTES;

// The status of a partition: never used, existing, destroyed, existing and green; and the largest. Whether one counts
// as existing is said by `look::is_standing` alone.
pub const UNUSED: u8 = 0;

pub const EXISTING: u8 = 1;

pub const DESTROYED: u8 = 2;

pub const GREEN: u8 = 3;

pub(crate) const MOST_STATUS: u8 = GREEN;

// The lock of a device.
pub const UNLOCKED: u8 = 0;

pub const LOCKED: u8 = 1;
