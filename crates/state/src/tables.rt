// What a walk over the records looks up of the head, by tables: a byte has 256 values, so that no look-up is out of
// range.
ghost use Rattle.std.specs.Prelude.{◌≡◌, get_or};
ghost use Rattle.model.specs.State.{stands};
ghost use Rattle.state.specs.Shown.{shown};
ghost use Rattle.state.specs.Formed.{at_home, IsBlank, TablesOf};

use crate::area::Area;
use crate::bytes::save;
use crate::look::is_standing;
use crate::{DEVICES_FROM, DRIVERS_FROM, EXISTING, PARTITIONS, RECORDS_FROM};

// How many values a byte has.
const BYTE_VALUES: usize = 256;

// By what a partition byte names: a status, which stands for 0 too. By its number: the partition of a driver, and of a
// device. And was the head found good, so that each of these is 0 or exists?
#[derive(Drop)]
pub(crate) struct Tables {
    pub(crate) named: [u8; BYTE_VALUES],
    pub(crate) drivers: [u8; BYTE_VALUES],
    pub(crate) devices: [u8; BYTE_VALUES],
    pub(crate) housed: bool,
}

impl Tables {
    // Tables of which nothing is put down yet.
    #[inline(always)]
    pub(crate) fn blank() -> Tables
        ensures { IsBlank result }
    {
        Tables {
            named: [0u8; BYTE_VALUES],
            drivers: [0u8; BYTE_VALUES],
            devices: [0u8; BYTE_VALUES],
            housed: false,
        }
    }

    // The tables of an area whose head may be anything, put down in place, since they are large.
    #[inline(always)]
    pub(crate) fn fill(&mut self, area: &Area)
        requires { IsBlank self.old }
        ensures { TablesOf (shown area.now) self.new }
    {
        save(&mut self.named, 0, &area.bytes[..PARTITIONS]);
        self.named[0] = EXISTING;
        save(
            &mut self.drivers,
            1,
            &area.bytes[DRIVERS_FROM..DEVICES_FROM],
        );
        save(
            &mut self.devices,
            1,
            &area.bytes[DEVICES_FROM..RECORDS_FROM],
        );
    }

    // A partition byte is 0 or names an existing partition.
    pub(crate) fn is_assigned(&self, p: u8) -> bool
        ensures { result ≡ stands (get_or self.now.named p 0) }
    {
        is_standing(self.named[usize::from(p)])
    }

    // An owned object's partition: its owner's, and none or one that exists. Where the head was found good, an owner's
    // is.
    pub(crate) fn is_home(&self, p: u8, home: u8) -> bool
        ensures { result ≡ at_home self.now p home }
    {
        p == home && (self.housed || self.is_assigned(p))
    }
}
