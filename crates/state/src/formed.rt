// Question 9: is the state well formed? The rules of the head, and a walk over the records that finds nothing.
ghost use Rattle.std.specs.Prelude.{◌≡◌};
ghost use Rattle.model.specs.State.{right_assignment, well_formed, head_formed};
ghost use Rattle.state.specs.Shown.{shown};
ghost use Rattle.state.specs.Formed.{statuses_right, assignments_right, TablesOf};

use crate::area::Area;
use crate::locks::locks_formed;
use crate::tables::Tables;
use crate::walk::walk;
use crate::{DEVICE_BYTES, DRIVER_BYTES, MOST_STATUS, PARTITIONS};
use model::{Config, Counts};

// Every status is 0 to 3, and that of partition 0 is 0. No status ends the search for the highest, so that it takes
// many at a time.
fn statuses_formed(area: &Area) -> bool
    ensures { result ≡ statuses_right (shown area.now) }
{
    let statuses = &area.bytes[..PARTITIONS];
    area.status(0) == 0 && statuses.iter().copied().max().unwrap_or(0) <= MOST_STATUS
}

// The partition byte p of driver or device n is 0 or names an existing partition; it is 0 if n is none of the `many`
// that there are.
fn is_assignment_right(area: &Area, tables: &Tables, many: u8, n: usize, p: u8) -> bool
    requires { TablesOf (shown area.now) tables.now }
    ensures { result ≡ right_assignment (shown area.now) many n p }
{
    if n <= usize::from(many) {
        tables.is_assigned(p)
    } else {
        p == 0
    }
}

// The partition bytes of all drivers and of all devices are right.
fn assignments_formed(area: &Area, config: &Config, tables: &Tables) -> bool
    requires { TablesOf (shown area.now) tables.now }
    ensures { result ≡ assignments_right config.now (shown area.now) }
{
    let Counts {
        drivers,
        devices,
        ..
    } = config.counts;
    (1..DRIVER_BYTES + 1).all(|d| is_assignment_right(area, tables, drivers, d, area.driver(d)))
        && (1..DEVICE_BYTES + 1).all(|c| is_assignment_right(
            area,
            tables,
            devices,
            c,
            area.device(c),
        ))
}

// The rules of the head: of the statuses, of the drivers' partition bytes, of the devices' and of their locks.
fn is_head_formed(area: &Area, config: &Config, tables: &Tables) -> bool
    requires { TablesOf (shown area.now) tables.now }
    ensures { result ≡ head_formed config.now (shown area.now) }
{
    statuses_formed(area) && assignments_formed(area, config, tables) && locks_formed(area, config)
}

// Question 9.
pub fn is_formed(area: &Area, config: &Config) -> bool
    ensures { result ≡ well_formed area.now.room config.now (shown area.now) }
{
    let mut tables = Tables::blank();
    tables.fill(area);
    tables.housed = is_head_formed(area, config, &tables);
    tables.housed && walk(area, config, &tables).is_none()
}
