// Whom question 22 is put to: what is stored in a green zone, and what comes into one.
ghost use Rattle.std.specs.Prelude.{◌≡◌};
ghost use Rattle.state.specs.Shown.{shown};
ghost use Rattle.gate.specs.Ruled.{ruled};

use green::rule::{is_by_device, zone_of};
use model::{Actor, Family, Operation};
use searches::next::is_entering;
use searches::transfers::is_storing;
use state::area::Area;

// 22 is put: something is stored in a green zone, or a device comes into one.
pub(crate) fn is_ruled(area: &Area, op: &Operation, f: Family, a: Actor) -> bool
    ensures { result ≡ ruled (shown area.now) op.now f a }
{
    if !is_storing(f) {
        return is_entering(f, a) & area.is_green(op.partition);
    }
    if is_by_device(a) {
        return false;
    }
    area.is_green(zone_of(area, op, a))
}
