// What the state area has of a device and of an object, by the places of `state`. A search knows that its numbers name
// something, so nothing is tested here.
ghost use Rattle.std.specs.Prelude.{◌≡◌};
ghost use Rattle.model.specs.Config.{most_devices};
ghost use Rattle.model.specs.State.{device_in, object_in, held};
ghost use Rattle.state.specs.Shown.{shown};
ghost use Rattle.scene.specs.Scene.{In};

use model::CONTENT_BYTES;
use state::area::Area;
use state::{DEVICES_FROM, RECORD_BYTES, RECORDS_FROM};

// The partition of device c.
pub fn device_in(area: &Area, c: usize) -> u8
    requires { In most_devices c }
    ensures { result ≡ device_in (shown area.now) c }
{
    area.bytes[DEVICES_FROM - 1 + c]
}

// The partition of object o.
pub fn object_in(area: &Area, o: usize) -> u8
    requires { In area.now.room o }
    ensures { result ≡ object_in (shown area.now) o }
{
    area.bytes[RECORDS_FROM - RECORD_BYTES + RECORD_BYTES * o]
}

// The value number that descriptor o holds.
pub fn held_by(area: &Area, o: usize) -> u8
    requires { In area.now.room o }
    ensures { result ≡ held (shown area.now) o }
{
    area.bytes[RECORDS_FROM - CONTENT_BYTES + RECORD_BYTES * o]
}
