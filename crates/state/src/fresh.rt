// A fresh state: zeros, but for the hardcoded descriptors.
ghost use Rattle.std.specs.Prelude.{◌≡◌, length, replicate};
ghost use Rattle.model.specs.State.{area_length, view, layout, fresh};
ghost use Rattle.state.specs.Fresh.{valued};

use crate::bytes::value_bytes;
use crate::change::store;
use model::{Config, HARDCODED_KIND, byte_at};

// Object n gets its device's value number, if it is a hardcoded descriptor.
fn store_hardcoded(area: &mut [u8], room: usize, config: &Config, n: usize)
    requires { length area.old ≡ area_length room }
    ensures { area.new ≡ layout (valued config.now n (view room area.old)) }
{
    if usize::from(config.counts.objects) < n {
        return;
    }
    if byte_at(&config.objects.kind, n) == HARDCODED_KIND {
        let o = byte_at(&config.objects.owner, n);
        let v = byte_at(&config.devices.hardcoded, usize::from(o));
        store(area, room, n, value_bytes(v));
    }
}

// An area of zeros gets the values of the hardcoded descriptors.
fn store_values(area: &mut [u8], room: usize, config: &Config)
    requires { area.old ≡ replicate (area_length room) 0 }
    ensures { area.new ≡ layout (fresh room config.now) }
{
    let present = room.min(usize::from(config.counts.objects));
    for before in 0..present {
        store_hardcoded(area, room, config, before + 1);
    }
}

// The area as a fresh state, whatever it held.
pub fn make_fresh(area: &mut [u8], room: usize, config: &Config)
    requires { length area.old ≡ area_length room }
    ensures { area.new ≡ layout (fresh room config.now) }
{
    area.fill(0);
    store_values(area, room, config);
}
