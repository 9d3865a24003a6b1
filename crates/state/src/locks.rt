// Question 9, the locks (document 02, N6): each is 0 or 1, and 0 where the device is absent or active.
ghost use Rattle.std.specs.Prelude.{◌≡◌};
ghost use Rattle.model.specs.State.{right_lock};
ghost use Rattle.state.specs.Shown.{shown};
ghost use Rattle.state.specs.Formed.{locks_right};

use crate::area::Area;
use crate::bytes::load;
use crate::{LOCK_BYTES, LOCKED, RECORD_BYTES, RECORDS_FROM, UNLOCKED};
use model::Config;

// The lock of device c is right.
fn is_lock_right(area: &Area, config: &Config, c: usize) -> bool
    ensures { result ≡ right_lock config.now (shown area.now) c }
{
    match area.lock(c) {
        UNLOCKED => true,
        LOCKED => c <= usize::from(config.counts.devices) && area.device(c) == 0,
        _ => false,
    }
}

// Every lock is. Where there is none, which is so nearly always, all of them as one number tell it.
pub(crate) fn locks_formed(area: &Area, config: &Config) -> bool
    ensures { result ≡ locks_right config.now (shown area.now) }
{
    let locks = load(area.bytes, RECORDS_FROM + RECORD_BYTES * area.room);
    u128::from_le_bytes(locks) == 0 || (1..LOCK_BYTES + 1).all(|c| is_lock_right(area, config, c))
}
