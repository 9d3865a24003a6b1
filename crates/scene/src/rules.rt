// The tests of the closure's rules, on the configuration's columns and a state area.
ghost use Rattle.std.specs.Prelude.{◌≡◌, ◌≤◌};
ghost use Rattle.model.specs.Config.{most_devices, most_mode, most_objects};
ghost use Rattle.state.specs.Shown.{shown};
ghost use Rattle.scene.specs.Scene.{In};
ghost use Rattle.scene.specs.Rules.{reads_mode, writes_mode, owned};

use crate::area;
use model::{DEVICE_CLASS, HARDCODED_KIND, MOST_ENTRIES, Objects, READ_MODE, WRITE_MODE};
use state::area::Area;

// How many entries a value has room for.
pub const ENTRY_ROOM: usize = MOST_ENTRIES as usize;

// An entry of this mode, one of the three, reads: it does not write alone.
pub fn is_reading(mode: u8) -> bool
    requires { In most_mode mode }
    ensures { result ≡ reads_mode mode }
{
    mode != WRITE_MODE
}

// An entry of this mode, one of the three, writes: it does not read alone.
pub fn is_writing(mode: u8) -> bool
    requires { In most_mode mode }
    ensures { result ≡ writes_mode mode }
{
    mode != READ_MODE
}

// Device c is active, and object o is its hardcoded descriptor.
pub fn is_hardcoded_of(objects: &Objects, area: &Area, c: usize, o: usize) -> bool
    requires device { In most_devices c }
    requires object { o ≤ most_objects }
    ensures { result ≡ owned objects.now.kind objects.now.class objects.now.owner (shown area.now) c o }
{
    let active = area::device_in(area, c) != 0;
    active
        & ((objects.kind[o] == HARDCODED_KIND)
            & (objects.class[o] == DEVICE_CLASS)
            & (usize::from(objects.owner[o]) == c))
}
