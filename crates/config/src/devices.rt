// The devices of the file: for each the value number of its hardcoded descriptor and, from an edition on, its serial
// (request N7).
ghost use Rattle.std.specs.Prelude.{◌≡◌, ◌≤◌};
ghost use Rattle.model.specs.Answers.{field_of};
ghost use Rattle.model.specs.Config.{most_devices};
ghost use Rattle.model.specs.ConfigFile.{device, turns};
ghost use Rattle.sound.specs.Columns.{Within};
ghost use Rattle.config.specs.Readings.{progress, serial_at};

use crate::fields::{read_field, read_number};
use model::{Counts, Devices, MOST_SERIAL, Question, SERIAL_EDITION};

// The serial in a file of an edition that has serials; in an older one it is 0, and takes no byte.
#[tactic(auto, using(crate::proofs::Readers::serial_laws))]
fn read_serial(s: &[u8], edition: u32, at: usize) -> Result<(u32, usize), Question>
    ensures { field_of result ≡ serial_at s.now edition at }
{
    if edition < SERIAL_EDITION {
        return Ok((0, at));
    }
    let (serial, next) = read_number(s, at, 0, MOST_SERIAL as usize)?;
    Ok((serial as u32, next))
}

// Device c: the value number of its hardcoded descriptor, and its serial.
#[tactic(auto, using(crate::proofs::Readers::row_laws), unfolding(model::specs::ConfigFile::device_to))]
fn read_device(
    s: &[u8],
    counts: Counts,
    c: u8,
    at: usize,
    devices: &mut Devices,
) -> Result<usize, Question>
    requires { c ≤ most_devices }
    ensures { progress result devices.new ≡ device s.now counts c at devices.old }
{
    let (hardcoded, at) = read_field(s, at, 0, counts.values)?;
    let (serial, at) = read_serial(s, counts.edition, at)?;
    let i = c as usize;
    devices.hardcoded[i] = hardcoded;
    devices.serial[i] = serial;
    Ok(at)
}

// Devices 1 to V.
#[tactic(auto, using(crate::proofs::Readers::turn_laws))]
pub(crate) fn read_devices(
    s: &[u8],
    counts: Counts,
    from: usize,
    devices: &mut Devices,
) -> Result<usize, Question>
    requires { Within counts }
    ensures { progress result devices.new ≡ turns (device s.now counts) counts.devices 0 from devices.old }
{
    let mut at = from;
    for c in 1..counts.devices + 1 {
        at = read_device(s, counts, c, at, devices)?;
    }
    Ok(at)
}
