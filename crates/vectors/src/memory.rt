// A case of the writer: a configuration in memory, filled from bytes, and what the writer answers and leaves.
ghost use Rattle.std.specs.Prelude.{◌<◌};

use crate::cases::{MOST_AREA, OLD_BYTE, Row, sum, two};
use model::{
    Config, Counts, DEVICE_SLOTS, Devices, ENTRY_SLOTS, OBJECT_SLOTS, Objects, SMALL_ROOM,
    VALUE_SLOTS, Values, byte_at,
};
use writer::code_of;

// How many bytes there are before the columns.
const COUNT_BYTES: usize = 4;

// Of a case with serials: the edition's byte, and the bytes of a serial.
const EDITION_BYTES: usize = 1;

const SERIAL_BYTES: usize = 4;

// The edition of a case that tells none.
const FIRST_EDITION: u8 = 1;

// How many bytes the column of a case has where there are few objects.
const SMALL_SLOTS: usize = SMALL_ROOM as usize + 1;

// The bytes after the first n.
fn after(bytes: &[u8], n: usize) -> &[u8] {
    bytes.get(n..).unwrap_or(&[])
}

// The first n bytes, or all where there are fewer.
fn upto(bytes: &[u8], n: usize) -> &[u8] {
    bytes.get(..n).unwrap_or(bytes)
}

// A column's bytes, as far as there are any; the others stay 0.
fn fill(column: &mut [u8], bytes: &[u8]) {
    for (place, byte) in column.iter_mut().zip(bytes) {
        *place = *byte;
    }
}

// The serials, lowest byte first; bytes that are missing at the end are 0.
fn fill_serials(serials: &mut [u32; DEVICE_SLOTS], bytes: &[u8]) {
    for i in 0..DEVICE_SLOTS {
        let at = SERIAL_BYTES * i;
        serials[i] = u32::from_le_bytes([
            byte_at(bytes, at),
            byte_at(bytes, at + 1),
            byte_at(bytes, at + 2),
            byte_at(bytes, at + 3),
        ]);
    }
}

// A configuration with columns from bytes, each of the objects' with `slots` places; bytes that are missing at the end
// are 0.
fn filled(counts: Counts, serial: [u32; DEVICE_SLOTS], slots: usize, bytes: &[u8]) -> Config {
    let mut config = Config {
        counts,
        objects: Objects {
            kind: [0u8; OBJECT_SLOTS],
            class: [0u8; OBJECT_SLOTS],
            owner: [0u8; OBJECT_SLOTS],
        },
        devices: Devices {
            hardcoded: [0u8; DEVICE_SLOTS],
            serial,
        },
        values: Values {
            count: [0u8; VALUE_SLOTS],
            entries: [0u8; ENTRY_SLOTS],
        },
    };
    fill(&mut config.objects.kind, upto(bytes, slots));
    let a = after(bytes, slots);
    fill(&mut config.objects.class, upto(a, slots));
    let b = after(a, slots);
    fill(&mut config.objects.owner, upto(b, slots));
    let c = after(b, slots);
    fill(&mut config.devices.hardcoded, c);
    let d = after(c, DEVICE_SLOTS);
    fill(&mut config.values.count, d);
    fill(&mut config.values.entries, after(d, VALUE_SLOTS));
    config
}

// Writes a configuration into an area, and answers the writer's number and the checksum of the area.
fn written(config: &Config, area: &mut [u8]) -> Row {
    let answer = code_of(writer::write(config, area));
    Row {
        answer,
        left: sum(0, &area[..]),
    }
}

// The four counts, and the columns; bytes that are missing at the end are 0. The area has n bytes.
fn judge_memory(
    n: usize,
    edition: u8,
    serial: [u32; DEVICE_SLOTS],
    slots: usize,
    memory: &[u8],
) -> Row {
    let counts = Counts {
        drivers: byte_at(memory, 0),
        devices: byte_at(memory, 1),
        objects: byte_at(memory, 2),
        values: byte_at(memory, 3),
        edition: u32::from(edition),
    };
    let config = filled(counts, serial, slots, after(memory, COUNT_BYTES));
    let mut area = [OLD_BYTE; MOST_AREA];
    written(&config, &mut area[..n.min(MOST_AREA)])
}

// The area's length in two bytes, and a memory of edition 1, without serials.
fn judge_columns(slots: usize, bytes: &[u8]) -> Option<Row> {
    let (size, memory) = bytes.split_first_chunk::<2>()?;
    Some(judge_memory(
        two(*size),
        FIRST_EDITION,
        [0u32; DEVICE_SLOTS],
        slots,
        memory,
    ))
}

// A case with columns for a small room, or for every object that there may be.
pub(crate) fn judge_write(bytes: &[u8]) -> Option<Row> {
    judge_columns(SMALL_SLOTS, bytes)
}

pub(crate) fn judge_wide_write(bytes: &[u8]) -> Option<Row> {
    judge_columns(OBJECT_SLOTS, bytes)
}

// The area's length in two bytes, the edition in one, the serials in four each, and a memory with columns for every
// object that there may be.
pub(crate) fn judge_serial_write(bytes: &[u8]) -> Option<Row> {
    let (size, marks) = bytes.split_first_chunk::<2>()?;
    let serials = after(marks, EDITION_BYTES);
    let mut serial = [0u32; DEVICE_SLOTS];
    fill_serials(&mut serial, serials);
    let memory = after(serials, SERIAL_BYTES * DEVICE_SLOTS);
    Some(judge_memory(two(*size), byte_at(marks, 0), serial, OBJECT_SLOTS, memory))
}
