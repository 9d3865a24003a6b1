// One stored case: what is called, and the row that it gives.
ghost use Rattle.std.specs.Prelude.{◌≡◌, ◌+◌, ◌*◌, ◌≤◌, ◌<◌, length, get_or};
ghost use Rattle.model.specs.Config.{most_objects};
ghost use Rattle.model.specs.State.{area_length};

use crate::memory::{judge_serial_write, judge_wide_write, judge_write};
use effect::ANSWER_BYTES;
use model::{Operation, Question};
use state::AREA_BYTES;
use state::area::Area;
use state::room::{area_length, room_for};

// What a case calls.
#[derive(Clone, Copy)]
enum Case {
    // The load check.
    Load,
    // Making a fresh state in an area of the length that the line needs, of a byte less, and of a byte more.
    Fresh,
    FreshShort,
    FreshLong,
    // Question 9, and question 10.
    Formed,
    Operation,
    // The writer on a configuration in memory, with columns for few objects; with columns for every object; and with
    // these, an edition and serials.
    Write,
    WriteWide,
    WriteSerials,
    // Making a fresh state in an area of any length; and on an area of any length and content: creating a partition,
    // the first bad record, an operation of any bytes.
    FreshIn,
    CreateIn,
    FirstBad,
    OperateIn,
    // The length that the line needs.
    StateBytes,
}

// The case of a number of the stored cases.
fn numbered(call: u8) -> Option<Case> {
    match call {
        1 => Some(Case::Load),
        2 => Some(Case::Fresh),
        3 => Some(Case::Formed),
        4 => Some(Case::Operation),
        5 => Some(Case::FreshShort),
        6 => Some(Case::FreshLong),
        7 => Some(Case::Write),
        8 => Some(Case::FreshIn),
        9 => Some(Case::CreateIn),
        10 => Some(Case::StateBytes),
        11 => Some(Case::WriteWide),
        12 => Some(Case::FirstBad),
        13 => Some(Case::OperateIn),
        14 => Some(Case::WriteSerials),
        _ => None,
    }
}

// How long the area of a case is at most.
pub(crate) const MOST_AREA: usize = 4096;

// What an area holds before a fresh state is made in it.
pub(crate) const OLD_BYTE: u8 = 170;

const PATCH_BYTES: usize = 3;

// An operation that creates partition 1.
const CREATION: [u8; 2] = [5, 1];

// What the checksums are taken by.
const SUM_BASE: u64 = 65521;

#[derive(Clone, Copy)]
pub(crate) struct Row {
    pub answer: u64,
    pub left: u64,
}

impl Row {
    // The row of a case that is none.
    pub(crate) const UNKNOWN: Row = Row {
        answer: 255,
        left: 0,
    };

    // The row of a call that leaves nothing.
    fn answered(answer: u32) -> Row {
        Row {
            answer: u64::from(answer),
            left: 0,
        }
    }

    // The row of a refusal.
    fn refused(question: Question) -> Row {
        Row {
            answer: u64::from(question.number()),
            left: 0,
        }
    }
}

// A number in two bytes, lower byte first.
pub(crate) fn two(bytes: [u8; 2]) -> usize
    ensures value { result ≡ get_or bytes 0 0 + 256 * get_or bytes 1 0 }
    ensures upper_bound { result < 65536 }
{
    usize::from(u16::from_le_bytes(bytes))
}

// As many bytes as the first two tell, and the rest.
pub(crate) fn counted(bytes: &[u8]) -> Option<(&[u8], &[u8])> {
    let (size, rest) = bytes.split_first_chunk::<2>()?;
    rest.split_at_checked(two(*size))
}

fn mix(sum: u64, x: u64) -> u64
    ensures { result < 65521 }
{
    ((sum % SUM_BASE) * 31 + x % 4294967296) % SUM_BASE
}

// A checksum, taken on by some numbers.
pub(crate) fn sum<T: Copy + Into<u64>>(sum: u64, numbers: &[T]) -> u64
    ensures { result < 65521 }
{
    numbers.iter().fold(sum, |sum, x| mix(sum, (*x).into())) % SUM_BASE
}

fn sum_operation(op: &Operation) -> u64 {
    let head = sum(
        0,
        &[
            op.code as u64,
            op.subject as u64,
            op.partition as u64,
            op.count as u64,
        ],
    );
    let objects = sum(head, &op.objects);
    let seconds = sum(objects, &op.seconds);
    let forms = sum(seconds, &op.forms);
    sum(forms, &op.raw)
}

fn judge_operation(bytes: &[u8]) -> Row {
    match operation::read_operation(bytes) {
        Some(op) => Row {
            answer: 0,
            left: sum_operation(&op),
        },
        None => Row::refused(Question::Readable),
    }
}

// A file, in an area of n bytes.
fn fresh_of(file: &[u8], n: usize) -> Option<Row> {
    let mut bytes = [OLD_BYTE; MOST_AREA];
    let area = bytes.get_mut(..n)?;
    let answer = gate::gate_fresh(file, area);
    Some(Row {
        answer: u64::from(answer),
        left: sum(0, &area[..]),
    })
}

// The length of the area that a file's line needs; a refused file has no objects.
fn needed(file: &[u8]) -> usize
    ensures least { 1 ≤ result }
    ensures most { result ≤ area_length most_objects }
{
    let objects = match config::load(file) {
        Ok(config) => config.counts.objects,
        Err(_) => 0,
    };
    area_length(room_for(objects))
}

// Three bytes each: a place in two bytes, and what stands there.
fn patch(area: &mut [u8], patches: &[u8])
    ensures { length area.new ≡ length area.old }
{
    for patch in patches.chunks_exact(PATCH_BYTES) {
        if let Some(byte) = area.get_mut(two([patch[0], patch[1]])) {
            *byte = patch[2];
        }
    }
}

// Question 9, of as much of the area as the file's line needs.
fn formed_row(file: &[u8], bytes: &[u8]) -> Option<Row> {
    let config = match config::load(file) {
        Ok(config) => config,
        Err(question) => return Some(Row::refused(question)),
    };
    let room = room_for(config.counts.objects);
    let bytes = bytes.get(..area_length(room))?;
    if state::formed::is_formed(&Area { bytes, room }, &config) {
        Some(Row::answered(0))
    } else {
        Some(Row::refused(Question::WellFormed))
    }
}

// A file after its length, and the bytes of the area that are not 0.
fn judge_formed(bytes: &[u8]) -> Option<Row> {
    let (size, rest) = bytes.split_first()?;
    let (file, patches) = rest.split_at_checked(usize::from(*size))?;
    let mut area = [0u8; AREA_BYTES];
    patch(&mut area, patches);
    formed_row(file, &area)
}

// An operation.
fn operate_row(file: &[u8], area: &mut [u8], record: &[u8]) -> Row {
    let mut answer = [0u8; ANSWER_BYTES];
    let number = gate::gate_operate(file, area, record, &mut answer);
    Row {
        answer: u64::from(number),
        left: sum(0, &area[..]),
    }
}

// The first bad record, and the answer to an operation whose record is empty: no area is changed.
fn first_bad_row(file: &[u8], area: &mut [u8]) -> Row {
    let mut answer = [0u8; ANSWER_BYTES];
    let place = gate::gate_first_bad(file, &area[..]);
    let number = gate::gate_operate(file, area, b"", &mut answer);
    Row {
        answer: place,
        left: u64::from(number),
    }
}

// A call on a file and an area: the file's length in two bytes, the file, the area's length in two bytes, and the bytes
// of the area that are not 0.
fn on_area<F: FnOnce(&[u8], &mut [u8]) -> Row>(bytes: &[u8], call: F) -> Option<Row>
    requires { F.IsAlwaysCallable call }
{
    let (file, rest) = counted(bytes)?;
    let (size, patches) = rest.split_first_chunk::<2>()?;
    let mut zeros = [0u8; MOST_AREA];
    let area = zeros.get_mut(..two(*size))?;
    patch(area, patches);
    Some(call(file, area))
}

fn row_of(case: Case, bytes: &[u8]) -> Option<Row> {
    match case {
        Case::Load => Some(Row::answered(gate::gate_load_check(bytes))),
        Case::Fresh => fresh_of(bytes, needed(bytes)),
        Case::FreshShort => fresh_of(bytes, needed(bytes) - 1),
        Case::FreshLong => fresh_of(bytes, needed(bytes) + 1),
        Case::Formed => judge_formed(bytes),
        Case::Operation => Some(judge_operation(bytes)),
        Case::Write => judge_write(bytes),
        Case::WriteWide => judge_wide_write(bytes),
        Case::WriteSerials => judge_serial_write(bytes),
        Case::FreshIn => {
            let (size, file) = bytes.split_first_chunk::<2>()?;
            fresh_of(file, two(*size))
        }
        Case::CreateIn => on_area(bytes, |file, area| operate_row(file, area, &CREATION)),
        Case::FirstBad => on_area(bytes, first_bad_row),
        Case::OperateIn => {
            let (record, rest) = counted(bytes)?;
            on_area(rest, |file, area| operate_row(file, area, record))
        }
        Case::StateBytes => Some(Row {
            answer: gate::gate_state_bytes(bytes),
            left: 0,
        }),
    }
}

// The row of a case by its number.
pub(crate) fn judge(call: u8, bytes: &[u8]) -> Row {
    match numbered(call) {
        Some(case) => row_of(case, bytes).unwrap_or(Row::UNKNOWN),
        None => Row::UNKNOWN,
    }
}
