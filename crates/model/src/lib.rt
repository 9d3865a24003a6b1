// The types that the definitions of document 01 and the code share. What they mean stands in specs/.

#![tactic(auto)]

ghost use Rattle.std.specs.Prelude.{◌≡◌, ◌<◌, get_or};
ghost use Rattle.model.specs.Config.{entry_place};
ghost use Rattle.model.specs.ConfigFile.{num_question};
ghost use Rattle.model.specs.Num.{Bad};
ghost use Rattle.model.specs.declared.Unwritten.TheVariants.{Refused};
ghost use Rattle.model.specs.Answers.{number_of};

// The limits of a configuration (document 01, 'Line file').
pub const MOST_DRIVERS: u8 = 16;

pub const MOST_DEVICES: u8 = 16;

pub const MOST_OBJECTS: u8 = 192;

// A configuration with at most so many objects has an area with so many object records.
pub const SMALL_ROOM: u8 = 96;

pub const MOST_VALUES: u8 = 47;

pub const MOST_ENTRIES: u8 = 6;

// The latest edition of the file, and the one from which on a device has a serial (request N7).
pub const MOST_EDITION: u8 = 2;

pub const SERIAL_EDITION: u32 = 2;

// The kinds that a rule speaks of (document 01, 'Words'): a transfer descriptor and a hardcoded one; and the largest.
pub const TRANSFER_KIND: u8 = 1;

pub const HARDCODED_KIND: u8 = 4;

pub const MOST_KIND: u8 = HARDCODED_KIND;

// Whose an object is: external, a driver's, a device's; and the largest.
pub const EXTERNAL_CLASS: u8 = 0;

pub const DRIVER_CLASS: u8 = 1;

pub const DEVICE_CLASS: u8 = 2;

pub const MOST_CLASS: u8 = DEVICE_CLASS;

// The modes of an entry: read, write, both; and the largest.
pub const READ_MODE: u8 = 1;

pub const WRITE_MODE: u8 = 2;

pub const BOTH_MODE: u8 = 3;

pub const MOST_MODE: u8 = BOTH_MODE;

// The largest number, which is the largest serial too, and how many bytes one has at most.
pub const MOST_SERIAL: u32 = 2097151;

pub const MOST_NUMBER: usize = MOST_SERIAL as usize;

pub const MOST_BYTES: usize = 3;

// A table has one place more than the largest number, so that number n stands at place n.
pub const DEVICE_SLOTS: usize = MOST_DEVICES as usize + 1;

pub const OBJECT_SLOTS: usize = MOST_OBJECTS as usize + 1;

pub const VALUE_SLOTS: usize = MOST_VALUES as usize + 1;

// An entry takes three bytes: object, mode, stored value. Entry j, from 1, of value v is entry 6 * v + j of the table.
pub const ENTRY_BYTES: usize = 3;

pub const ENTRY_SLOTS: usize = ENTRY_BYTES * (MOST_ENTRIES as usize * VALUE_SLOTS + 1);

// How many items an operation has at most, and how many bytes an object holds.
pub const MOST_ITEMS: usize = 8;

pub const CONTENT_BYTES: usize = 16;

// The code that creates a green zone (document 02, N5).
pub const GREEN_CODE: usize = 13;

// Why the bytes at a place are no number.
#[derive(Clone, Copy)]
pub enum Fault {
    // No last byte.
    Cut,
    // More than three bytes, or not the shortest form. (What three bytes hold is never above the largest number.)
    Form,
}

// The question that is answered with no where something is refused. Each is named for what it asks, and has the
// paper's number.
#[derive(Clone, Copy)]
pub enum Question {
    // Of the file's numbers, of what is left over behind them, and of the whole file.
    LastByte = 1,
    ShortestForm = 2,
    InRange = 3,
    NothingLeft = 4,
    Paired = 5,
    Restrained = 6,
    // Of the areas that a call is lent.
    StateLength = 7,
    AnswerRoom = 8,
    WellFormed = 9,
    // Of an operation: its bytes, its names and its places.
    Readable = 10,
    Named = 11,
    NamedOnce = 12,
    KindsFit = 13,
    StatusFits = 14,
    LeftEmpty = 15,
    ActivityFits = 16,
    Placed = 17,
    // Of what devices reach.
    Described = 18,
    Confined = 19,
    Unnamed = 20,
    EntersConfined = 21,
    // Of green zones, and of locks.
    KeepsGreen = 22,
    LockFits = 23,
}

// Why a configuration was not written: the question that it answers with no, or the length that the area would need.
#[derive(Clone, Copy)]
pub enum Unwritten {
    Refused(Question),
    Short(usize),
}

// How many of each there are, and the edition of the file. The readers of a file hand it on by value, in two words of
// 32 bits.
#[derive(Clone, Copy)]
pub struct Counts {
    pub drivers: u8,
    pub devices: u8,
    pub objects: u8,
    pub values: u8,
    pub edition: u32,
}

// Columns by the number of the object, device or value; place 0 names none.
#[derive(Clone, Copy)]
pub struct Objects {
    pub kind: [u8; OBJECT_SLOTS],
    pub class: [u8; OBJECT_SLOTS],
    pub owner: [u8; OBJECT_SLOTS],
}

// The value of a device's hardcoded descriptor, and its serial, 0 where none is known.
#[derive(Clone, Copy)]
pub struct Devices {
    pub hardcoded: [u8; DEVICE_SLOTS],
    pub serial: [u32; DEVICE_SLOTS],
}

#[derive(Clone, Copy)]
pub struct Values {
    pub count: [u8; VALUE_SLOTS],
    pub entries: [u8; ENTRY_SLOTS],
}

// What a configuration file tells (document 01: line).
#[derive(Clone, Copy)]
pub struct Config {
    pub counts: Counts,
    pub objects: Objects,
    pub devices: Devices,
    pub values: Values,
}

// An operation taken apart (document 01: operation record). Item i, from 0, has its object, its second number (a value
// or a destination), its form, and its sixteen bytes of raw from place 16 * i.
#[derive(Clone, Copy)]
pub struct Operation {
    pub code: usize,
    pub subject: usize,
    pub partition: usize,
    pub count: usize,
    pub objects: [u32; MOST_ITEMS],
    pub seconds: [u32; MOST_ITEMS],
    pub forms: [u32; MOST_ITEMS],
    pub raw: [u8; CONTENT_BYTES * MOST_ITEMS],
}

// What a code does.
#[derive(Clone, Copy)]
pub enum Family {
    Write,
    Copy,
    Create,
    Destroy,
    Activate,
    Deactivate,
    Lock,
    Unlock,
}

// To whom a code does it, or by whom (document 01: driver, card, external objects).
#[derive(Clone, Copy)]
pub enum Actor {
    Driver,
    Device,
    External,
}

impl Question {
    // The number of the question in the paper, and in the answer to a caller in C.
    pub fn number(self) -> u8
        ensures { result ≡ number_of self }
    {
        self as u8
    }
}

impl Fault {
    // The question that bytes with such a fault answer with no.
    pub fn question(self) -> Question
        ensures { number_of result ≡ num_question (Bad self) }
    {
        match self {
            Fault::Cut => Question::LastByte,
            Fault::Form => Question::ShortestForm,
        }
    }
}

impl From<Fault> for Question {
    ghost from_gives = { λ f q. number_of q ≡ num_question (Bad f) };

    fn from(fault: Fault) -> Question {
        fault.question()
    }
}

impl From<Question> for Unwritten {
    ghost from_gives = { λ q u. u ≡ Refused q };

    fn from(question: Question) -> Unwritten {
        Unwritten::Refused(question)
    }
}

// Where entry j, from 1, of value v begins in the table of entries.
pub fn entry_place(v: u8, j: u8) -> usize
    ensures { result ≡ entry_place v j }
{
    ENTRY_BYTES * ((MOST_ENTRIES as usize) * (v as usize) + (j as usize))
}

// What a column has at place i, and 0 past its end.
pub fn byte_at(column: &[u8], i: usize) -> u8
    ensures { result ≡ get_or column.now i 0 }
{
    column.get(i).copied().unwrap_or(0)
}
