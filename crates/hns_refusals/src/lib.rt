//! The table of refusals of documents 01 and 02: the error of every call of the repository.
#![tactic(auto)]

ghost use Rattle.std.specs.Prelude.{◌≡◌, Some};
ghost use Rattle.hns_refusals.specs.Refusals.{number, values, printed};

use std::error::Error;
use std::fmt;

// The codes of fields that a refusal names. Numbers and no enum: a read takes any code, and an enum would ask more of its caller.
pub const ADDRESS_FIELD: u64 = 1;

pub const INVENTORY_FIELD: u64 = 2;

pub const LOCATOR_FIELD: u64 = 3;

pub const HEADER_FIELD: u64 = 4;

pub const INDEX_COUNT_FIELD: u64 = 5;

pub const INDEX_FIELD: u64 = 6;

pub const AGENT_FIELD: u64 = 7;

pub const REASON_FIELD: u64 = 8;

// A refusal with the values that the documents name of it.
#[derive(Clone, Copy, Debug, PartialEq, Eq)]
pub enum Refusal {
    // The bytes end in a field that begins at `offset`.
    UnexpectedEnd {
        offset: usize,
        missing: usize,
    },
    // A compact size of so many bits that has a shorter form.
    NotShortest {
        bits: u64,
    },
    // Bytes are left after the last field.
    TrailingBytes {
        remaining: usize,
    },
    // A frame of another network; the magics as words, but of 64 bits as every value is: a half of a value's place would keep
    // what a read answers out of registers.
    MagicMismatch {
        expected: u64,
        found: u64,
    },
    // A payload over 8,000,000 bytes.
    PayloadTooLarge {
        actual: usize,
    },
    // Held bytes and input over 16,000,018.
    StreamTooLarge {
        total: usize,
    },
    // A count, an index or a text over its limit, and the code of its field.
    OverLimit {
        actual: u64,
        maximum: u64,
        field: u64,
    },
    // Bytes that should be one frame and end in it.
    IncompleteFrame {
        missing: usize,
    },
    // An index that is read passes 65,535.
    IndexOver,
    // A text to write with a byte over 127.
    NotAscii {
        field: u64,
    },
    // A reject to write with a hash where its type has none, or without where it has one.
    HashPresence,
    // Too many indexes to write.
    TooManyIndexes {
        actual: usize,
    },
    // An index to write that passes 65,535.
    IndexTooLarge {
        place: usize,
    },
    // An index to write that is not above the one before.
    NotRising {
        place: usize,
    },
    // A header that is not 236 bytes.
    HeaderLength {
        actual: usize,
    },
    // An output that is too short for what is written.
    OutputShort {
        needed: usize,
    },
    // A store that is too short for the held bytes and the input.
    StoreShort {
        needed: usize,
    },
    // More held bytes than the store has.
    HeldOver {
        held: usize,
    },
    // An item asked for at a place that the list does not have.
    NoItem,
    // A tally whose totals have no room for the held bytes and the input.
    TallyFull,
    // A role above 7.
    NoRole,
    // A type that the role may not send.
    NotGranted,
}

impl Refusal {
    // Its row in the table.
    pub fn number(self) -> u64
        ensures { result ≡ number self }
    {
        match self {
            Refusal::UnexpectedEnd { .. } => 1,
            Refusal::NotShortest { .. } => 2,
            Refusal::TrailingBytes { .. } => 3,
            Refusal::MagicMismatch { .. } => 4,
            Refusal::PayloadTooLarge { .. } => 5,
            Refusal::StreamTooLarge { .. } => 6,
            Refusal::OverLimit { .. } => 7,
            Refusal::IncompleteFrame { .. } => 8,
            Refusal::IndexOver => 9,
            Refusal::NotAscii { .. } => 10,
            Refusal::HashPresence => 11,
            Refusal::TooManyIndexes { .. } => 12,
            Refusal::IndexTooLarge { .. } => 13,
            Refusal::NotRising { .. } => 14,
            Refusal::HeaderLength { .. } => 15,
            Refusal::OutputShort { .. } => 16,
            Refusal::StoreShort { .. } => 17,
            Refusal::HeldOver { .. } => 18,
            Refusal::NoItem => 19,
            Refusal::TallyFull => 20,
            Refusal::NoRole => 21,
            Refusal::NotGranted => 22,
        }
    }

    // The table's values a, b, c; 0 where it names none.
    pub fn values(self) -> [u64; 3]
        ensures { result ≡ values self }
    {
        match self {
            Refusal::UnexpectedEnd { offset, missing } => [offset as u64, missing as u64, 0],
            Refusal::NotShortest { bits } => [bits, 0, 0],
            Refusal::TrailingBytes { remaining } => [remaining as u64, 0, 0],
            Refusal::MagicMismatch { expected, found } => [expected, found, 0],
            Refusal::PayloadTooLarge { actual } => [actual as u64, 8_000_000, 0],
            Refusal::StreamTooLarge { total } => [total as u64, 16_000_018, 0],
            Refusal::OverLimit {
                actual,
                maximum,
                field,
            } => [actual, maximum, field],
            Refusal::IncompleteFrame { missing } => [missing as u64, 0, 0],
            Refusal::NotAscii { field } => [0, 0, field],
            Refusal::TooManyIndexes { actual } => [actual as u64, 16_662, 0],
            Refusal::IndexTooLarge { place } => [place as u64, 0, 0],
            Refusal::NotRising { place } => [place as u64, 0, 0],
            Refusal::HeaderLength { actual } => [actual as u64, 0, 0],
            Refusal::OutputShort { needed } => [needed as u64, 0, 0],
            Refusal::StoreShort { needed } => [needed as u64, 0, 0],
            Refusal::HeldOver { held } => [held as u64, 0, 0],
            Refusal::IndexOver
            | Refusal::HashPresence
            | Refusal::NoItem
            | Refusal::TallyFull
            | Refusal::NoRole
            | Refusal::NotGranted => [0; 3],
        }
    }
}

// The row: number and values.
impl fmt::Display for Refusal {
    ghost output = { λ refusal. Some (printed refusal) };

    fn fmt<W: fmt::Write>(&self, f: &mut fmt::Formatter<W>) -> fmt::Result {
        let [a, b, c] = self.values();
        write!(f, "{} {a} {b} {c}", self.number())
    }
}

impl Error for Refusal {}
