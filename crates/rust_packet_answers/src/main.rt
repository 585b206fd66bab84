//! The published Rust's answers about packets that are read, asked of the port: a line of standard input is a case in
//! hexadecimal, and the file stdout has what the Rust answered. `differential/run --answers` makes both.
//!
//! A case is its kind, a packet type, three numbers of eight bytes, and its bytes. The first number is the length of the
//! lent output, or the place of an item. The others say which zeros the bytes leave out: after how many bytes they stand,
//! and how many there are. So a short line has a payload of megabytes.
//!
//! An answer is the kind, and 0 with what was answered, or the refusal's number and values; then the lent output. For a
//! place it has the bytes that stand there, since the Rust has no places; but for where a list of addresses or differences
//! begins, and among the numbers of all items.
#![tactic(auto)]

ghost use Rattle.std.specs.Prelude.{◌<◌};

use case_input::Asked;
use case_lines::{Numbers, Shown, counted};
use hns_encoding::{first, from_place};
use hns_p2p_types::PacketType;
use std::fmt::{self, Display};
use std::io;

// There is no heap: what is lent to a call stands in a local array, of the length that the cases need, with places in it as numbers.

// Bytes of a line.
const ROOM: usize = 4_096;

// Bytes of a case: a hash, and a payload one byte over the limit. The stack of 8 MB has room for one of these.
const LONG_ROOM: usize = 8_000_033;

// Bytes of a lent output.
const OUT_ROOM: usize = 1_024;

// A text in hexadecimal, each byte without its top bit, which Hex keeps.
#[derive(Clone, Copy, Debug, PartialEq, Eq)]
struct Text<'a>(&'a [u8]);

impl Display for Text<'_> {
    fn fmt<W: fmt::Write>(&self, f: &mut fmt::Formatter<W>) -> fmt::Result {
        if self.0.is_empty() {
            return write!(f, "-");
        }
        for byte in self.0 {
            write!(f, "{:02x}", byte % 128)?;
        }
        Ok(())
    }
}

// What a payload reads as: a row of the C interface that begins with 0.
#[derive(Clone, Copy, Debug, PartialEq, Eq)]
struct Answer<'a> {
    packet_type: u8,
    payload: &'a [u8],
    row: [u64; 16],
}

impl Answer<'_> {
    // The bytes at the place that a number of the row is: which numbers are places goes by the type.
    fn part(&self, number: usize, n: u64) -> Shown<'_>
        requires { number < 16 }
    {
        case_lines::part(self.payload, self.row[number], n)
    }

    // The text at a place, with its length beside it.
    fn text(&self, number: usize) -> Text<'_>
        requires { number < 15 }
    {
        let there = from_place(self.payload, self.row[number] as usize);
        Text(first(there, self.row[number + 1] as usize))
    }

    // The bytes from where a list begins, up to an end.
    fn list(&self, end: u64) -> Shown<'_> {
        let payload = first(self.payload, end as usize);
        Shown(from_place(payload, self.row[2] as usize))
    }

    // So many numbers, or none, and the bytes at the place after them.
    fn placed<W: fmt::Write>(&self, f: &mut fmt::Formatter<W>, count: usize, n: u64) -> fmt::Result
        requires { count < 15 }
    {
        let numbers = Numbers(&self.row[1..count + 1]);
        write!(f, "{numbers} {}", self.part(count + 1, n))
    }
}

// As a packet.
#[derive(Clone, Copy, Debug, PartialEq, Eq)]
struct Packet<'a>(Answer<'a>);

impl Packet<'_> {
    fn version<W: fmt::Write>(&self, f: &mut fmt::Formatter<W>) -> fmt::Result {
        let answer = self.0;
        let row = answer.row;
        let more = [row[10], row[13], row[14]];
        write!(f, "{}{}", Numbers(&row[1..9]), Numbers(&more))?;
        write!(f, " {} {}", answer.part(9, 33), answer.text(11))
    }

    fn locator<W: fmt::Write>(&self, f: &mut fmt::Formatter<W>) -> fmt::Result {
        let answer = self.0;
        let [_, count, _, end, ..] = answer.row;
        write!(f, " {count} {} {}", answer.list(end), answer.part(3, 32))
    }

    fn reject<W: fmt::Write>(&self, f: &mut fmt::Formatter<W>) -> fmt::Result {
        let answer = self.0;
        let [_, message, code, _, _, there, ..] = answer.row;
        let hash = answer.part(6, there % 2 * 32);
        write!(f, " {message} {code} {there} {} {hash}", answer.text(3))
    }
}

impl Display for Packet<'_> {
    fn fmt<W: fmt::Write>(&self, f: &mut fmt::Formatter<W>) -> fmt::Result {
        let answer = self.0;
        let [_, one, two, ..] = answer.row;
        match PacketType::from(answer.packet_type) {
            PacketType::Version => self.version(f),
            PacketType::Verack
            | PacketType::GetAddr
            | PacketType::SendHeaders
            | PacketType::Mempool
            | PacketType::FilterClear => Ok(()),
            PacketType::Ping | PacketType::Pong | PacketType::FeeFilter => write!(f, " {one}"),
            PacketType::Addr | PacketType::SendCmpct => write!(f, " {one} {two}"),
            PacketType::Inv | PacketType::GetData | PacketType::NotFound | PacketType::Headers => {
                write!(f, " {one} {}", answer.list(u64::MAX))
            }
            PacketType::GetBlocks | PacketType::GetHeaders => self.locator(f),
            PacketType::Reject => self.reject(f),
            PacketType::GetBlockTxn => answer.placed(f, 2, 32),
            PacketType::GetProof => write!(f, " {} {}", answer.part(1, 32), answer.part(2, 32)),
            _ => answer.placed(f, 0, two),
        }
    }
}

// As an item.
#[derive(Clone, Copy, Debug, PartialEq, Eq)]
struct Item<'a>(Answer<'a>);

impl Display for Item<'_> {
    fn fmt<W: fmt::Write>(&self, f: &mut fmt::Formatter<W>) -> fmt::Result {
        let answer = self.0;
        let [_, one, ..] = answer.row;
        match PacketType::from(answer.packet_type) {
            PacketType::Addr => answer.placed(f, 5, 33),
            PacketType::Inv | PacketType::GetData | PacketType::NotFound => {
                answer.placed(f, 1, 32)
            }
            PacketType::GetBlocks | PacketType::GetHeaders => answer.placed(f, 0, 32),
            PacketType::Headers => answer.placed(f, 0, 236),
            _ => write!(f, " {one}"),
        }
    }
}

// 0 and what was answered, or the refusal's number and values. A row is the C interface's, and no type of ours to show.
fn answered(rt: &impl Print, row: [u64; 16], shown: impl Display + Drop) -> io::Result<()> {
    if let [0, ..] = row {
        print!(rt; " 0{shown}")
    } else {
        print!(rt; "{}", counted(&row))
    }
}

// The output that is lent for a text is shown after the packet. Nothing is asked if it is longer than there is room for. Type, payload
// and place are handed on one by one, as the C interface takes them.
fn ask_packet(rt: &impl Print, packet_type: u8, room: usize, payload: &[u8]) -> io::Result<()> {
    let mut lent = [0xaau8; OUT_ROOM];
    let Some(out) = lent.get_mut(..room) else {
        return Ok(());
    };
    let mut row = [0u64; 16];
    hns_ffi_packets::hns_read_packet(&[], packet_type, payload, out, &mut row);
    let answer = Answer {
        packet_type,
        payload,
        row,
    };
    answered(rt, row, Packet(answer))?;
    print!(rt; " {}", Shown(out))
}

fn ask_item(rt: &impl Print, packet_type: u8, payload: &[u8], place: usize) -> io::Result<()> {
    let mut row = [0u64; 16];
    hns_ffi_packets::hns_item(&[], packet_type, payload, place, &mut row);
    let answer = Answer {
        packet_type,
        payload,
        row,
    };
    answered(rt, row, Item(answer))
}

// All indexes, or all numbers of items: how many there are, or the refusal; and the numbers that were lent for them.
fn ask_all(rt: &impl Print, packet_type: u8, payload: &[u8]) -> io::Result<()> {
    let mut row = [0u64; 16];
    let mut lent = [170u64; 10];
    let room = match PacketType::from(packet_type) {
        PacketType::GetBlockTxn => {
            hns_ffi_packets::hns_indexes(&[], payload, &mut lent[..5], &mut row);
            5
        }
        _ => {
            hns_ffi_packets::hns_item_numbers(&[], packet_type, payload, &mut lent, &mut row);
            10
        }
    };
    print!(rt; "{}{}", counted(&row), Numbers(&lent[..room]))
}

// What stands at the place that the finder answers is shown: document 01 leaves open which place it is.
fn ask_find(rt: &impl Print, packet_type: u8, payload: &[u8], hash: &[u8]) -> io::Result<()> {
    let mut row = [0u64; 16];
    hns_ffi_packets::hns_find(&[], packet_type, payload, hash, &mut row);
    print!(rt; "{}", counted(&row))?;
    if let [0, 1, place, ..] = row {
        let mut item = [0u64; 16];
        hns_ffi_packets::hns_item(&[], packet_type, payload, place as usize, &mut item);
        print!(rt; " {}", case_lines::part(payload, item[2], 32))?;
    }
    Ok(())
}

// The kinds are the cases' own bytes, and each stands here once: an enum would name each question a second time.
fn ask(rt: &impl Print, q: Asked, bytes: &[u8]) -> io::Result<()> {
    let n = q.a as usize;
    print!(rt; "{}", q.kind)?;
    match q.kind {
        24 => ask_packet(rt, q.about, n, bytes),
        25 => ask_item(rt, q.about, bytes, n),
        26 => ask_all(rt, q.about, bytes),
        _ => ask_find(rt, q.about, from_place(bytes, 32), bytes),
    }
}

// Each program has a main of its own: what it lends to its cases, and what it asks.
fn main(rt: HostRuntime) -> io::Result<()> {
    let mut buffer = [0u8; 65_536];
    let mut case = [0u8; ROOM];
    let mut long = [0u8; LONG_ROOM];
    case_input::run_any(&rt, &mut rt.stdin(), &mut buffer, &mut case, |case| {
        case_input::with_question(case, &mut long, |q, bytes| ask(&rt, q, bytes))
    })
}
