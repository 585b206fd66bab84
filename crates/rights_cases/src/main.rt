//! Payloads read under terms, and the rights of roles: a line of standard input is a case in hexadecimal, and the file stdout
//! has the answers of model.py, which was written from documents 01 and 02.
//!
//! A case is its kind, a packet type, three numbers of eight bytes, and bytes. The first number is the place of an item. The
//! others say which zeros the bytes leave out: after how many bytes they stand, and how many there are. So a short line has a
//! payload of megabytes. The bytes are how many of them the terms take, the terms as compact sizes, and the payload.
//!
//! Kind 0 asks every call that takes terms about one payload, and shows four numbers of each answer, 0 first or the refusal,
//! and what was lent for it. Any other kind asks all calls that take a type about each of the 256 types, and shows the types
//! at which a refusal changes.
#![tactic(auto)]

use case_lines::{Hex, Numbers};
use hns_encoding::{array_at, first, from_place, u8_at};
use hns_p2p_types::{Items, Listing};
use hns_refusals::{ADDRESS_FIELD, HEADER_FIELD, INDEX_FIELD, INVENTORY_FIELD, LOCATOR_FIELD};
use std::fmt::{self, Display};
use std::io;

// There is no heap: what is lent to a call stands in a local array, of the length that the cases need, with places in it as numbers.

// Bytes of a line.
const ROOM: usize = 2_000;

// Bytes of a case: terms, and a payload one byte over the limit. The stack of 8 MB has room for one of these.
const LONG_ROOM: usize = 8_000_128;

// Terms, and some numbers behind them.
const TERMS_ROOM: usize = 12;

// What a text, numbers and a payload are written to: short, so that 16 is among the answers.
const TEXT_ROOM: usize = 4;

const NUMBERS_ROOM: usize = 7;

const OUT_ROOM: usize = 40;

// A row of the C interface: 0 and what was answered, or the refusal.
type Row = [u64; 16];

// Its first four numbers: an answer's, 0 first, or a refusal's.
#[derive(Clone, Copy, Debug, PartialEq, Eq)]
struct Front(Row);

impl Display for Front {
    fn fmt<W: fmt::Write>(&self, f: &mut fmt::Formatter<W>) -> fmt::Result {
        let [a, b, c, d, ..] = self.0;
        write!(f, " {a} {b} {c} {d}")
    }
}

fn items_row(items: Items, what: u64) -> Row {
    let Items { count, first } = items;
    let mut row = [0; 16];
    row[..4].copy_from_slice(&[0, count as u64, first as u64, what]);
    row
}

fn sheet(terms: &[u64]) -> Row {
    hns_packet_rows::of_stored(hns_p2p_rights::types_granted(terms).map(|n| n as usize))
}

// What every call but the table of types is asked about.
#[derive(Clone, Copy, Debug, PartialEq, Eq)]
struct Question<'a> {
    terms: &'a [u64],
    packet_type: u8,
    payload: &'a [u8],
    place: usize,
}

// A method for each call that takes terms: the call, and its row.
impl Question<'_> {
    fn sent(self) -> Row {
        let answer = hns_p2p_rights::may_send(self.terms, self.packet_type);
        hns_packet_rows::of_stored(answer.map(|()| 0))
    }

    // What the items are is shown by document 01's codes of fields, an arm for each. No From: it asks a call, and converts nothing.
    fn listed(self) -> Row {
        match hns_p2p_items::listing(self.terms, self.packet_type, self.payload) {
            Ok(Listing::Addresses(items)) => items_row(items, ADDRESS_FIELD),
            Ok(Listing::Inventory(items)) => items_row(items, INVENTORY_FIELD),
            Ok(Listing::Hashes(items)) => items_row(items, LOCATOR_FIELD),
            Ok(Listing::Headers(items)) => items_row(items, HEADER_FIELD),
            Ok(Listing::Indexes(items)) => items_row(items, INDEX_FIELD),
            Ok(Listing::Nothing) => [0; 16],
            Err(refusal) => hns_packet_rows::of_stored(Err(refusal)),
        }
    }

    fn packet(self, out: &mut [u8]) -> Row {
        let answer = hns_p2p_packet::read_packet(self.terms, self.packet_type, self.payload, out);
        hns_packet_rows::of_packet(answer)
    }

    fn read(self) -> Row {
        let answer = hns_p2p_packet::read_payload(self.terms, self.packet_type, self.payload);
        hns_packet_rows::of_packet(answer)
    }

    fn item(self) -> Row {
        let answer = hns_p2p_items::item(self.terms, self.packet_type, self.payload, self.place);
        hns_packet_rows::of_item(answer)
    }

    // The hash is that of the second inventory item, if the count takes one byte; zeros if the payload ends before.
    fn found(self) -> Row {
        let hash = array_at(self.payload, 41);
        let answer = hns_p2p_find::find(self.terms, self.packet_type, self.payload, hash);
        hns_packet_rows::of_found(answer)
    }

    fn indexes(self, out: &mut [u64]) -> Row {
        hns_packet_rows::of_stored(hns_p2p_indexes::indexes(self.terms, self.payload, out))
    }

    fn stored(self, out: &mut [u64]) -> Row {
        let answer = hns_p2p_item_numbers::item_numbers(
            self.terms,
            self.packet_type,
            self.payload,
            out,
        );
        hns_packet_rows::of_stored(answer)
    }

    fn rewritten(self, out: &mut [u8]) -> Row {
        let answer = hns_p2p_rewrite::rewrite(self.terms, self.packet_type, self.payload, out);
        hns_packet_rows::of_stored(answer)
    }
}

// What is lent for an answer is made where it is printed, here and below, so that no Display could stand for it.
fn ask_indexes(rt: &impl Print, q: Question) -> io::Result<()> {
    let mut out = [7u64; 3];
    let row = q.indexes(&mut out);
    print!(rt; " indexes{}{}", Front(row), Numbers(&out))
}

fn ask_all(rt: &impl Print, q: Question) -> io::Result<()> {
    let mut stored = [7u64; NUMBERS_ROOM];
    let mut agent = [0xaau8; TEXT_ROOM];
    let mut out = [0xaau8; OUT_ROOM];
    print!(rt; "send{} sheet{}", Front(q.sent()), Front(sheet(q.terms)))?;
    print!(rt; " read{} listing{}", Front(q.read()), Front(q.listed()))?;
    print!(rt; " item{} find{}", Front(q.item()), Front(q.found()))?;
    ask_indexes(rt, q)?;
    let row = q.stored(&mut stored);
    print!(rt; " numbers{}{}", Front(row), Numbers(&stored))?;
    let row = q.packet(&mut agent);
    print!(rt; " packet{} {}", Front(row), Hex(&agent))?;
    let row = q.rewritten(&mut out);
    print!(rt; " rewrite{} {}", Front(row), Hex(&out))
}

// Two digits for each answer: its refusal, or 0.
fn judged(q: Question) -> u64 {
    let mut stored = [7u64; NUMBERS_ROOM];
    let mut agent = [0xaau8; TEXT_ROOM];
    let mut out = [0xaau8; OUT_ROOM];
    let rows = [
        q.sent(),
        q.read(),
        q.listed(),
        q.item(),
        q.found(),
        q.packet(&mut agent),
        q.stored(&mut stored),
        q.rewritten(&mut out),
    ];
    rows.iter().fold(
        0,
        |digits: u64, row| digits % 10_000_000_000_000_000 * 100 + row[0] % 100,
    )
}

// The types at which an answer differs from that of the type before, each before its digits.
fn ask_types(rt: &impl Print, q: Question) -> io::Result<()> {
    let mut before = None;
    for packet_type in 0..=255 {
        let digits = judged(Question { packet_type, ..q });
        if before != Some(digits) {
            print!(rt; " {packet_type} {digits}")?;
        }
        before = Some(digits);
    }
    Ok(())
}

fn ask_table(rt: &impl Print, q: Question) -> io::Result<()> {
    print!(rt; "sheet{}", Front(sheet(q.terms)))?;
    ask_indexes(rt, q)?;
    print!(rt; " types")?;
    ask_types(rt, q)
}

// The bytes are how many of them the terms take, the terms, and the payload. The kind is the case's own byte, and stands here once: an
// enum would name each question a second time.
fn ask(rt: &impl Print, asked: case_input::Asked, bytes: &[u8]) -> io::Result<()> {
    let size = usize::from(u8_at(bytes, 0));
    let rest = from_place(bytes, 1);
    let mut terms = [0u64; TERMS_ROOM];
    let count = hns_encoding::read_compact_sizes(first(rest, size), 0, &mut terms).count;
    let Some(terms) = terms.get(..count) else {
        return Ok(());
    };
    let q = Question {
        terms,
        packet_type: asked.about,
        payload: from_place(rest, size),
        place: asked.a as usize,
    };
    match asked.kind {
        0 => ask_all(rt, q),
        _ => ask_table(rt, q),
    }
}

// Each program has a main of its own: what it lends to its cases, and what it asks.
fn main(rt: HostRuntime) -> io::Result<()> {
    let mut buffer = [0u8; 4_096];
    let mut case = [0u8; ROOM];
    let mut long = [0u8; LONG_ROOM];
    case_input::run_any(&rt, &mut rt.stdin(), &mut buffer, &mut case, |case| {
        case_input::with_question(case, &mut long, |q, bytes| ask(&rt, q, bytes))
    })
}
