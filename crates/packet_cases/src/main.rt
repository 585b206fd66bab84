//! Packets read, items fetched, hashes found and indexes listed: a line of standard input is a case in hexadecimal, and
//! the file stdout has the answers of model.py, which was written from document 01.
//!
//! A case is what is asked, the packet type, a number of eight bytes, and the rest: the payload, after 32 bytes of a hash
//! where one is to be found. What is asked is 0 to 3. From 4 on the case is long: the same is asked, and the rest has zeros
//! that the line leaves out, so that a short line has a payload of megabytes. Two numbers of eight bytes come before its
//! bytes: how many of these stand before the zeros, and how many zeros there are.
#![tactic(auto)]

use case_lines::{Answered, Behind, Numbers};
use hns_encoding::{from_place, u8_at, u64_at};
use hns_p2p_types::{
    CompactBlockRequest, GetProofPacket, Item, Items, LocatorPacket, NetAddress, Packet,
    RejectPacket, Span, VersionPacket,
};
use std::fmt::{self, Display};
use std::io;

// There is no heap: what is lent to a call stands in a local array, of the length that the cases need, with places in it as numbers.
const FRONT: usize = 10;

// The two numbers of a long case.
const LONG_FRONT: usize = 16;

// Bytes of a case.
const ROOM: usize = 20_000;

// Bytes of a long case's rest: a hash, and a payload one byte over the limit. The stack of 8 MB has room for one of these.
const LONG_ROOM: usize = 8_000_033;

// An answer as it is printed. Its fields have the Rust's names, so that a span and items are two impls of two numbers each.
#[derive(Clone, Copy, Debug, PartialEq, Eq)]
struct Shown<T>(T);

impl Display for Shown<Span> {
    fn fmt<W: fmt::Write>(&self, f: &mut fmt::Formatter<W>) -> fmt::Result {
        let Span { start, length } = self.0;
        write!(f, "{start} {length}")
    }
}

impl Display for Shown<Items> {
    fn fmt<W: fmt::Write>(&self, f: &mut fmt::Formatter<W>) -> fmt::Result {
        let Items { count, first } = self.0;
        write!(f, "{count} {first}")
    }
}

impl Display for Shown<LocatorPacket> {
    fn fmt<W: fmt::Write>(&self, f: &mut fmt::Formatter<W>) -> fmt::Result {
        let LocatorPacket { locator, stop } = self.0;
        write!(f, "{} {stop}", Shown(locator))
    }
}

impl Display for Shown<NetAddress> {
    fn fmt<W: fmt::Write>(&self, f: &mut fmt::Formatter<W>) -> fmt::Result {
        let a = self.0;
        write!(
            f,
            "{} {} {} {} {} {}",
            a.time, a.services, a.ip_first, a.ip_last, a.port, a.key
        )
    }
}

impl Display for Shown<VersionPacket> {
    fn fmt<W: fmt::Write>(&self, f: &mut fmt::Formatter<W>) -> fmt::Result {
        let v = self.0;
        write!(
            f,
            "{} {} {} {} ",
            v.version,
            v.services,
            v.time,
            Shown(v.remote)
        )?;
        write!(
            f,
            "{} {} {} {}",
            v.nonce,
            Shown(v.agent),
            v.height,
            u8::from(v.no_relay)
        )
    }
}

impl Display for Shown<RejectPacket> {
    fn fmt<W: fmt::Write>(&self, f: &mut fmt::Formatter<W>) -> fmt::Result {
        let r = self.0;
        write!(f, "{} {} {} ", r.message, r.code, Shown(r.reason))?;
        match r.hash {
            Some(place) => write!(f, "{place}"),
            None => write!(f, "-"),
        }
    }
}

impl Display for Shown<Packet> {
    fn fmt<W: fmt::Write>(&self, f: &mut fmt::Formatter<W>) -> fmt::Result {
        match self.0 {
            Packet::Version(packet) => write!(f, "version {}", Shown(packet)),
            Packet::Verack => write!(f, "verack"),
            Packet::Ping(nonce) => write!(f, "ping {nonce}"),
            Packet::Pong(nonce) => write!(f, "pong {nonce}"),
            Packet::GetAddr => write!(f, "getaddr"),
            Packet::Addr(items) => write!(f, "addr {}", Shown(items)),
            Packet::Inv(items) => write!(f, "inv {}", Shown(items)),
            Packet::GetData(items) => write!(f, "getdata {}", Shown(items)),
            Packet::NotFound(items) => write!(f, "notfound {}", Shown(items)),
            Packet::GetBlocks(packet) => write!(f, "getblocks {}", Shown(packet)),
            Packet::GetHeaders(packet) => write!(f, "getheaders {}", Shown(packet)),
            Packet::Headers(items) => write!(f, "headers {}", Shown(items)),
            Packet::SendHeaders => write!(f, "sendheaders"),
            Packet::Block(span) => write!(f, "raw 13 {}", Shown(span)),
            Packet::Tx(span) => write!(f, "raw 14 {}", Shown(span)),
            Packet::Reject(packet) => write!(f, "reject {}", Shown(packet)),
            Packet::Mempool => write!(f, "mempool"),
            Packet::FilterLoad(span) => write!(f, "raw 17 {}", Shown(span)),
            Packet::FilterAdd(span) => write!(f, "raw 18 {}", Shown(span)),
            Packet::FilterClear => write!(f, "filterclear"),
            Packet::MerkleBlock(span) => write!(f, "raw 20 {}", Shown(span)),
            Packet::FeeFilter(rate) => write!(f, "feefilter {rate}"),
            Packet::SendCmpct { mode, version } => write!(f, "sendcmpct {mode} {version}"),
            Packet::CmpctBlock(span) => write!(f, "raw 23 {}", Shown(span)),
            Packet::GetBlockTxn(
                CompactBlockRequest {
                    block_hash,
                    indexes,
                },
            ) => { write!(f, "getblocktxn {block_hash} {}", Shown(indexes)) }
            Packet::BlockTxn(span) => write!(f, "raw 25 {}", Shown(span)),
            Packet::GetProof(GetProofPacket { root, key }) => write!(f, "getproof {root} {key}"),
            Packet::Proof(span) => write!(f, "raw 27 {}", Shown(span)),
            Packet::Claim(span) => write!(f, "raw 28 {}", Shown(span)),
            Packet::Airdrop(span) => write!(f, "raw 29 {}", Shown(span)),
            Packet::Unknown {
                packet_type,
                payload,
            } => { write!(f, "raw {packet_type} {}", Shown(payload)) }
        }
    }
}

impl Display for Shown<Item> {
    fn fmt<W: fmt::Write>(&self, f: &mut fmt::Formatter<W>) -> fmt::Result {
        match self.0 {
            Item::Address(address) => write!(f, "address {}", Shown(address)),
            Item::Inventory { kind, hash } => write!(f, "inventory {kind} {hash}"),
            Item::Hash(place) => write!(f, "hash {place}"),
            Item::Header(place) => write!(f, "header {place}"),
            Item::Index(index) => write!(f, "index {index}"),
        }
    }
}

// What is asked, by a case's first byte. An enum, since several bytes ask the same: n and n + 4 of a long case, and all from 8 on a hash.
#[derive(Clone, Copy, Debug, PartialEq, Eq)]
enum Question {
    Packet,
    Item,
    Hash,
    Indexes,
}

impl From<u8> for Question {
    fn from(byte: u8) -> Question {
        match if byte < 4 { byte } else { byte - 4 } {
            0 => Question::Packet,
            1 => Question::Item,
            3 => Question::Indexes,
            _ => Question::Hash,
        }
    }
}

// The packet, and the output that was lent for a text. Type, payload and place are handed on one by one, as the port's calls take them.
fn ask_packet(rt: &impl Print, packet_type: u8, payload: &[u8], out: &mut [u8]) -> io::Result<()> {
    let answer = hns_p2p_packet::read_packet(&[], packet_type, payload, out);
    print!(rt; "{} text{}", Answered(answer.map(Shown)), Behind(out))
}

fn ask_item(rt: &impl Print, packet_type: u8, payload: &[u8], place: usize) -> io::Result<()> {
    let answer = hns_p2p_items::item(&[], packet_type, payload, place);
    print!(rt; "{}", Answered(answer.map(Shown)))
}

// Whether the item at a place has the hash: document 01 leaves open which place is answered. It looks up, and is no equality of two
// values.
fn stands(packet_type: u8, payload: &[u8], place: usize, hash: [u8; 32]) -> bool {
    match hns_p2p_items::item(&[], packet_type, payload, place) {
        Ok(Item::Inventory { hash: at, .. }) => from_place(payload, at).starts_with(&hash),
        _ => false,
    }
}

// Printed here, since whether it is found is not what was answered.
fn ask_find(rt: &impl Print, packet_type: u8, payload: &[u8], hash: [u8; 32]) -> io::Result<()> {
    match hns_p2p_find::find(&[], packet_type, payload, hash) {
        Err(refusal) => print!(rt; "refused {refusal}"),
        Ok(None) => print!(rt; "nowhere"),
        Ok(Some(place)) if stands(packet_type, payload, place, hash) => print!(rt; "found"),
        Ok(Some(_)) => print!(rt; "found wrong"),
    }
}

// What is stored, and what stands after it; printed here, as a word stands before the number.
fn ask_indexes(rt: &impl Print, payload: &[u8], out: &mut [u64]) -> io::Result<()> {
    let answer = hns_p2p_indexes::indexes(&[], payload, out);
    match answer {
        Ok(count) => print!(rt; "indexes {count}")?,
        Err(refusal) => print!(rt; "refused {refusal}")?,
    }
    let (stored, rest) = out.split_at(answer.unwrap_or(0).min(out.len()));
    print!(rt; "{} rest{}", Numbers(stored), Numbers(rest))
}

// What a case asks about its rest.
#[derive(Clone, Copy, Debug, PartialEq, Eq)]
struct Asked {
    question: Question,
    packet_type: u8,
    n: usize,
}

// Nothing is asked where there is no room for what is lent, or no hash.
fn ask(rt: &impl Print, asked: Asked, rest: &[u8]) -> io::Result<()> {
    let mut text = [0xaau8; 320];
    let mut indexes = [7u64; 64];
    let packet_type = asked.packet_type;
    match asked.question {
        Question::Packet => match text.get_mut(..asked.n) {
            Some(out) => ask_packet(rt, packet_type, rest, out),
            None => Ok(()),
        },
        Question::Item => ask_item(rt, packet_type, rest, asked.n),
        Question::Hash => match rest.split_first_chunk() {
            Some((hash, payload)) => ask_find(rt, packet_type, payload, *hash),
            None => Ok(()),
        },
        Question::Indexes => match indexes.get_mut(..asked.n) {
            Some(out) => ask_indexes(rt, rest, out),
            None => Ok(()),
        },
    }
}

fn ask_long(rt: &impl Print, asked: Asked, rest: &[u8], long: &mut [u8]) -> io::Result<()> {
    let before = u64_at(rest, 0) as usize;
    let zeros = u64_at(rest, 8) as usize;
    let given = from_place(rest, LONG_FRONT);
    case_input::with_long(given, before, zeros, long, |rest| ask(rt, asked, rest))
}

fn answer(rt: &impl Print, case: &[u8], long: &mut [u8]) -> io::Result<()> {
    let Some(rest) = case.get(FRONT..) else {
        return Ok(());
    };
    let byte = u8_at(case, 0);
    let asked = Asked {
        question: Question::from(byte),
        packet_type: u8_at(case, 1),
        n: u64_at(case, 2) as usize,
    };
    // from 4 on a case is long: the byte is the case's own
    if byte < 4 {
        ask(rt, asked, rest)
    } else {
        ask_long(rt, asked, rest, long)
    }
}

// Each program has a main of its own: what it lends to its cases, and what it asks.
fn main(rt: HostRuntime) -> io::Result<()> {
    let mut buffer = [0u8; 65_536];
    let mut case = [0u8; ROOM];
    let mut long = [0u8; LONG_ROOM];
    case_input::run_any(
        &rt,
        &mut rt.stdin(),
        &mut buffer,
        &mut case,
        |case| answer(&rt, case, &mut long),
    )
}
