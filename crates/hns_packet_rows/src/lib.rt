//! Answers about packets as rows of sixteen numbers, for callers in C and Rust. Rows are arrays of numbers, as the C interface has them.
//! No From: it could not stand here, since both types are another crate's (an array of numbers is the language's).
#![tactic(auto)]

ghost use Rattle.std.specs.Prelude.{◌≡◌, ◌∷◌, [], ◌≤◌};
ghost use Rattle.hns_p2p_types.specs.Packets.{address_numbers};
ghost use Rattle.hns_packet_rows.specs.Rows.{filled, row, refused_row, items_row, span_row, version_row, hash_numbers, fields_row, packet_row, numbers_row, item_row, found_row, stored_row, card_numbers};

use hns_p2p_card::Row;
use hns_p2p_types::{
    CompactBlockRequest, Item, Items, LocatorPacket, NetAddress, Packet, RejectPacket, Span,
    VersionPacket,
};
use hns_refusals::Refusal;

// Sixteen numbers of which these are the first, put into zeros, as std joins no arrays without a heap.
fn filled<const N: usize>(numbers: [u64; N]) -> [u64; 16]
    requires { N ≤ 16 }
    ensures { result ≡ filled numbers.entry }
{
    let mut row = [0; 16];
    row[..N].copy_from_slice(&numbers);
    row
}

fn of_refusal(refusal: Refusal) -> [u64; 16]
    ensures { result ≡ refused_row refusal }
{
    let [a, b, c] = refusal.values();
    filled([refusal.number(), a, b, c])
}

fn of_items(items: Items) -> [u64; 16]
    ensures { result ≡ items_row items }
{
    filled([0, items.count as u64, items.first as u64])
}

fn of_span(span: Span) -> [u64; 16]
    ensures { result ≡ span_row span }
{
    filled([0, span.start as u64, span.length as u64])
}

fn of_locator(packet: LocatorPacket) -> [u64; 16]
    ensures { result ≡ row (packet.locator.count ∷ packet.locator.first ∷ packet.stop ∷ []) }
{
    let items = packet.locator;
    filled([
        0,
        items.count as u64,
        items.first as u64,
        packet.stop as u64,
    ])
}

// The numbers of a locator under other names: the hash stands before the items here.
fn of_request(request: CompactBlockRequest) -> [u64; 16]
    ensures { result ≡ row (request.indexes.count ∷ request.indexes.first ∷ request.block_hash ∷ []) }
{
    let items = request.indexes;
    filled([
        0,
        items.count as u64,
        items.first as u64,
        request.block_hash as u64,
    ])
}

fn of_version(version: VersionPacket) -> [u64; 16]
    ensures { result ≡ version_row version }
{
    let remote = version.remote;
    let agent = version.agent;
    [
        0,
        u64::from(version.version),
        version.services,
        version.time,
        remote.time,
        remote.services,
        remote.ip_first,
        remote.ip_last,
        u64::from(remote.port),
        remote.key as u64,
        version.nonce,
        agent.start as u64,
        agent.length as u64,
        u64::from(version.height),
        u64::from(version.no_relay),
        0,
    ]
}

// 1 and the place of a hash, or 0 twice.
fn of_hash(hash: Option<usize>) -> [u64; 2]
    ensures { result ≡ hash_numbers hash }
{
    match hash {
        Some(place) => [1, place as u64],
        None => [0; 2],
    }
}

fn of_reject(reject: RejectPacket) -> [u64; 16]
    ensures { result ≡ row (reject.message ∷ reject.code ∷ reject.reason.start ∷ reject.reason.length ∷ hash_numbers reject.hash) }
{
    let reason = reject.reason;
    let [there, place] = of_hash(reject.hash);
    filled([
        0,
        u64::from(reject.message),
        u64::from(reject.code),
        reason.start as u64,
        reason.length as u64,
        there,
        place,
    ])
}

// A row by the packet's numbers and places; all rows are as long as that of a version, the longest. Each kind has fields of its
// own, so each arm is its own call.
fn of_fields(packet: Packet) -> [u64; 16]
    ensures { result ≡ fields_row packet }
{
    match packet {
        Packet::Version(version) => of_version(version),
        Packet::Ping(nonce) | Packet::Pong(nonce) => filled([0, nonce]),
        Packet::Addr(items)
        | Packet::Inv(items)
        | Packet::GetData(items)
        | Packet::NotFound(items)
        | Packet::Headers(items) => of_items(items),
        Packet::GetBlocks(locator) | Packet::GetHeaders(locator) => of_locator(locator),
        Packet::Reject(reject) => of_reject(reject),
        Packet::FeeFilter(rate) => filled([0, hns_p2p_types::signed_bits(rate)]),
        Packet::SendCmpct { mode, version } => filled([0, u64::from(mode), version]),
        Packet::GetBlockTxn(request) => of_request(request),
        Packet::GetProof(proof) => filled([0, proof.root as u64, proof.key as u64]),
        Packet::Block(bytes)
        | Packet::Tx(bytes)
        | Packet::FilterLoad(bytes)
        | Packet::FilterAdd(bytes)
        | Packet::MerkleBlock(bytes)
        | Packet::CmpctBlock(bytes)
        | Packet::BlockTxn(bytes)
        | Packet::Proof(bytes)
        | Packet::Claim(bytes)
        | Packet::Airdrop(bytes)
        | Packet::Unknown { payload: bytes, .. } => of_span(bytes),
        Packet::Verack
        | Packet::GetAddr
        | Packet::SendHeaders
        | Packet::Mempool
        | Packet::FilterClear => [0; 16],
    }
}

// One call, as that of an item: a generic one would take both ways as closures, and be that call with other names.
pub fn of_packet(packet: Result<Packet, Refusal>) -> [u64; 16]
    ensures { result ≡ packet_row packet }
{
    packet.map_or_else(of_refusal, of_fields)
}

fn of_address(address: NetAddress) -> [u64; 16]
    ensures { result ≡ row (address_numbers address) }
{
    filled([
        0,
        address.time,
        address.services,
        address.ip_first,
        address.ip_last,
        u64::from(address.port),
        address.key as u64,
    ])
}

fn of_numbers(item: Item) -> [u64; 16]
    ensures { result ≡ numbers_row item }
{
    match item {
        Item::Address(address) => of_address(address),
        Item::Inventory { kind, hash } => filled([0, u64::from(kind), hash as u64]),
        Item::Hash(place) | Item::Header(place) => filled([0, place as u64]),
        Item::Index(index) => filled([0, index]),
    }
}

pub fn of_item(item: Result<Item, Refusal>) -> [u64; 16]
    ensures { result ≡ item_row item }
{
    item.map_or_else(of_refusal, of_numbers)
}

pub fn of_found(found: Result<Option<usize>, Refusal>) -> [u64; 16]
    ensures { result ≡ found_row found }
{
    match found {
        Ok(Some(place)) => filled([0, 1, place as u64]),
        Ok(None) => [0; 16],
        Err(refusal) => of_refusal(refusal),
    }
}

pub fn of_stored(stored: Result<usize, Refusal>) -> [u64; 16]
    ensures { result ≡ stored_row stored }
{
    match stored {
        Ok(count) => filled([0, count as u64]),
        Err(refusal) => of_refusal(refusal),
    }
}

pub fn of_card(card: Row) -> [u64; 16]
    ensures { result ≡ card_numbers card }
{
    filled([0, card.least as u64, card.greatest as u64])
}
