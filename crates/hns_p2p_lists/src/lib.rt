//! Fields of payloads that are lists: a count and items of one size are one multiplication; index lists are passed. What is
//! tested before the fields is not tested here.
#![tactic(auto)]

ghost use Rattle.std.specs.Prelude.{◌≡◌, ◌*◌, ◌<◌, ◌^◌};
ghost use Rattle.hns_encoding.specs.Bytes.{to_end};
ghost use Rattle.hns_encoding.specs.Format.{sum, read};
ghost use Rattle.hns_encoding.specs.Answers.{result_of};
ghost use Rattle.hns_p2p_types.specs.Protocol.{inventory};
ghost use Rattle.hns_p2p_types.specs.Packets.{items_at, fields_of};
ghost use Rattle.hns_p2p_lists.specs.Helpers.{list_at, made_of, whole_list, locator_of};

use hns_header_consensus::HEADER_SIZE;
use hns_p2p_types::{
    CompactBlockRequest, Items, LocatorPacket, MAX_ADDR_ITEMS, MAX_COMPACT_BLOCK_TRANSACTIONS,
    MAX_HEADERS, MAX_INVENTORY_ITEMS, MAX_LOCATOR_HASHES, NET_ADDRESS_SIZE, Packet,
};
use hns_refusals::{
    ADDRESS_FIELD, HEADER_FIELD, INDEX_COUNT_FIELD, INVENTORY_FIELD, LOCATOR_FIELD, Refusal,
};

// The Rust's limits, as counts are compared with them. A code of a field is a number: it goes into a row for C.
const ADDRESSES: u64 = MAX_ADDR_ITEMS as u64;

const INVENTORY: u64 = MAX_INVENTORY_ITEMS as u64;

const HASHES: u64 = MAX_LOCATOR_HASHES as u64;

const HEADERS: u64 = MAX_HEADERS as u64;

const INDEXES: u64 = MAX_COMPACT_BLOCK_TRANSACTIONS as u64;

// Records under a count: how many at most, the code of the count's field, and the widths of a record's fields with their sum, which
// is given, so that none is made at run time.
#[derive(Clone, Copy, Debug, PartialEq, Eq)]
struct Records<'a> {
    limit: u64,
    field: u64,
    widths: &'a [usize],
    size: usize,
    ghost sums: { size ≡ sum widths.now },
    ghost some: { 0 < size },
    ghost counts: { limit * size < 2 ^ 64 },
}

impl<'a> Records<'a> {
    // A count and as many records, with the place after them. Where they do not all fit, the bytes end in the record that begins last.
    #[tactic(auto, using(crate::proofs::Listed::list_refused, crate::proofs::Listed::list_product, crate::proofs::Listed::list_fits))]
    fn read(self, payload: &[u8]) -> Result<(Items, usize), Refusal>
        ensures { result ≡ result_of (list_at self.entry.limit self.entry.field self.entry.widths.now payload.now 0) }
    {
        let Records {
            limit,
            field,
            widths,
            size,
        } = self;
        let (value, first) = hns_encoding::read_count(payload, 0, limit, field)?;
        let count = value as usize;
        let bytes = count * size;
        let there = hns_encoding::remaining(payload, first);
        if there < bytes {
            let whole = there - there % size;
            return Err(hns_p2p_blocks::ends_in(payload, widths, first + whole));
        }
        Ok((Items { count, first }, first + bytes))
    }

    // A list that is the whole payload.
    #[tactic(auto, using(crate::proofs::Listed::whole_refused, crate::proofs::Listed::whole_left, crate::proofs::Listed::whole_read))]
    fn read_whole(self, payload: &[u8]) -> Result<Items, Refusal>
        ensures { result ≡ whole_list self.entry.limit self.entry.field self.entry.widths.now payload.now }
    {
        let (items, next) = self.read(payload)?;
        hns_encoding::finish(payload, next)?;
        Ok(items)
    }
}

pub fn read_addr_fields(payload: &[u8]) -> Result<Packet, Refusal>
    ensures { result ≡ fields_of 5 payload.now }
{
    let addresses = Records {
        limit: ADDRESSES,
        field: ADDRESS_FIELD,
        widths: &[8, 4, 4, 1, 36, 2, 33],
        size: NET_ADDRESS_SIZE,
    };
    addresses.read_whole(payload).map(Packet::Addr)
}

// An inventory, of type 6, 7 or 8.
fn read_inventory(payload: &[u8]) -> Result<Items, Refusal>
    ensures { result ≡ made_of (items_at 0) (to_end (read inventory) payload.now) }
{
    let inventory = Records {
        limit: INVENTORY,
        field: INVENTORY_FIELD,
        widths: &[4, 32],
        size: 36,
    };
    inventory.read_whole(payload)
}

// A reader for each type: one line over what the three share, with a contract that names the type; so are the two of a locator.
pub fn read_inv_fields(payload: &[u8]) -> Result<Packet, Refusal>
    ensures { result ≡ fields_of 6 payload.now }
{
    read_inventory(payload).map(Packet::Inv)
}

pub fn read_getdata_fields(payload: &[u8]) -> Result<Packet, Refusal>
    ensures { result ≡ fields_of 7 payload.now }
{
    read_inventory(payload).map(Packet::GetData)
}

pub fn read_notfound_fields(payload: &[u8]) -> Result<Packet, Refusal>
    ensures { result ≡ fields_of 8 payload.now }
{
    read_inventory(payload).map(Packet::NotFound)
}

// A locator, of type 9 or 10: a list and a stop hash.
#[tactic(auto, using(crate::proofs::Listed::locator_list, crate::proofs::Listed::locator_hash, crate::proofs::Listed::locator_left))]
fn read_locator(payload: &[u8]) -> Result<LocatorPacket, Refusal>
    ensures { result ≡ locator_of payload.now }
{
    let hashes = Records {
        limit: HASHES,
        field: LOCATOR_FIELD,
        widths: &[32],
        size: 32,
    };
    let (locator, next) = hashes.read(payload)?;
    let hash = hns_encoding::read_slice(payload, next, 32)?;
    hns_encoding::finish(payload, hash.end)?;
    let stop = hash.start;
    Ok(LocatorPacket { locator, stop })
}

pub fn read_getblocks_fields(payload: &[u8]) -> Result<Packet, Refusal>
    ensures { result ≡ fields_of 9 payload.now }
{
    read_locator(payload).map(Packet::GetBlocks)
}

pub fn read_getheaders_fields(payload: &[u8]) -> Result<Packet, Refusal>
    ensures { result ≡ fields_of 10 payload.now }
{
    read_locator(payload).map(Packet::GetHeaders)
}

pub fn read_headers_fields(payload: &[u8]) -> Result<Packet, Refusal>
    ensures { result ≡ fields_of 11 payload.now }
{
    let headers = Records {
        limit: HEADERS,
        field: HEADER_FIELD,
        widths: &[HEADER_SIZE],
        size: HEADER_SIZE,
    };
    headers.read_whole(payload).map(Packet::Headers)
}

#[tactic(auto, using(crate::proofs::Requests::txn_short, crate::proofs::Requests::txn_count, crate::proofs::Requests::txn_index, crate::proofs::Requests::txn_left))]
pub fn read_getblocktxn_fields(payload: &[u8]) -> Result<Packet, Refusal>
    ensures { result ≡ fields_of 24 payload.now }
{
    let hash = hns_encoding::read_slice(payload, 0, 32)?;
    let (value, first) = hns_encoding::read_count(payload, hash.end, INDEXES, INDEX_COUNT_FIELD)?;
    let passed = hns_p2p_differences::pass_indexes(payload, value, first)?;
    hns_encoding::finish(payload, passed.next)?;
    let count = value as usize;
    let indexes = Items { count, first };
    Ok(Packet::GetBlockTxn(CompactBlockRequest {
        block_hash: hash.start,
        indexes,
    }))
}
