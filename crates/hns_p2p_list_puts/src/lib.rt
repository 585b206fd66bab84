//! Puts of payloads with a count, by a cursor: each has the contract of one put. Bytes after the last whole item of a flat
//! list are not put. The cursor goes by value beside the lent output, as in hns_p2p_block_puts.
#![tactic(auto)]

ghost use Rattle.std.specs.Prelude.{◌≡◌, ◌++◌, ◌*◌, ◌/◌, ◌≤◌, length, take};
ghost use Rattle.hns_encoding.specs.Compact.{compact_bytes};
ghost use Rattle.hns_encoding.specs.Format.{write, differences, value_at};
ghost use Rattle.hns_encoding.specs.Put.{Put};
ghost use Rattle.hns_p2p_types.specs.Protocol.{addresses, inventory, locator, headers, getblocktxn};
ghost use Rattle.hns_p2p_block_puts.specs.Fields.{address_of};
ghost use Rattle.hns_p2p_list_puts.specs.Fields.{flat_address, low_services, addresses_of, inventory_of, hashes_of, headers_of};

use hns_encoder::Encoder;
use hns_p2p_block_puts::AddressFields;

// The bytes of an address of a flat list: time 8, services 8, ip 16, port 2, key 33.
const FLAT_ADDRESS: usize = 67;

// The fields of an item, whose length is known: no read of them tests it. No `From`: the type is hns_p2p_block_puts', and the
// layout a flat list's.
fn fields_of(item: &[u8; FLAT_ADDRESS]) -> AddressFields
    ensures { address_of result ≡ low_services (value_at flat_address _ item.now 0) }
{
    AddressFields {
        time: hns_encoding::u64_at(item, 0),
        services: hns_encoding::u64_at(item, 8),
        ip: hns_encoding::array_at(item, 16),
        port: hns_encoding::u16_at(item, 32),
        key: hns_encoding::array_at(item, 34),
    }
}

// Whole items of 67 bytes.
pub fn put_addr(encoder: Encoder, out: &mut [u8], items: &[u8]) -> Encoder
    ensures { Put out.old encoder.position (write addresses (addresses_of items.now)) out.new result.position }
{
    let (items, _) = items.as_chunks::<FLAT_ADDRESS>();
    let mut e = encoder.put_compact_size(out, items.len() as u64);
    for item in items {
        e = hns_p2p_block_puts::put_address_fields(e, out, fields_of(item));
    }
    e
}

// Whole items, counted by their width, are in the payload byte for byte, so they are copied at once, cut as bytes: std makes no
// bytes of chunks again. Then what follows them.
fn put_flat(encoder: Encoder, out: &mut [u8], items: &[u8], width: usize, last: &[u8]) -> Encoder
    requires { 1 ≤ width }
    ensures { Put out.old encoder.position (compact_bytes (length items.now / width) ++ (take (length items.now / width * width) items.now ++ last.now)) out.new result.position }
{
    let count = items.len() / width;
    let e = encoder.put_compact_size(out, count as u64);
    let e = e.put_bytes(out, &items[..count * width]);
    e.put_bytes(out, last)
}

// Whole items of 36 bytes: kind 4, hash 32. The lists by type are each one call with its type's width, under its name.
pub fn put_inventory(encoder: Encoder, out: &mut [u8], items: &[u8]) -> Encoder
    ensures { Put out.old encoder.position (write inventory (inventory_of items.now)) out.new result.position }
{
    put_flat(encoder, out, items, 36, &[])
}

pub fn put_locator(encoder: Encoder, out: &mut [u8], hashes: &[u8], stop: [u8; 32]) -> Encoder
    ensures { Put out.old encoder.position (write locator (hashes_of hashes.now, stop)) out.new result.position }
{
    put_flat(encoder, out, hashes, 32, &stop)
}

// Whole headers of 236 bytes.
pub fn put_headers(encoder: Encoder, out: &mut [u8], items: &[u8]) -> Encoder
    ensures { Put out.old encoder.position (write headers (headers_of items.now)) out.new result.position }
{
    put_flat(encoder, out, items, 236, &[])
}

// An index is put by how far it is above the least that it can be, which is one above the index before it.
fn put_differences(encoder: Encoder, out: &mut [u8], indexes: &[u64]) -> Encoder
    ensures { Put out.old encoder.position (differences 0 indexes.now) out.new result.position }
{
    let mut e = encoder;
    let mut base: u64 = 0;
    for &index in indexes {
        e = e.put_compact_size(out, index.saturating_sub(base));
        base = index.saturating_add(1);
    }
    e
}

// An index that is not above the one before it has the difference 0.
pub fn put_getblocktxn(encoder: Encoder, out: &mut [u8], hash: [u8; 32], indexes: &[u64]) -> Encoder
    ensures { Put out.old encoder.position (write getblocktxn (hash, indexes.now)) out.new result.position }
{
    let e = encoder.put_array(out, hash);
    let e = e.put_compact_size(out, indexes.len() as u64);
    put_differences(e, out, indexes)
}
