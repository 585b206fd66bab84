//! Items of a payload: which list stands under its count, and an item of that list by its place. Terms, type and payload are
//! parameters of their own, as C lends them (hns_p2p_admission); what stands in a payload is named by its place there, as there
//! is no heap for copies.
#![tactic(auto)]

ghost use Rattle.std.specs.Prelude.{◌≡◌, ◌≤◌};
ghost use Rattle.hns_refusals.specs.Limits.{max_payload};
ghost use Rattle.hns_p2p_rights.specs.Terms.{terms_of};
ghost use Rattle.hns_p2p_items.specs.Items.{item_under};
ghost use Rattle.hns_p2p_items.specs.Listings.{list_in, listing_under};
ghost use Rattle.hns_p2p_items.specs.Helpers.{items_in, index_in, item_in};

use hns_header_consensus::HEADER_SIZE;
use hns_p2p_types::{Item, Items, Listing, NET_ADDRESS_SIZE, Packet};
use hns_refusals::Refusal;

// The list of a packet. No `From`: other fields of the packet are dropped.
#[tactic(auto, unfolding(crate::specs::Listings::list_in))]
fn list_in(packet: Packet) -> Listing
    ensures { result ≡ list_in packet }
{
    match packet {
        Packet::Addr(items) => Listing::Addresses(items),
        Packet::Inv(items) | Packet::GetData(items) | Packet::NotFound(items) => {
            Listing::Inventory(items)
        }
        Packet::GetBlocks(packet) | Packet::GetHeaders(packet) => Listing::Hashes(packet.locator),
        Packet::Headers(items) => Listing::Headers(items),
        Packet::GetBlockTxn(request) => Listing::Indexes(request.indexes),
        _ => Listing::Nothing,
    }
}

// The list of a payload of a type under terms, or the refusal.
pub fn listing(terms: &[u64], packet_type: u8, payload: &[u8]) -> Result<Listing, Refusal>
    ensures { result ≡ listing_under (terms_of terms.now) packet_type payload.now }
{
    hns_p2p_packet::read_payload(terms, packet_type, payload).map(list_in)
}

// The items of a list, none where it has none. No `From`: what they are is dropped. No default either, as no list begins at 0.
#[tactic(auto, unfolding(crate::specs::Helpers::items_in))]
fn items_in(list: Listing) -> Items
    ensures { result ≡ items_in list }
{
    match list {
        Listing::Addresses(items)
        | Listing::Inventory(items)
        | Listing::Hashes(items)
        | Listing::Headers(items)
        | Listing::Indexes(items) => items,
        Listing::Nothing => Items { count: 0, first: 0 },
    }
}

// The index at a place is the last of as many indexes and one more.
#[tactic(auto, using(crate::proofs::Items::index_read, crate::proofs::Items::index_refused))]
fn index_in(payload: &[u8], first: usize, place: usize) -> Result<Item, Refusal>
    requires { place ≤ max_payload }
    ensures { result ≡ index_in payload.now first place }
{
    let count = (place + 1) as u64;
    let passed = hns_p2p_differences::pass_indexes(payload, count, first)?;
    Ok(Item::Index(passed.last))
}

// The item at a place, of a list that is longer and begins at `first`. Both are below a payload's greatest length, so that no
// place overflows; `item` alone knows that, from what was read, so a type for it would be made for one call.
#[tactic(auto, unfolding(crate::specs::Helpers::item_in))]
fn item_in(payload: &[u8], list: Listing, first: usize, place: usize) -> Result<Item, Refusal>
    requires { (first ≤ max_payload) × (place ≤ max_payload) }
    ensures { result ≡ item_in payload.now list first place }
{
    match list {
        Listing::Addresses(_) => {
            let at = first + place * NET_ADDRESS_SIZE;
            Ok(Item::Address(hns_p2p_blocks::address_at(payload, at)))
        }
        Listing::Inventory(_) => {
            let at = first + place * 36;
            let kind = hns_encoding::u32_at(payload, at);
            Ok(Item::Inventory { kind, hash: at + 4 })
        }
        Listing::Hashes(_) => Ok(Item::Hash(first + place * 32)),
        Listing::Headers(_) => Ok(Item::Header(first + place * HEADER_SIZE)),
        Listing::Indexes(_) => index_in(payload, first, place),
        Listing::Nothing => Err(Refusal::NoItem),
    }
}

// The item at a place of a payload of a type: the payload's own refusal first, which is never 16, then 19.
#[tactic(auto, using(crate::proofs::Items::item_refused, hns_encoding::proofs::Numbers::bytes_known))]
pub fn item(terms: &[u64], packet_type: u8, payload: &[u8], place: usize) -> Result<Item, Refusal>
    ensures { result ≡ item_under (terms_of terms.now) packet_type payload.now place }
{
    let list = listing(terms, packet_type, payload)?;
    let items = items_in(list);
    if items.count <= place {
        return Err(Refusal::NoItem);
    }
    item_in(payload, list, items.first, place)
}
