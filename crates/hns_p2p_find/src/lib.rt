//! Where a hash stands among the inventory items of a payload. Terms, type and payload come one by one, as `admit` takes them.
#![tactic(auto)]

ghost use Rattle.std.specs.Prelude.{◌≡◌, ◌+◌, ◌*◌, ◌≤◌, length};
ghost use Rattle.std.specs.Bool.{Decides};
ghost use Rattle.hns_encoding.specs.Bytes.{part};
ghost use Rattle.hns_p2p_rights.specs.Terms.{terms_of};
ghost use Rattle.hns_p2p_items.specs.Items.{listed_under};
ghost use Rattle.hns_p2p_find.specs.Find.{Finds};
ghost use Rattle.hns_p2p_find.specs.Helpers.{FindsLowest, Scanned};

use hns_p2p_types::{Items, Listing};
use hns_refusals::Refusal;

// Whether the hash stands at a place. Its first eight bytes are one comparison, and most items differ there; the rest is compared
// as an array, which is a few words, where slices are compared byte after byte.
fn same_hash(payload: &[u8], at: usize, hash: [u8; 32]) -> bool
    requires { at + 32 ≤ length payload.now }
    ensures { Decides result (part payload.now at 32 ≡ hash) }
{
    let there = &payload[at..at + 32];
    hns_encoding::u64_at(there, 0) == hns_encoding::u64_at(&hash, 0)
        && hns_encoding::array_at(there, 0) == hash
}

// The lowest place of an item with the hash: kind 4, hash 32. No `find`: same_hash requires a place that a closure does not know.
#[tactic(auto, unfolding(crate::specs::Helpers::Scanned))]
fn scan(payload: &[u8], items: Items, hash: [u8; 32]) -> Option<usize>
    requires { items.first + items.count * 36 ≤ length payload.now }
    ensures { Scanned payload.now items.first items.count hash result }
{
    for place in 0..items.count {
        if same_hash(payload, items.first + place * 36 + 4, hash) {
            return Some(place);
        }
    }
    None
}

// The lowest place of an inventory item with the hash.
fn lowest(
    terms: &[u64],
    packet_type: u8,
    payload: &[u8],
    hash: [u8; 32],
) -> Result<Option<usize>, Refusal>
    ensures { FindsLowest (listed_under (terms_of terms.now) packet_type payload.now) hash result }
{
    let list = hns_p2p_items::listing(terms, packet_type, payload)?;
    match list {
        Listing::Inventory(items) => Ok(scan(payload, items, hash)),
        _ => Ok(None),
    }
}

// A place of an inventory item with the hash; none, if and only if no item has it; or why the payload was refused.
// Document 01 leaves open which of several places it is, so the contract states the place by its property.
pub fn find(
    terms: &[u64],
    packet_type: u8,
    payload: &[u8],
    hash: [u8; 32],
) -> Result<Option<usize>, Refusal>
    ensures { Finds (listed_under (terms_of terms.now) packet_type payload.now) hash result }
{
    lowest(terms, packet_type, payload, hash)
}
