//! The numbers of all addresses or inventory items of a payload at once, for callers to whom a call for each item costs more
//! than the item. Terms, type and payload are parameters of their own, as C lends them (hns_p2p_admission). Items are places of
//! the payload beside them, as there is no heap for copies.
#![tactic(auto)]

ghost use Rattle.std.specs.Prelude.{◌≡◌, refl, ℕ, List, ◌+◌, ◌*◌, ◌≤◌, length};
ghost use Rattle.std.proofs.Common.{rules};
ghost use Rattle.hns_refusals.specs.Limits.{max_payload};
ghost use Rattle.hns_encoding.specs.Put.{splice};
ghost use Rattle.hns_p2p_rights.specs.Terms.{terms_of};
ghost use Rattle.hns_p2p_indexes.specs.Indexes.{fitted};
ghost use Rattle.hns_p2p_item_numbers.specs.Numbers.{numbers_under};
ghost use Rattle.hns_p2p_item_numbers.specs.Helpers.{address_at, inventory_at, numbers_from};

use hns_p2p_types::{Items, Listing, NET_ADDRESS_SIZE};
use hns_refusals::Refusal;

// Items of `BYTES` bytes, each of which is N numbers.
trait Numbered<const N: usize> {
    const BYTES: usize;

    ghost BYTES: { ℕ };

    ghost numbers: { List ℕ → ℕ → List ℕ };

    // The numbers of the item that begins at a place, which is inside a payload, so that no place overflows. They are stored one
    // by one: an array of them would be slower, as it is copied by way of the stack.
    fn put(payload: &[u8], at: usize, row: &mut [u64])
        requires { (length row.old ≡ N) × (at ≤ max_payload) }
        ensures { row.new ≡ numbers payload.now at };

    // Each has N numbers, which are no more than its bytes.
    ghost long: { (s : List ℕ) (at : ℕ) → length (numbers s at) ≡ N };

    ghost few: { N ≤ BYTES };
}

struct Addresses;

impl Numbered<6> for Addresses {
    const BYTES: usize = NET_ADDRESS_SIZE;

    ghost BYTES = { 88 };

    ghost numbers = { address_at };

    fn put(payload: &[u8], at: usize, row: &mut [u64]) {
        let address = hns_p2p_blocks::address_at(payload, at);
        row[0] = address.time;
        row[1] = address.services;
        row[2] = address.ip_first;
        row[3] = address.ip_last;
        row[4] = u64::from(address.port);
        row[5] = address.key as u64;
    }

    ghost long = { λ s at. refl };

    ghost few = { Prim.search rules };
}

struct Inventory;

impl Numbered<2> for Inventory {
    const BYTES: usize = 36;

    ghost BYTES = { 36 };

    ghost numbers = { inventory_at };

    fn put(payload: &[u8], at: usize, row: &mut [u64]) {
        row[0] = u64::from(hns_encoding::u32_at(payload, at));
        row[1] = (at + 4) as u64;
    }

    ghost long = { λ s at. refl };

    ghost few = { Prim.search rules };
}

// So many items from a place on. `at` and `to` go on by two widths, so that no one iterator counts both.
#[tactic(auto, using(crate::proofs::Storing::store_end))]
fn put_items<const N: usize, T: Numbered<N>>(payload: &[u8], items: Items, out: &mut [u64])
    requires { (items.first + items.count * T.BYTES ≤ max_payload) × (items.count * N ≤ length out.old) }
    ensures { out.new ≡ splice out.old 0 (numbers_from T.numbers T.BYTES payload.now items.count items.first) }
{
    let mut at = items.first;
    let mut to = 0;
    for _ in 0..items.count {
        T::put(payload, at, &mut out[to..to + N]);
        at += T::BYTES;
        to += N;
    }
}

// All of them, where the output has room.
#[tactic(auto, using(crate::proofs::Storing::short_answer, crate::proofs::Storing::short_output, crate::proofs::Storing::fit_answer, crate::proofs::Storing::fit_output))]
fn put_all<const N: usize, T: Numbered<N>>(
    payload: &[u8],
    items: Items,
    out: &mut [u64],
) -> Result<usize, Refusal>
    requires { items.first + items.count * T.BYTES ≤ max_payload }
    ensures value { result ≡ (fitted (numbers_from T.numbers T.BYTES payload.now items.count items.first) out.old).answer }
    ensures out_after { out.new ≡ (fitted (numbers_from T.numbers T.BYTES payload.now items.count items.first) out.old).output }
{
    let needed = items.count * N;
    if out.len() < needed {
        return Err(Refusal::OutputShort { needed });
    }
    put_items::<N, T>(payload, items, out);
    Ok(needed)
}

// The numbers of the items of a payload of a type side by side to the front of `out`, and how many they are: the payload's
// refusal, then 16 with the places needed; what is refused writes nothing. Types without addresses or inventory items have none.
pub fn item_numbers(
    terms: &[u64],
    packet_type: u8,
    payload: &[u8],
    out: &mut [u64],
) -> Result<usize, Refusal>
    ensures value { result ≡ (numbers_under (terms_of terms.now) packet_type payload.now out.old).answer }
    ensures out_after { out.new ≡ (numbers_under (terms_of terms.now) packet_type payload.now out.old).output }
{
    let list = hns_p2p_items::listing(terms, packet_type, payload)?;
    match list {
        Listing::Addresses(items) => put_all::<6, Addresses>(payload, items, out),
        Listing::Inventory(items) => put_all::<2, Inventory>(payload, items, out),
        _ => Ok(0),
    }
}
