//! What a writer tests before it stores a byte: how long the payload is to be, or the refusal. `there` is the output's length:
//! a plan writes nothing, so it is lent no output.
#![tactic(auto)]

ghost use Rattle.std.specs.Prelude.{◌≡◌, ◌+◌, ◌*◌, ◌≤◌, length, Ok};
ghost use Rattle.hns_refusals.specs.Limits.{max_addresses, max_inventory, max_locator, max_headers};
ghost use Rattle.hns_refusals.specs.Refusals.{address_field, inventory_field, locator_field, header_field, agent_field};
ghost use Rattle.hns_encoding.specs.Bytes.{choose};
ghost use Rattle.hns_encoding.specs.Compact.{compact_bytes};
ghost use Rattle.hns_encoding.specs.Format.{differences};
ghost use Rattle.hns_p2p_types.specs.Protocol.{carries_hash};
ghost use Rattle.hns_p2p_plans.specs.Tests.{within, text_tests, hash_test, reject_tests, index_tests, plan_of, planned};

use hns_p2p_types::{
    MAX_ADDR_ITEMS, MAX_COMPACT_BLOCK_TRANSACTIONS, MAX_HEADERS, MAX_INVENTORY_ITEMS,
    MAX_LOCATOR_HASHES, MAX_USER_AGENT_SIZE, NET_ADDRESS_SIZE, carries_reject_hash,
};
use hns_refusals::{
    ADDRESS_FIELD, AGENT_FIELD, HEADER_FIELD, INVENTORY_FIELD, LOCATOR_FIELD, REASON_FIELD, Refusal,
};

// Refusal 7: more than so many. Here and below a field's code is a number, as in the refusal: it is value c of its row for C.
#[tactic(auto, using(crate::proofs::Tests::within_limit, crate::proofs::Tests::over))]
fn check_within(actual: usize, maximum: usize, field: u64) -> Result<(), Refusal>
    ensures { result ≡ within actual maximum field }
{
    if maximum < actual {
        return Err(Refusal::OverLimit {
            actual: actual as u64,
            maximum: maximum as u64,
            field,
        });
    }
    Ok(())
}

// Refusal 7, then 10.
#[tactic(auto, using(crate::proofs::Texts::text_long, crate::proofs::Texts::text_high, crate::proofs::Texts::text_low))]
fn check_text(text: &[u8], field: u64) -> Result<(), Refusal>
    ensures { result ≡ text_tests field text.now }
{
    check_within(text.len(), MAX_USER_AGENT_SIZE, field)?;
    if !text.is_ascii() {
        return Err(Refusal::NotAscii { field });
    }
    Ok(())
}

// Refusal 11: a hash is there exactly where the type carries one. No hash stands beside the flags, which are all that is compared.
#[tactic(auto, using(crate::proofs::Texts::same_hash, crate::proofs::Texts::other_hash))]
fn check_hash(carries: bool, present: bool) -> Result<(), Refusal>
    ensures { result ≡ hash_test carries present }
{
    if carries != present {
        return Err(Refusal::HashPresence);
    }
    Ok(())
}

// How many bytes a compact size takes.
fn compact_length(value: u64) -> usize
    ensures value { result ≡ length (compact_bytes value) }
    ensures most { result ≤ 9 }
{
    if value < 253 {
        1
    } else if value < 65_536 {
        3
    } else if value < 4_294_967_296 {
        5
    } else {
        9
    }
}

// Refusal 12, then 13 and 14 at each place; the length of the differences comes from the same pass.
#[tactic(auto, using(crate::proofs::Indexes::too_many, crate::proofs::Indexes::large, crate::proofs::Indexes::falls))]
fn measure_indexes(indexes: &[u64]) -> Result<usize, Refusal>
    ensures { result ≡ plan_of (index_tests indexes.now) (length (differences 0 indexes.now)) }
{
    let actual = indexes.len();
    if MAX_COMPACT_BLOCK_TRANSACTIONS < actual {
        return Err(Refusal::TooManyIndexes { actual });
    }
    let mut base: u64 = 0;
    let mut size: usize = 0;
    for (place, &index) in indexes.iter().enumerate() {
        if 65_535 < index {
            return Err(Refusal::IndexTooLarge { place });
        }
        if index < base {
            return Err(Refusal::NotRising { place });
        }
        size += compact_length(index - base);
        base = index + 1;
    }
    Ok(size)
}

// Refusal 5, then 16: a payload of so many bytes, and an output of so many.
#[tactic(auto, using(crate::proofs::Tests::too_large, crate::proofs::Tests::too_short, crate::proofs::Tests::has_room))]
pub fn plan_room(needed: usize, there: usize) -> Result<usize, Refusal>
    ensures { result ≡ planned (Ok tt) needed there }
{
    if 8_000_000 < needed {
        return Err(Refusal::PayloadTooLarge { actual: needed });
    }
    if there < needed {
        return Err(Refusal::OutputShort { needed });
    }
    Ok(needed)
}

// A count, as many items of a width, and so many bytes after them.
#[tactic(auto, using(crate::proofs::Tests::refused_by, crate::proofs::Tests::few_items))]
fn plan_list(
    count: usize,
    limit: usize,
    field: u64,
    width: usize,
    after: usize,
    there: usize,
) -> Result<usize, Refusal>
    requires { (limit * width ≤ 1000000000) × (after ≤ 32) }
    ensures { result ≡ planned (within count limit field) (length (compact_bytes count) + count * width + after) there }
{
    check_within(count, limit, field)?;
    plan_room(compact_length(count as u64) + count * width + after, there)
}

// The lists by type, each one call with its type's limit, field and width, so that no caller has these.
pub fn plan_addr(count: usize, there: usize) -> Result<usize, Refusal>
    ensures { result ≡ planned (within count max_addresses address_field) (length (compact_bytes count) + count * 88) there }
{
    plan_list(
        count,
        MAX_ADDR_ITEMS,
        ADDRESS_FIELD,
        NET_ADDRESS_SIZE,
        0,
        there,
    )
}

pub fn plan_inventory(count: usize, there: usize) -> Result<usize, Refusal>
    ensures { result ≡ planned (within count max_inventory inventory_field) (length (compact_bytes count) + count * 36) there }
{
    plan_list(count, MAX_INVENTORY_ITEMS, INVENTORY_FIELD, 36, 0, there)
}

// The stop hash follows the hashes.
pub fn plan_locator(count: usize, there: usize) -> Result<usize, Refusal>
    ensures { result ≡ planned (within count max_locator locator_field) (length (compact_bytes count) + count * 32 + 32) there }
{
    plan_list(count, MAX_LOCATOR_HASHES, LOCATOR_FIELD, 32, 32, there)
}

pub fn plan_headers(count: usize, there: usize) -> Result<usize, Refusal>
    ensures { result ≡ planned (within count max_headers header_field) (length (compact_bytes count) + count * 236) there }
{
    plan_list(count, MAX_HEADERS, HEADER_FIELD, 236, 0, there)
}

// The fields but for the agent have 122 bytes.
#[tactic(auto, using(crate::proofs::Tests::refused_by))]
pub fn plan_version(agent: &[u8], there: usize) -> Result<usize, Refusal>
    ensures { result ≡ planned (text_tests agent_field agent.now) (122 + length agent.now) there }
{
    check_text(agent, AGENT_FIELD)?;
    plan_room(122 + agent.len(), there)
}

// A plan writes nothing, so it takes whether there is a hash, and not the hash.
#[tactic(auto, using(crate::proofs::Texts::reject_text, crate::proofs::Texts::reject_hash))]
pub fn plan_reject(
    message: u8,
    reason: &[u8],
    present: bool,
    there: usize,
) -> Result<usize, Refusal>
    ensures { result ≡ planned (reject_tests message reason.now present) (3 + length reason.now + choose (carries_hash message) 32 0) there }
{
    let carries = carries_reject_hash(message);
    check_text(reason, REASON_FIELD)?;
    check_hash(carries, present)?;
    let hash = if carries { 32 } else { 0 };
    plan_room(3 + reason.len() + hash, there)
}

#[tactic(auto, using(crate::proofs::Indexes::size_refused, crate::proofs::Indexes::size_small))]
pub fn plan_getblocktxn(indexes: &[u64], there: usize) -> Result<usize, Refusal>
    ensures { result ≡ planned (index_tests indexes.now) (32 + length (compact_bytes (length indexes.now)) + length (differences 0 indexes.now)) there }
{
    let differences = measure_indexes(indexes)?;
    plan_room(
        32 + compact_length(indexes.len() as u64) + differences,
        there,
    )
}
