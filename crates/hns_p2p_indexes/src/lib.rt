//! All indexes of a getblocktxn payload at once, for callers that would fetch them one by one. Terms and payload come one by one, as
//! C lends them (hns_p2p_admission); items and steps are places of the payload beside it, as there is no heap for copies.
#![tactic(auto)]

ghost use Rattle.std.specs.Prelude.{◌≡◌, ◌≤◌, length};
ghost use Rattle.hns_refusals.specs.Limits.{max_index};
ghost use Rattle.hns_refusals.specs.Refusals.{index_field};
ghost use Rattle.hns_encoding.specs.Bytes.{got};
ghost use Rattle.hns_encoding.specs.Compact.{count_at};
ghost use Rattle.hns_encoding.specs.Format.{indexes_from};
ghost use Rattle.hns_encoding.specs.Put.{splice};
ghost use Rattle.hns_p2p_rights.specs.Terms.{terms_of};
ghost use Rattle.hns_p2p_indexes.specs.Indexes.{stored_under};
ghost use Rattle.hns_p2p_indexes.specs.Helpers.{Reads, StepThere, indexes_of};

use hns_p2p_types::{Items, Listing};
use hns_refusals::Refusal;

// A difference and the place after it, which its first byte says.
#[derive(Clone, Copy, Debug, PartialEq, Eq)]
struct Step {
    difference: u64,
    after: usize,
}

// A difference that reads is a byte alone, or two after 253: no other form is short enough.
#[tactic(auto, using(crate::proofs::Storing::step_inside, crate::proofs::Storing::step_one, crate::proofs::Storing::step_two))]
fn step_at(payload: &[u8], at: usize) -> Step
    requires { StepThere payload.now at }
    ensures { count_at max_index index_field payload.now at ≡ got result.difference result.after }
{
    let head = payload[at];
    if head < 253 {
        Step {
            difference: u64::from(head),
            after: at + 1,
        }
    } else {
        Step {
            difference: u64::from(hns_encoding::u16_at(payload, at + 1)),
            after: at + 3,
        }
    }
}

// The indexes, which read, to the output's front; the caller tests their room once, for its refusal.
#[tactic(auto, using(crate::proofs::Storing::store_start, crate::proofs::Storing::store_there, crate::proofs::Storing::store_small, crate::proofs::Storing::store_end))]
fn store(payload: &[u8], items: Items, out: &mut [u64])
    requires { Reads items.count 0 payload.now items.first × (items.count ≤ length out.old) }
    ensures { out.new ≡ splice out.old 0 (indexes_of (indexes_from items.count 0 payload.now items.first)) }
{
    let mut base: u64 = 0;
    let mut next = items.first;
    for i in 0..items.count {
        let step = step_at(payload, next);
        let index = base + step.difference;
        out[i] = index;
        base = index + 1;
        next = step.after;
    }
}

// The indexes of a getblocktxn payload, type 24, to the front of `out`: the payload's refusal, then 16 with the places needed; what is
// refused writes nothing.
pub fn indexes(terms: &[u64], payload: &[u8], out: &mut [u64]) -> Result<usize, Refusal>
    ensures value { result ≡ (stored_under (terms_of terms.now) payload.now out.old).answer }
    ensures out_after { out.new ≡ (stored_under (terms_of terms.now) payload.now out.old).output }
{
    let list = hns_p2p_items::listing(terms, 24, payload)?;
    let Listing::Indexes(items) = list else {
        return Ok(0);
    };
    let count = items.count;
    if out.len() < count {
        return Err(Refusal::OutputShort { needed: count });
    }
    store(payload, items, out);
    Ok(count)
}
