//! Index lists, passed without a store: differences from a place on, each index the one before, its difference and one more.
//! Places are of the payload, and no slice is cut off: a refusal names the place.
#![tactic(auto)]

ghost use Rattle.std.specs.Prelude.{◌≡◌, ◌+◌, ◌-◌, ◌≤◌, length, IfSome};
ghost use Rattle.hns_refusals.specs.Limits.{max_index};
ghost use Rattle.hns_encoding.specs.Format.{indexes_from};
ghost use Rattle.hns_p2p_differences.specs.Passing.{passed_of};
ghost use Rattle.hns_p2p_differences.specs.Helpers.{Grouped, NextGroup};

use hns_refusals::{INDEX_FIELD, Refusal};

// The greatest index.
const MAX_INDEX: u64 = 65_535;

// The place after an index list and its last index; 0 where it has none, and no Option: who asks for the last one has asked for some.
#[derive(Clone, Copy, Debug, PartialEq, Eq)]
pub struct Passed {
    pub next: usize,
    pub last: u64,
}

// How far a list is passed: the least that its next index can be, and where its difference stands.
#[derive(Clone, Copy, Debug, PartialEq, Eq)]
struct Reached {
    base: u64,
    next: usize,
    ghost low: { base ≤ max_index + 1 },
}

impl Reached {
    // Sixteen differences of one byte each. All bytes are looked at, without a branch.
    #[tactic(auto, using(crate::proofs::Differences::run_start, crate::proofs::Differences::run_end))]
    fn run_group(self, payload: &[u8]) -> Option<Reached>
        requires { self.next + 16 ≤ length payload.now }
        ensures { IfSome result (λ g. Grouped payload.now self.base self.next g.base g.next) }
    {
        let mut base = self.base;
        let mut alone = true;
        for i in 0..16 {
            let head = u64::from(payload[self.next + i]);
            alone &= head < 253;
            base += head + 1;
        }
        if alone & (base <= 65_536) {
            let next = self.next + 16;
            Some(Reached { base, next })
        } else {
            None
        }
    }

    // Sixteen differences of one byte or three. Whether one is neither is asked once, after the last.
    #[tactic(auto, using(crate::proofs::Differences::walk_start, crate::proofs::Differences::walk_inside, crate::proofs::Differences::walk_one, crate::proofs::Differences::walk_three, crate::proofs::Differences::walk_end))]
    fn walk_group(self, payload: &[u8]) -> Option<Reached>
        requires { self.next + 48 ≤ length payload.now }
        ensures { IfSome result (λ g. Grouped payload.now self.base self.next g.base g.next) }
    {
        let mut base = self.base;
        let mut next = self.next;
        let mut good = true;
        for _ in 0..16_usize {
            let head = u64::from(payload[next]);
            if head < 253 {
                base += head + 1;
                next += 1;
            } else {
                let two = u64::from(payload[next + 1]) + 256 * u64::from(payload[next + 2]);
                good &= (head == 253) & (253 <= two);
                base += two + 1;
                next += 3;
            }
        }
        if good & (base <= 65_536) {
            Some(Reached { base, next })
        } else {
            None
        }
    }

    // The next sixteen indexes: by one sum where all differences are one byte.
    fn group(self, payload: &[u8]) -> Option<Reached>
        ensures { IfSome result (λ g. Grouped payload.now self.base self.next g.base g.next) }
    {
        let there = hns_encoding::remaining(payload, self.next);
        if 16 <= there {
            let group = self.run_group(payload);
            if group.is_some() {
                return group;
            }
        }
        if 48 <= there {
            return self.walk_group(payload);
        }
        None
    }

    // The same where so many are left. It is asked at every 16th index only, so that what is read one by one is not walked twice.
    fn next_group(self, payload: &[u8], i: u64, count: u64) -> Option<Reached>
        requires { i ≤ count }
        ensures { IfSome result (λ g. NextGroup payload.now self.base self.next i count g.base g.next) }
    {
        if (i % 16 == 0) & (16 <= count - i) {
            return self.group(payload);
        }
        None
    }
}

// So many differences from a place on: each index is the one before, its difference and one more.
#[tactic(auto, using(crate::proofs::Differences::pass_start, crate::proofs::Differences::pass_group, crate::proofs::Differences::pass_refused, crate::proofs::Differences::pass_most, crate::proofs::Differences::pass_over, crate::proofs::Differences::pass_next, crate::proofs::Differences::pass_end))]
pub fn pass_indexes(payload: &[u8], count: u64, first: usize) -> Result<Passed, Refusal>
    ensures { result ≡ passed_of (indexes_from count 0 payload.now first) }
{
    let mut i = 0;
    let mut reached = Reached {
        base: 0,
        next: first,
    };
    // no `for`: a turn passes sixteen indexes or one
    while i < count {
        match reached.next_group(payload, i, count) {
            Some(group) => {
                reached = group;
                i += 16;
            }
            None => {
                let (difference, next) = hns_encoding::read_count(
                    payload,
                    reached.next,
                    MAX_INDEX,
                    INDEX_FIELD,
                )?;
                let index = reached.base + difference;
                if MAX_INDEX < index {
                    return Err(Refusal::IndexOver);
                }
                let base = index + 1;
                reached = Reached { base, next };
                i += 1;
            }
        }
    }
    let next = reached.next;
    let last = reached.base.saturating_sub(1);
    Ok(Passed { next, last })
}
