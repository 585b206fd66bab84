//! Rights by role: whether a role may send a type of frame, which is asked before the payload is read, and how many types it
//! may send.
//!
//! `terms` are the numbers that a payload is read under. If there are none, nothing is named, and every type may be sent. Else
//! the first is the role of a peer, and the next eight are the masks of roles 0 to 7: bits 0 to 29 are the known types, bit 30
//! is every other type byte, and bits from 31 on are ignored. Fewer than nine numbers grant nothing. They stay a slice, as C
//! lends them; a type around it would be made anew in each call of the interface.
#![tactic(auto)]

ghost use Rattle.std.specs.Prelude.{◌≡◌};
ghost use Rattle.hns_p2p_rights.specs.Terms.{terms_of};
ghost use Rattle.hns_p2p_rights.specs.Rights.{granted, may_send, types_granted};
ghost use Rattle.hns_p2p_rights.specs.Helpers.{own};

use hns_refusals::Refusal;

// Bits 0 to 30 of a mask.
const FULL_MASK: u64 = 0x7fff_ffff;

// The mask of the role, or 21.
#[tactic(auto, using(crate::proofs::Lent::own_unnamed, crate::proofs::Lent::own_lent))]
fn own(terms: &[u64]) -> Result<u64, Refusal>
    ensures { result ≡ own (terms_of terms.now) }
{
    let Some((role, masks)) = terms.split_first() else {
        return Ok(FULL_MASK);
    };
    if 8 <= *role {
        return Err(Refusal::NoRole);
    }
    match masks.first_chunk::<8>() {
        Some(masks) => Ok(masks[*role as usize]),
        None => Ok(0),
    }
}

// Types from 30 on share bit 30.
#[tactic(auto, unfolding(crate::specs::Rights::granted, crate::specs::Rights::bit_of, crate::specs::Rights::bit))]
fn grants(mask: u64, packet_type: u8) -> bool
    ensures { result ≡ granted mask packet_type }
{
    (mask >> packet_type.min(30)) % 2 == 1
}

// Whether the role may send a frame of that type: 21, then 22.
#[tactic(auto, using(crate::proofs::Answers::sends_none, crate::proofs::Answers::sends_granted, crate::proofs::Answers::sends_not))]
pub fn may_send(terms: &[u64], packet_type: u8) -> Result<(), Refusal>
    ensures { result ≡ may_send (terms_of terms.now) packet_type }
{
    if grants(own(terms)?, packet_type) {
        Ok(())
    } else {
        Err(Refusal::NotGranted)
    }
}

// How many types the role may send, as the ones in its mask; every type byte from 30 on counts as one type.
#[tactic(auto, using(crate::proofs::Answers::counts_none, crate::proofs::Answers::counts))]
pub fn types_granted(terms: &[u64]) -> Result<u32, Refusal>
    ensures { result ≡ types_granted (terms_of terms.now) }
{
    let known = own(terms)? & FULL_MASK;
    Ok(known.count_ones())
}
