//! The tests that are made before a field of a payload is read, once for all calls that read one as a packet.
#![tactic(auto)]

ghost use Rattle.std.specs.Prelude.{◌≡◌};
ghost use Rattle.hns_p2p_rights.specs.Terms.{terms_of};
ghost use Rattle.hns_p2p_admission.specs.Admission.{admitted};

use hns_refusals::Refusal;

// Whether a payload of that type and length may be read under terms: 21, 22, 5. In this and the calls above it, terms, type and
// payload stay parameters of their own: the Rust's `Packet::decode` takes type and payload as two, C lends each, and the terms
// stand in front, so that no other parameter moves.
#[tactic(auto, using(crate::proofs::Tests::not_sent, crate::proofs::Tests::too_large, crate::proofs::Tests::passed))]
pub fn admit(terms: &[u64], packet_type: u8, length: usize) -> Result<(), Refusal>
    ensures { result ≡ admitted (terms_of terms.now) packet_type length }
{
    hns_p2p_rights::may_send(terms, packet_type)?;
    if 8_000_000 < length {
        return Err(Refusal::PayloadTooLarge { actual: length });
    }
    Ok(())
}
