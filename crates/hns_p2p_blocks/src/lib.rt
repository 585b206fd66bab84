//! Fields of payloads without counts: each is one test of the length, and then numbers at known places. What is tested before
//! the fields is not tested here. A place stands beside the payload, as in every read: a refusal names it.
#![tactic(auto)]

ghost use Rattle.std.specs.Prelude.{◌≡◌};
ghost use Rattle.hns_encoding.specs.Bytes.{left, end_at};
ghost use Rattle.hns_encoding.specs.Format.{sum, short};
ghost use Rattle.hns_encoding.specs.Answers.{finished_of};
ghost use Rattle.hns_p2p_types.specs.Packets.{signed, fields_of, address_in};
ghost use Rattle.hns_p2p_blocks.specs.Blocks.{gate};
ghost use Rattle.hns_p2p_blocks.specs.Helpers.{block_end, eight_in};

use hns_encoding::{pick, remaining, u8_at, u16_at, u32_at, u64_at};
use hns_p2p_types::{
    GetProofPacket, NET_ADDRESS_SIZE, NetAddress, Packet, RejectPacket, Span, VersionPacket,
};
use hns_refusals::Refusal;

// Where the bytes from a place on end, of reads of these widths.
pub fn ends_in(payload: &[u8], widths: &[usize], at: usize) -> Refusal
    ensures { result ≡ short widths.now at (left payload.now at) }
{
    let mut place = at;
    let mut left = remaining(payload, at);
    for &width in widths {
        if left < width {
            return Refusal::UnexpectedEnd {
                offset: place,
                missing: width - left,
            };
        }
        place += width;
        left -= width;
    }
    Refusal::UnexpectedEnd {
        offset: place,
        missing: 0,
    }
}

// A packet whose fields end at a place: no byte may be left.
#[tactic(auto, using(crate::proofs::Ends::closed, crate::proofs::Ends::not_closed))]
pub fn close(payload: &[u8], at: usize, packet: Packet) -> Result<Packet, Refusal>
    ensures { result ≡ gate (end_at payload.now at) packet }
{
    hns_encoding::finish(payload, at)?;
    Ok(packet)
}

// Whether a payload is reads of these widths, and no byte after them. Their sum is given, so that none is made at run time.
#[tactic(auto, using(crate::proofs::Ends::block_ends, crate::proofs::Ends::block_finishes))]
fn block(payload: &[u8], widths: &[usize], size: usize) -> Result<(), Refusal>
    requires { size ≡ sum widths.now }
    ensures { result ≡ finished_of (block_end widths.now payload.now) }
{
    if payload.len() < size {
        return Err(ends_in(payload, widths, 0));
    }
    hns_encoding::finish(payload, size)
}

// The number that a payload of eight bytes is.
#[tactic(auto, using(crate::proofs::Packets::eight_refused, crate::proofs::Packets::eight_read))]
fn eight(payload: &[u8]) -> Result<u64, Refusal>
    ensures { result ≡ eight_in payload.now }
{
    block(payload, &[8], 8)?;
    Ok(u64_at(payload, 0))
}

// A ping and a pong differ in their constructor alone: a `pub fn` that takes it would have to require something of it.
#[tactic(auto, using(crate::proofs::Packets::ping_refused, crate::proofs::Packets::ping_read))]
pub fn read_ping_fields(payload: &[u8]) -> Result<Packet, Refusal>
    ensures { result ≡ fields_of 2 payload.now }
{
    Ok(Packet::Ping(eight(payload)?))
}

#[tactic(auto, using(crate::proofs::Packets::pong_refused, crate::proofs::Packets::pong_read))]
pub fn read_pong_fields(payload: &[u8]) -> Result<Packet, Refusal>
    ensures { result ≡ fields_of 3 payload.now }
{
    Ok(Packet::Pong(eight(payload)?))
}

// The number that two's complement has as these bits: the library's conversion, by the document's definition.
#[tactic(auto, using(crate::proofs::Signed::signed_same))]
pub fn signed_of(v: u64) -> i64
    ensures { result ≡ signed v }
{
    v.cast_signed()
}

#[tactic(auto, using(crate::proofs::Packets::feefilter_refused, crate::proofs::Packets::feefilter_read))]
pub fn read_feefilter_fields(payload: &[u8]) -> Result<Packet, Refusal>
    ensures { result ≡ fields_of 21 payload.now }
{
    Ok(Packet::FeeFilter(signed_of(eight(payload)?)))
}

#[tactic(auto, using(crate::proofs::Packets::sendcmpct_refused, crate::proofs::Packets::sendcmpct_read))]
pub fn read_sendcmpct_fields(payload: &[u8]) -> Result<Packet, Refusal>
    ensures { result ≡ fields_of 22 payload.now }
{
    block(payload, &[1, 8], 9)?;
    Ok(Packet::SendCmpct {
        mode: u8_at(payload, 0),
        version: u64_at(payload, 1),
    })
}

#[tactic(auto, using(crate::proofs::Packets::getproof_refused, crate::proofs::Packets::getproof_read))]
pub fn read_getproof_fields(payload: &[u8]) -> Result<Packet, Refusal>
    ensures { result ≡ fields_of 26 payload.now }
{
    block(payload, &[32, 32], 64)?;
    Ok(Packet::GetProof(GetProofPacket { root: 0, key: 32 }))
}

// The address at a place; zeros where it is not all there. One test of its 88 bytes: their length is known, so that no number
// in them tests it. Its host kind is their byte 16.
#[tactic(auto, using(crate::proofs::Addresses::address_short, crate::proofs::Addresses::address_there))]
pub fn address_at(payload: &[u8], at: usize) -> NetAddress
    ensures { result ≡ address_in payload.now at }
{
    let bytes = hns_encoding::from_place(payload, at);
    let Some(block) = bytes.first_chunk::<NET_ADDRESS_SIZE>() else {
        return NetAddress::default();
    };
    let kept = u8_at(block, 16) == 0;
    NetAddress {
        time: u64_at(block, 0),
        services: u64::from(u32_at(block, 8)),
        ip_first: pick(kept, u64_at(block, 17), 0),
        ip_last: pick(kept, u64_at(block, 25), 0),
        port: u16_at(block, 53),
        key: at + 55,
    }
}

#[tactic(auto, using(crate::proofs::Packets::version_refused, crate::proofs::Packets::version_read))]
pub fn read_version_fields(payload: &[u8]) -> Result<Packet, Refusal>
    ensures { result ≡ fields_of 0 payload.now }
{
    let length = usize::from(u8_at(payload, 116));
    let widths = [4, 4, 4, 8, 8, 4, 4, 1, 36, 2, 33, 8, 1, length, 4, 1];
    block(payload, &widths, 122 + length)?;
    Ok(Packet::Version(VersionPacket {
        version: u32_at(payload, 0),
        services: u64::from(u32_at(payload, 4)),
        time: u64_at(payload, 12),
        remote: address_at(payload, 20),
        nonce: u64_at(payload, 108),
        agent: Span { start: 117, length },
        height: u32_at(payload, 117 + length),
        no_relay: u8_at(payload, 121 + length) == 1,
    }))
}

// A reject with its hash, or without, by its type.
#[tactic(auto, using(crate::proofs::Packets::reject_refused, crate::proofs::Packets::reject_read))]
pub fn read_reject_fields(payload: &[u8]) -> Result<Packet, Refusal>
    ensures { result ≡ fields_of 15 payload.now }
{
    let message = u8_at(payload, 0);
    let length = usize::from(u8_at(payload, 2));
    let carried = hns_p2p_types::carries_reject_hash(message);
    let hash_length = if carried { 32 } else { 0 };
    let widths = [1, 1, 1, length, hash_length];
    block(payload, &widths, 3 + length + hash_length)?;
    Ok(Packet::Reject(RejectPacket {
        message,
        code: u8_at(payload, 1),
        reason: Span { start: 3, length },
        hash: carried.then_some(3 + length),
    }))
}
