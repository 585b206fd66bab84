//! Payloads of all 256 types, read as packets. Terms, type and payload are parameters of their own, as C lends them
//! (hns_p2p_admission).
#![tactic(auto)]

ghost use Rattle.std.specs.Prelude.{◌≡◌, ◌≤◌, map, length};
ghost use Rattle.hns_encoding.specs.Format.{low7};
ghost use Rattle.hns_encoding.specs.Put.{splice};
ghost use Rattle.hns_p2p_types.specs.Packets.{fields_of};
ghost use Rattle.hns_p2p_rights.specs.Terms.{terms_of};
ghost use Rattle.hns_p2p_admission.specs.Reading.{packet_under, read_packet_under};
ghost use Rattle.hns_p2p_packet.specs.Spans.{text_span};

use hns_p2p_types::{Packet, PacketType, Span};
use hns_refusals::Refusal;

// The fields of a payload that was admitted. An arm is what its type is: its own reader, or all bytes as they stand.
#[tactic(auto, using(crate::proofs::Fields::at_type, crate::proofs::Fields::unknown_fields), unfolding(hns_p2p_types::specs::Types::type_number))]
fn read_fields(packet_type: u8, payload: &[u8]) -> Result<Packet, Refusal>
    ensures { result ≡ fields_of packet_type payload.now }
{
    let length = payload.len();
    let all = Span { start: 0, length };
    match PacketType::from(packet_type) {
        PacketType::Version => hns_p2p_blocks::read_version_fields(payload),
        PacketType::Verack => hns_p2p_blocks::close(payload, 0, Packet::Verack),
        PacketType::Ping => hns_p2p_blocks::read_ping_fields(payload),
        PacketType::Pong => hns_p2p_blocks::read_pong_fields(payload),
        PacketType::GetAddr => hns_p2p_blocks::close(payload, 0, Packet::GetAddr),
        PacketType::Addr => hns_p2p_lists::read_addr_fields(payload),
        PacketType::Inv => hns_p2p_lists::read_inv_fields(payload),
        PacketType::GetData => hns_p2p_lists::read_getdata_fields(payload),
        PacketType::NotFound => hns_p2p_lists::read_notfound_fields(payload),
        PacketType::GetBlocks => hns_p2p_lists::read_getblocks_fields(payload),
        PacketType::GetHeaders => hns_p2p_lists::read_getheaders_fields(payload),
        PacketType::Headers => hns_p2p_lists::read_headers_fields(payload),
        PacketType::SendHeaders => hns_p2p_blocks::close(payload, 0, Packet::SendHeaders),
        PacketType::Block => Ok(Packet::Block(all)),
        PacketType::Tx => Ok(Packet::Tx(all)),
        PacketType::Reject => hns_p2p_blocks::read_reject_fields(payload),
        PacketType::Mempool => hns_p2p_blocks::close(payload, 0, Packet::Mempool),
        PacketType::FilterLoad => Ok(Packet::FilterLoad(all)),
        PacketType::FilterAdd => Ok(Packet::FilterAdd(all)),
        PacketType::FilterClear => hns_p2p_blocks::close(payload, 0, Packet::FilterClear),
        PacketType::MerkleBlock => Ok(Packet::MerkleBlock(all)),
        PacketType::FeeFilter => hns_p2p_blocks::read_feefilter_fields(payload),
        PacketType::SendCmpct => hns_p2p_blocks::read_sendcmpct_fields(payload),
        PacketType::CmpctBlock => Ok(Packet::CmpctBlock(all)),
        PacketType::GetBlockTxn => hns_p2p_lists::read_getblocktxn_fields(payload),
        PacketType::BlockTxn => Ok(Packet::BlockTxn(all)),
        PacketType::GetProof => hns_p2p_blocks::read_getproof_fields(payload),
        PacketType::Proof => Ok(Packet::Proof(all)),
        PacketType::Claim => Ok(Packet::Claim(all)),
        PacketType::Airdrop => Ok(Packet::Airdrop(all)),
        PacketType::Unknown(_) => Ok(Packet::Unknown {
            packet_type,
            payload: all,
        }),
    }
}

// The packet that a payload of a type reads as under terms, or the refusal. Its text stays where it is, so that 16 is none
// here.
#[tactic(auto, using(crate::proofs::Fields::packet_away, crate::proofs::Fields::packet_fields))]
#[inline(always)]
pub fn read_payload(terms: &[u64], packet_type: u8, payload: &[u8]) -> Result<Packet, Refusal>
    ensures { result ≡ packet_under (terms_of terms.now) packet_type payload.now }
{
    hns_p2p_admission::admit(terms, packet_type, payload.len())?;
    read_fields(packet_type, payload)
}

// Where the text of a packet stands; no bytes for a packet that has no text, so that it is put as any other. No `From`: the rest
// of the packet is dropped.
#[tactic(auto, unfolding(crate::specs::Spans::text_span))]
fn text_span(packet: Packet) -> Span
    ensures { result ≡ text_span packet }
{
    match packet {
        Packet::Version(version) => version.agent,
        Packet::Reject(reject) => reject.reason,
        _ => Span::default(),
    }
}

// Bytes to the output's front, each without its top bit.
#[tactic(auto, using(crate::proofs::Texts::mask_none, crate::proofs::Texts::mask_all))]
fn put_text(bytes: &[u8], text: &mut [u8])
    requires { length bytes.now ≤ length text.old }
    ensures { text.new ≡ splice text.old 0 (map low7 bytes.now) }
{
    for (i, byte) in bytes.iter().enumerate() {
        text[i] = *byte % 128;
    }
}

// As `read_payload`, and the agent or the reason, each byte without its top bit, goes to the front of `text`.
#[tactic(auto, using(crate::proofs::Texts::refused_packet, crate::proofs::Texts::refused_text))]
pub fn read_packet(
    terms: &[u64],
    packet_type: u8,
    payload: &[u8],
    text: &mut [u8],
) -> Result<Packet, Refusal>
    ensures value { result ≡ (read_packet_under (terms_of terms.now) packet_type payload.now text.old).packet }
    ensures text_after { text.new ≡ (read_packet_under (terms_of terms.now) packet_type payload.now text.old).text }
{
    let packet = read_payload(terms, packet_type, payload)?;
    let span = text_span(packet);
    let needed = span.length;
    if text.len() < needed {
        return Err(Refusal::OutputShort { needed });
    }
    put_text(&payload[span.start..span.start + needed], text);
    Ok(packet)
}
