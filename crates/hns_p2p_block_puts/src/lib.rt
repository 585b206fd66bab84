//! Puts of payloads of fixed fields and texts, by a cursor: each has the contract of one put, so that a payload can follow a
//! frame's header. The cursor goes by value beside the lent output, a rule of the project: each put hands the next one back.
//! Types of few fields take them one by one, as C lends them: a struct would be made for the call and taken apart here.
#![tactic(auto)]

ghost use Rattle.std.specs.Prelude.{◌≡◌, [], ◌∷◌, length, take};
ghost use Rattle.std.specs.Option.{unwrap_or};
ghost use Rattle.hns_refusals.specs.Limits.{max_text};
ghost use Rattle.hns_encoding.specs.Format.{host, flag, write};
ghost use Rattle.hns_encoding.specs.Put.{Put};
ghost use Rattle.hns_p2p_types.specs.Protocol.{address, version, reject, sendcmpct, getproof};
ghost use Rattle.hns_p2p_block_puts.specs.Fields.{address_of, version_of, reject_of};

use hns_encoder::Encoder;

// No `Model` hides the fields: contracts of hns_p2p_fields name them, and a flat list's item keeps all 64 bits of services.
#[derive(Clone, Copy, Debug, Default, PartialEq, Eq)]
pub struct AddressFields {
    pub time: u64,
    pub services: u64,
    pub ip: [u8; 16],
    pub port: u16,
    pub key: [u8; 33],
}

// The fields of a version but for the agent, which is lent beside them.
#[derive(Clone, Copy, Debug, Default, PartialEq, Eq)]
pub struct VersionFields {
    pub version: u32,
    pub services: u64,
    pub time: u64,
    pub remote: AddressFields,
    pub nonce: u64,
    pub height: u32,
    pub no_relay: bool,
}

// Host kind 0, ip and 20 zeros.
fn put_host(encoder: Encoder, out: &mut [u8], ip: [u8; 16]) -> Encoder
    ensures { Put out.old encoder.position (write host ip) out.new result.position }
{
    let e = encoder.put_u8(out, 0);
    let e = e.put_array(out, ip);
    e.put_array(out, [0u8; 20])
}

fn put_address(encoder: Encoder, out: &mut [u8], fields: AddressFields) -> Encoder
    ensures { Put out.old encoder.position (write address (address_of fields)) out.new result.position }
{
    let AddressFields {
        time,
        services,
        ip,
        port,
        key,
    } = fields;
    let e = encoder.put_u64_le(out, time);
    let e = e.put_u32_le(out, (services % 4_294_967_296) as u32);
    let e = e.put_u32_le(out, 0);
    let e = put_host(e, out, ip);
    let e = e.put_u16_le(out, port);
    e.put_array(out, key)
}

// A length byte and the text, of which it can count 255 bytes.
fn put_text(encoder: Encoder, out: &mut [u8], text: &[u8]) -> Encoder
    ensures { Put out.old encoder.position (length (take max_text text.now) ∷ take max_text text.now) out.new result.position }
{
    let text = hns_encoding::first(text, hns_p2p_types::MAX_USER_AGENT_SIZE);
    let e = encoder.put_u8(out, text.len() as u8);
    e.put_bytes(out, text)
}

#[tactic(auto, using(crate::proofs::Texts::flag_is), unfolding(hns_encoding::specs::Format::write))]
fn put_flag(encoder: Encoder, out: &mut [u8], set: bool) -> Encoder
    ensures { Put out.old encoder.position (write flag set) out.new result.position }
{
    encoder.put_u8(out, u8::from(set))
}

// The 88 bytes of an address, put into zeros, as std joins no arrays without a heap. The array's length is known, so no put of
// them tests it.
fn address_block(fields: AddressFields) -> [u8; 88]
    ensures { result ≡ write address (address_of fields) }
{
    let mut block = [0u8; 88];
    put_address(Encoder::new(), &mut block, fields);
    block
}

// An address by one test of its 88 bytes' room.
pub fn put_address_fields(encoder: Encoder, out: &mut [u8], fields: AddressFields) -> Encoder
    ensures { Put out.old encoder.position (write address (address_of fields)) out.new result.position }
{
    encoder.put_array(out, address_block(fields))
}

// An agent over 255 bytes is put as its first 255: the length byte counts no more.
pub fn put_version(encoder: Encoder, out: &mut [u8], fields: VersionFields, agent: &[u8]) -> Encoder
    ensures { Put out.old encoder.position (write version (version_of fields (take max_text agent.now))) out.new result.position }
{
    let e = encoder.put_u32_le(out, fields.version);
    let e = e.put_u32_le(out, (fields.services % 4_294_967_296) as u32);
    let e = e.put_u32_le(out, 0);
    let e = e.put_u64_le(out, fields.time);
    let e = put_address_fields(e, out, fields.remote);
    let e = e.put_u64_le(out, fields.nonce);
    let e = put_text(e, out, agent);
    let e = e.put_u32_le(out, fields.height);
    put_flag(e, out, fields.no_relay)
}

fn put_hash(encoder: Encoder, out: &mut [u8], hash: Option<[u8; 32]>) -> Encoder
    ensures { Put out.old encoder.position (unwrap_or hash []) out.new result.position }
{
    match hash {
        Some(hash) => encoder.put_array(out, hash),
        None => encoder,
    }
}

// A reason over 255 bytes is put as its first 255; the hash only where the rejected type carries one.
pub fn put_reject(
    encoder: Encoder,
    out: &mut [u8],
    message: u8,
    code: u8,
    reason: &[u8],
    hash: [u8; 32],
) -> Encoder
    ensures { Put out.old encoder.position (write reject (reject_of message code (take max_text reason.now) hash)) out.new result.position }
{
    let carried = hns_p2p_types::carries_reject_hash(message).then_some(hash);
    let e = encoder.put_u8(out, message);
    let e = e.put_u8(out, code);
    let e = put_text(e, out, reason);
    put_hash(e, out, carried)
}

pub fn put_sendcmpct(encoder: Encoder, out: &mut [u8], mode: u8, version: u64) -> Encoder
    ensures { Put out.old encoder.position (write sendcmpct (mode, version)) out.new result.position }
{
    encoder.put_u8(out, mode).put_u64_le(out, version)
}

pub fn put_getproof(encoder: Encoder, out: &mut [u8], root: [u8; 32], key: [u8; 32]) -> Encoder
    ensures { Put out.old encoder.position (write getproof (root, key)) out.new result.position }
{
    encoder.put_array(out, root).put_array(out, key)
}
