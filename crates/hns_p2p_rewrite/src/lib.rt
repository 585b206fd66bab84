//! A payload that is read as a packet, and written again by the writer of its type, which is given what was read. There is no
//! heap: what a writer is lent stands in arrays of the most that its type can have, and items are places of the payload beside
//! them. Terms, type and payload are parameters of their own, as C lends them (hns_p2p_admission).
#![tactic(auto)]

ghost use Rattle.std.specs.Prelude.{◌≡◌, ◌+◌, ◌*◌, ◌≤◌, length, take, drop, is_some, replicate};
ghost use Rattle.std.specs.Option.{unwrap_or};
ghost use Rattle.hns_refusals.specs.Limits.{max_addresses};
ghost use Rattle.hns_encoding.specs.Bytes.{raw_at};
ghost use Rattle.hns_encoding.specs.Format.{write, values_at};
ghost use Rattle.hns_encoding.specs.Put.{Put};
ghost use Rattle.hns_p2p_types.specs.Protocol.{address};
ghost use Rattle.hns_p2p_rights.specs.Terms.{terms_of};
ghost use Rattle.hns_p2p_list_puts.specs.Fields.{flat_address};
ghost use Rattle.hns_p2p_writer.specs.Writing.{exit};
ghost use Rattle.hns_p2p_writer.specs.Writers.{gives_version, gives_addr, gives_inventory, gives_locator, gives_reject, gives_get_proof};
ghost use Rattle.hns_p2p_wire.specs.Table.{flat_addresses};
ghost use Rattle.hns_p2p_wire.specs.Demand3.{rewriting, rewriting_under};
ghost use Rattle.hns_p2p_fields.specs.Fields.{version_fields_in, hash_in};
ghost use Rattle.hns_p2p_rewrite.specs.Helpers.{flat_fields};

use hns_encoder::Encoder;
use hns_p2p_block_puts::AddressFields;
use hns_p2p_types::{
    Items, LocatorPacket, MAX_COMPACT_BLOCK_TRANSACTIONS, MAX_USER_AGENT_SIZE, NET_ADDRESS_SIZE,
    Packet, RejectPacket, VersionPacket,
};
use hns_refusals::Refusal;

fn rewrite_version(
    payload: &[u8],
    version: VersionPacket,
    text: &[u8],
    out: &mut [u8],
) -> Result<usize, Refusal>
    ensures { exit result out.new ≡ gives_version (version_fields_in payload.now version) (take version.agent.length text.now) out.old }
{
    let fields = hns_p2p_fields::version_fields(payload, version);
    let agent = hns_encoding::first(text, version.agent.length);
    hns_p2p_writer::write_version(fields, agent, out)
}

// The cursor goes by value beside the lent output, as in hns_p2p_block_puts.
fn put_flat_address(encoder: Encoder, out: &mut [u8], fields: AddressFields) -> Encoder
    ensures { Put out.old encoder.position (write flat_address (flat_fields fields)) out.new result.position }
{
    let e = encoder.put_u64_le(out, fields.time);
    let e = e.put_u64_le(out, fields.services);
    let e = e.put_array(out, fields.ip);
    let e = e.put_u16_le(out, fields.port);
    e.put_array(out, fields.key)
}

// The addresses of a payload as the items that their writer takes.
fn put_flat_addresses(encoder: Encoder, out: &mut [u8], payload: &[u8], items: Items) -> Encoder
    requires { items.first + items.count * 88 ≤ length payload.now }
    ensures { Put out.old encoder.position (flat_addresses (values_at address _ items.count payload.now items.first)) out.new result.position }
{
    let mut e = encoder;
    for i in 0..items.count {
        let address = hns_p2p_blocks::address_at(payload, items.first + i * NET_ADDRESS_SIZE);
        let fields = hns_p2p_fields::address_fields(payload, address);
        e = put_flat_address(e, out, fields);
    }
    e
}

fn rewrite_addr(payload: &[u8], items: Items, out: &mut [u8]) -> Result<usize, Refusal>
    requires { (items.count ≤ max_addresses) × (items.first + items.count * 88 ≤ length payload.now) }
    ensures { exit result out.new ≡ gives_addr (flat_addresses (values_at address _ items.count payload.now items.first)) out.old }
{
    let mut flat = [0u8; 67_000];
    let e = put_flat_addresses(Encoder::new(), &mut flat, payload, items);
    hns_p2p_writer::write_addr(hns_encoding::first(&flat, e.position), out)
}

// The items are all that follows the count.
fn rewrite_inventory(payload: &[u8], items: Items, out: &mut [u8]) -> Result<usize, Refusal>
    ensures { exit result out.new ≡ gives_inventory (drop items.first payload.now) out.old }
{
    hns_p2p_writer::write_inventory(hns_encoding::from_place(payload, items.first), out)
}

fn rewrite_locator(payload: &[u8], locator: LocatorPacket, out: &mut [u8]) -> Result<usize, Refusal>
    ensures { exit result out.new ≡ gives_locator (drop locator.locator.first (take locator.stop payload.now)) (raw_at 32 payload.now locator.stop) out.old }
{
    let before = hns_encoding::first(payload, locator.stop);
    let hashes = hns_encoding::from_place(before, locator.locator.first);
    let stop = hns_encoding::array_at(payload, locator.stop);
    hns_p2p_writer::write_locator(hashes, stop, out)
}

fn rewrite_reject(
    payload: &[u8],
    reject: RejectPacket,
    text: &[u8],
    out: &mut [u8],
) -> Result<usize, Refusal>
    ensures { exit result out.new ≡ gives_reject reject.message reject.code (take reject.reason.length text.now) (is_some reject.hash) (unwrap_or (hash_in payload.now reject.hash) (replicate 32 0)) out.old }
{
    let reason = hns_encoding::first(text, reject.reason.length);
    let hash = hns_p2p_fields::hash_at(payload, reject.hash);
    hns_p2p_writer::write_reject(reject.message, reject.code, reason, hash, out)
}

// The payload was admitted when it was read as a packet. Its indexes are read under no terms, under which every type may be
// sent, so that the answer is document 01's. What was filled is the array's front.
fn rewrite_getblocktxn(payload: &[u8], out: &mut [u8]) -> Result<usize, Refusal>
    ensures { exit result out.new ≡ rewriting 24 payload.now out.old }
{
    let mut indexes = [0; MAX_COMPACT_BLOCK_TRANSACTIONS];
    let n = hns_p2p_indexes::indexes(&[], payload, &mut indexes)?;
    let hash = hns_encoding::array_at(payload, 0);
    hns_p2p_writer::write_getblocktxn(hash, &indexes[..n], out)
}

fn rewrite_getproof(payload: &[u8], out: &mut [u8]) -> Result<usize, Refusal>
    ensures { exit result out.new ≡ gives_get_proof (raw_at 32 payload.now 0) (raw_at 32 payload.now 32) out.old }
{
    let root = hns_encoding::array_at(payload, 0);
    let key = hns_encoding::array_at(payload, 32);
    hns_p2p_writer::write_getproof(root, key, out)
}

// The payload's own refusal, or what its writer answers; a refusal writes nothing. An arm is what its type is: its own writer.
pub fn rewrite(
    terms: &[u64],
    packet_type: u8,
    payload: &[u8],
    out: &mut [u8],
) -> Result<usize, Refusal>
    ensures { exit result out.new ≡ rewriting_under (terms_of terms.now) packet_type payload.now out.old }
{
    let mut text = [0; MAX_USER_AGENT_SIZE];
    let packet = hns_p2p_packet::read_packet(terms, packet_type, payload, &mut text)?;
    match packet {
        Packet::Version(v) => rewrite_version(payload, v, &text, out),
        Packet::Ping(nonce) | Packet::Pong(nonce) => hns_p2p_writer::write_nonce(nonce, out),
        Packet::Addr(i) => rewrite_addr(payload, i, out),
        Packet::Inv(i) | Packet::GetData(i) | Packet::NotFound(i) => {
            rewrite_inventory(payload, i, out)
        }
        Packet::GetBlocks(l) | Packet::GetHeaders(l) => rewrite_locator(payload, l, out),
        Packet::Headers(i) => {
            hns_p2p_writer::write_headers(hns_encoding::from_place(payload, i.first), out)
        }
        Packet::Reject(r) => rewrite_reject(payload, r, &text, out),
        Packet::FeeFilter(rate) => hns_p2p_writer::write_feefilter(rate, out),
        Packet::SendCmpct { mode, version } => hns_p2p_writer::write_sendcmpct(mode, version, out),
        Packet::GetBlockTxn(_) => rewrite_getblocktxn(payload, out),
        Packet::GetProof(_) => rewrite_getproof(payload, out),
        Packet::Verack
        | Packet::GetAddr
        | Packet::SendHeaders
        | Packet::Mempool
        | Packet::FilterClear => hns_p2p_writer::write_empty(out),
        Packet::Block(_)
        | Packet::Tx(_)
        | Packet::FilterLoad(_)
        | Packet::FilterAdd(_)
        | Packet::MerkleBlock(_)
        | Packet::CmpctBlock(_)
        | Packet::BlockTxn(_)
        | Packet::Proof(_)
        | Packet::Claim(_)
        | Packet::Airdrop(_)
        | Packet::Unknown { .. } => hns_p2p_writer::write_raw(payload, out),
    }
}
