//! Packet writers: a function for each payload that C can write, under C's name. Each asks its plan first, so that a refusal
//! writes nothing; one function that took plan and put as closures would be no shorter at its calls. Types of few fields take
//! them one by one, and a list is counted by its length, its items side by side in bytes: both are as C lends them.
#![tactic(auto)]

ghost use Rattle.std.specs.Prelude.{◌≡◌, is_some, replicate};
ghost use Rattle.std.specs.Option.{unwrap_or};
ghost use Rattle.hns_p2p_writer.specs.Writing.{exit};
ghost use Rattle.hns_p2p_writer.specs.Writers.{gives_version, gives_empty, gives_nonce, gives_addr, gives_inventory, gives_locator, gives_headers, gives_reject, gives_fee_filter, gives_send_cmpct, gives_get_block_txn, gives_get_proof, gives_raw};

use hns_encoder::Encoder;
use hns_p2p_block_puts::VersionFields;
use hns_refusals::Refusal;

#[tactic(auto, using(crate::proofs::Writing::refused, crate::proofs::Lengths::version_written, crate::proofs::Lengths::length_version))]
pub fn write_version(fields: VersionFields, agent: &[u8], out: &mut [u8]) -> Result<usize, Refusal>
    ensures { exit result out.new ≡ gives_version fields agent.now out.old }
{
    let needed = hns_p2p_plans::plan_version(agent, out.len())?;
    hns_p2p_block_puts::put_version(Encoder::new(), out, fields, agent);
    Ok(needed)
}

// The types with an empty payload.
#[tactic(auto, using(crate::proofs::Lengths::empty_written))]
pub fn write_empty(out: &mut [u8]) -> Result<usize, Refusal>
    ensures { exit result out.new ≡ gives_empty out.old }
{
    Ok(0)
}

// The nonce of a ping or a pong.
#[tactic(auto, using(crate::proofs::Writing::refused, crate::proofs::Writing::written, crate::proofs::Lengths::length_num), unfolding(hns_encoding::specs::Format::write))]
pub fn write_nonce(nonce: u64, out: &mut [u8]) -> Result<usize, Refusal>
    ensures { exit result out.new ≡ gives_nonce nonce out.old }
{
    let needed = hns_p2p_plans::plan_room(8, out.len())?;
    Encoder::new().put_u64_le(out, nonce);
    Ok(needed)
}

// Whole items of 67 bytes: time 8, services 8, ip 16, port 2, key 33.
#[tactic(auto, using(crate::proofs::Writing::refused, crate::proofs::Writing::written, crate::proofs::Lengths::length_addr, crate::proofs::Lengths::bytes_fit))]
pub fn write_addr(items: &[u8], out: &mut [u8]) -> Result<usize, Refusal>
    ensures { exit result out.new ≡ gives_addr items.now out.old }
{
    let needed = hns_p2p_plans::plan_addr(items.len() / 67, out.len())?;
    hns_p2p_list_puts::put_addr(Encoder::new(), out, items);
    Ok(needed)
}

// Of inv, getdata and notfound: whole items of 36 bytes, kind 4 and hash 32.
#[tactic(auto, using(crate::proofs::Writing::refused, crate::proofs::Writing::written, crate::proofs::Lengths::length_inventory, crate::proofs::Lengths::bytes_fit))]
pub fn write_inventory(items: &[u8], out: &mut [u8]) -> Result<usize, Refusal>
    ensures { exit result out.new ≡ gives_inventory items.now out.old }
{
    let needed = hns_p2p_plans::plan_inventory(items.len() / 36, out.len())?;
    hns_p2p_list_puts::put_inventory(Encoder::new(), out, items);
    Ok(needed)
}

// Of getblocks and getheaders: whole hashes of 32 bytes.
#[tactic(auto, using(crate::proofs::Writing::refused, crate::proofs::Writing::written, crate::proofs::Lengths::length_locator, crate::proofs::Lengths::bytes_fit))]
pub fn write_locator(hashes: &[u8], stop: [u8; 32], out: &mut [u8]) -> Result<usize, Refusal>
    ensures { exit result out.new ≡ gives_locator hashes.now stop out.old }
{
    let needed = hns_p2p_plans::plan_locator(hashes.len() / 32, out.len())?;
    hns_p2p_list_puts::put_locator(Encoder::new(), out, hashes, stop);
    Ok(needed)
}

// Whole headers of 236 bytes.
#[tactic(auto, using(crate::proofs::Writing::refused, crate::proofs::Writing::written, crate::proofs::Lengths::length_headers, crate::proofs::Lengths::bytes_fit))]
pub fn write_headers(items: &[u8], out: &mut [u8]) -> Result<usize, Refusal>
    ensures { exit result out.new ≡ gives_headers items.now out.old }
{
    let needed = hns_p2p_plans::plan_headers(items.len() / 236, out.len())?;
    hns_p2p_list_puts::put_headers(Encoder::new(), out, items);
    Ok(needed)
}

#[tactic(auto, using(crate::proofs::Writing::refused, crate::proofs::Lengths::reject_written, crate::proofs::Lengths::length_reject))]
pub fn write_reject(
    message: u8,
    code: u8,
    reason: &[u8],
    hash: Option<[u8; 32]>,
    out: &mut [u8],
) -> Result<usize, Refusal>
    ensures { exit result out.new ≡ gives_reject message code reason.now (is_some hash) (unwrap_or hash (replicate 32 0)) out.old }
{
    let needed = hns_p2p_plans::plan_reject(message, reason, hash.is_some(), out.len())?;
    let bytes = hash.unwrap_or([0; 32]);
    hns_p2p_block_puts::put_reject(Encoder::new(), out, message, code, reason, bytes);
    Ok(needed)
}

pub fn write_feefilter(rate: i64, out: &mut [u8]) -> Result<usize, Refusal>
    ensures { exit result out.new ≡ gives_fee_filter rate out.old }
{
    write_nonce(hns_p2p_types::signed_bits(rate), out)
}

#[tactic(auto, using(crate::proofs::Writing::refused, crate::proofs::Writing::written, crate::proofs::Lengths::length_sendcmpct))]
pub fn write_sendcmpct(mode: u8, version: u64, out: &mut [u8]) -> Result<usize, Refusal>
    ensures { exit result out.new ≡ gives_send_cmpct mode version out.old }
{
    let needed = hns_p2p_plans::plan_room(9, out.len())?;
    hns_p2p_block_puts::put_sendcmpct(Encoder::new(), out, mode, version);
    Ok(needed)
}

#[tactic(auto, using(crate::proofs::Writing::refused, crate::proofs::Writing::written, crate::proofs::Lengths::length_indexes))]
pub fn write_getblocktxn(hash: [u8; 32], indexes: &[u64], out: &mut [u8]) -> Result<usize, Refusal>
    ensures { exit result out.new ≡ gives_get_block_txn hash indexes.now out.old }
{
    let needed = hns_p2p_plans::plan_getblocktxn(indexes, out.len())?;
    hns_p2p_list_puts::put_getblocktxn(Encoder::new(), out, hash, indexes);
    Ok(needed)
}

#[tactic(auto, using(crate::proofs::Writing::refused, crate::proofs::Writing::written, crate::proofs::Lengths::length_getproof))]
pub fn write_getproof(root: [u8; 32], key: [u8; 32], out: &mut [u8]) -> Result<usize, Refusal>
    ensures { exit result out.new ≡ gives_get_proof root key out.old }
{
    let needed = hns_p2p_plans::plan_room(64, out.len())?;
    hns_p2p_block_puts::put_getproof(Encoder::new(), out, root, key);
    Ok(needed)
}

// Bytes as they stand, of the raw types and the carried ones.
#[tactic(auto, using(crate::proofs::Writing::refused, crate::proofs::Writing::written), unfolding(hns_encoding::specs::Format::write))]
pub fn write_raw(payload: &[u8], out: &mut [u8]) -> Result<usize, Refusal>
    ensures { exit result out.new ≡ gives_raw payload.now out.old }
{
    let needed = hns_p2p_plans::plan_room(payload.len(), out.len())?;
    Encoder::new().put_bytes(out, payload);
    Ok(needed)
}
