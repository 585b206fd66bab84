//! The packet writers for callers in C and Rust: numbers and byte slices in, the bytes into a lent output, and a row of six numbers out.
//! A hash or a key is the front of a slice, zeros where there are fewer bytes.
//!
//! Names, parameters and rows are those of hns_ffi.h: one function for each call that C makes, with a row of numbers for its
//! answer and a clause that says so.
//!
//! A library exports nothing, whatever its functions say: hns_ffi_writers_c has the exports, and the test programs call this one.
#![tactic(auto)]

ghost use Rattle.std.specs.Prelude.{◌≡◌};
ghost use Rattle.hns_encoding.specs.Bytes.{raw_at};
ghost use Rattle.hns_p2p_writer.specs.Writers.{gives_version, gives_empty, gives_nonce, gives_addr, gives_inventory, gives_locator, gives_headers, gives_reject, gives_fee_filter, gives_send_cmpct, gives_get_block_txn, gives_get_proof, gives_raw};
ghost use Rattle.hns_rows.specs.Rows.{answered, count_row};
ghost use Rattle.hns_ffi_writers.specs.Version.{version_from};

use hns_p2p_block_puts::VersionFields;
use hns_p2p_types::NetAddress;

#[unsafe(no_mangle)]
pub extern "C" fn hns_write_empty(out: &mut [u8], answer: &mut [u64])
    ensures answer_after { answer.new ≡ answered answer.old (count_row (gives_empty out.old).answer) }
    ensures out_after { out.new ≡ (gives_empty out.old).output }
{
    let encoded = hns_p2p_writer::write_empty(out);
    hns_rows::put_row(answer, hns_rows::of_count(encoded));
}

#[unsafe(no_mangle)]
pub extern "C" fn hns_write_nonce(nonce: u64, out: &mut [u8], answer: &mut [u64])
    ensures answer_after { answer.new ≡ answered answer.old (count_row (gives_nonce nonce out.old).answer) }
    ensures out_after { out.new ≡ (gives_nonce nonce out.old).output }
{
    let encoded = hns_p2p_writer::write_nonce(nonce, out);
    hns_rows::put_row(answer, hns_rows::of_count(encoded));
}

#[unsafe(no_mangle)]
pub extern "C" fn hns_write_addr(items: &[u8], out: &mut [u8], answer: &mut [u64])
    ensures answer_after { answer.new ≡ answered answer.old (count_row (gives_addr items.now out.old).answer) }
    ensures out_after { out.new ≡ (gives_addr items.now out.old).output }
{
    let encoded = hns_p2p_writer::write_addr(items, out);
    hns_rows::put_row(answer, hns_rows::of_count(encoded));
}

#[unsafe(no_mangle)]
pub extern "C" fn hns_write_inventory(items: &[u8], out: &mut [u8], answer: &mut [u64])
    ensures answer_after { answer.new ≡ answered answer.old (count_row (gives_inventory items.now out.old).answer) }
    ensures out_after { out.new ≡ (gives_inventory items.now out.old).output }
{
    let encoded = hns_p2p_writer::write_inventory(items, out);
    hns_rows::put_row(answer, hns_rows::of_count(encoded));
}

#[unsafe(no_mangle)]
pub extern "C" fn hns_write_locator(hashes: &[u8], stop: &[u8], out: &mut [u8], answer: &mut [u64])
    ensures answer_after { answer.new ≡ answered answer.old (count_row (gives_locator hashes.now (raw_at 32 stop.now 0) out.old).answer) }
    ensures out_after { out.new ≡ (gives_locator hashes.now (raw_at 32 stop.now 0) out.old).output }
{
    let last = hns_encoding::array_at(stop, 0);
    let encoded = hns_p2p_writer::write_locator(hashes, last, out);
    hns_rows::put_row(answer, hns_rows::of_count(encoded));
}

#[unsafe(no_mangle)]
pub extern "C" fn hns_write_headers(items: &[u8], out: &mut [u8], answer: &mut [u64])
    ensures answer_after { answer.new ≡ answered answer.old (count_row (gives_headers items.now out.old).answer) }
    ensures out_after { out.new ≡ (gives_headers items.now out.old).output }
{
    let encoded = hns_p2p_writer::write_headers(items, out);
    hns_rows::put_row(answer, hns_rows::of_count(encoded));
}

#[tactic(auto, using(hns_p2p_writer::proofs::Lengths::flag_given))]
#[unsafe(no_mangle)]
pub extern "C" fn hns_write_reject(
    message: u8,
    code: u8,
    reason: &[u8],
    present: bool,
    hash: &[u8],
    out: &mut [u8],
    answer: &mut [u64],
)
    ensures answer_after { answer.new ≡ answered answer.old (count_row (gives_reject message code reason.now present (raw_at 32 hash.now 0) out.old).answer) }
    ensures out_after { out.new ≡ (gives_reject message code reason.now present (raw_at 32 hash.now 0) out.old).output }
{
    let carried = present.then_some(hns_encoding::array_at(hash, 0));
    let encoded = hns_p2p_writer::write_reject(message, code, reason, carried, out);
    hns_rows::put_row(answer, hns_rows::of_count(encoded));
}

#[unsafe(no_mangle)]
pub extern "C" fn hns_write_feefilter(rate: i64, out: &mut [u8], answer: &mut [u64])
    ensures answer_after { answer.new ≡ answered answer.old (count_row (gives_fee_filter rate out.old).answer) }
    ensures out_after { out.new ≡ (gives_fee_filter rate out.old).output }
{
    let encoded = hns_p2p_writer::write_feefilter(rate, out);
    hns_rows::put_row(answer, hns_rows::of_count(encoded));
}

#[unsafe(no_mangle)]
pub extern "C" fn hns_write_sendcmpct(mode: u8, version: u64, out: &mut [u8], answer: &mut [u64])
    ensures answer_after { answer.new ≡ answered answer.old (count_row (gives_send_cmpct mode version out.old).answer) }
    ensures out_after { out.new ≡ (gives_send_cmpct mode version out.old).output }
{
    let encoded = hns_p2p_writer::write_sendcmpct(mode, version, out);
    hns_rows::put_row(answer, hns_rows::of_count(encoded));
}

#[unsafe(no_mangle)]
pub extern "C" fn hns_write_getblocktxn(
    hash: &[u8],
    indexes: &[u64],
    out: &mut [u8],
    answer: &mut [u64],
)
    ensures answer_after { answer.new ≡ answered answer.old (count_row (gives_get_block_txn (raw_at 32 hash.now 0) indexes.now out.old).answer) }
    ensures out_after { out.new ≡ (gives_get_block_txn (raw_at 32 hash.now 0) indexes.now out.old).output }
{
    let block = hns_encoding::array_at(hash, 0);
    let encoded = hns_p2p_writer::write_getblocktxn(block, indexes, out);
    hns_rows::put_row(answer, hns_rows::of_count(encoded));
}

#[unsafe(no_mangle)]
pub extern "C" fn hns_write_getproof(root: &[u8], key: &[u8], out: &mut [u8], answer: &mut [u64])
    ensures answer_after { answer.new ≡ answered answer.old (count_row (gives_get_proof (raw_at 32 root.now 0) (raw_at 32 key.now 0) out.old).answer) }
    ensures out_after { out.new ≡ (gives_get_proof (raw_at 32 root.now 0) (raw_at 32 key.now 0) out.old).output }
{
    let from = hns_encoding::array_at(root, 0);
    let of = hns_encoding::array_at(key, 0);
    let encoded = hns_p2p_writer::write_getproof(from, of, out);
    hns_rows::put_row(answer, hns_rows::of_count(encoded));
}

#[unsafe(no_mangle)]
pub extern "C" fn hns_write_raw(payload: &[u8], out: &mut [u8], answer: &mut [u64])
    ensures answer_after { answer.new ≡ answered answer.old (count_row (gives_raw payload.now out.old).answer) }
    ensures out_after { out.new ≡ (gives_raw payload.now out.old).output }
{
    let encoded = hns_p2p_writer::write_raw(payload, out);
    hns_rows::put_row(answer, hns_rows::of_count(encoded));
}

#[unsafe(no_mangle)]
pub extern "C" fn hns_write_version(
    version: u32,
    services: u64,
    time: u64,
    remote_time: u64,
    remote_services: u64,
    ip_first: u64,
    ip_last: u64,
    port: u16,
    key: &[u8],
    nonce: u64,
    agent: &[u8],
    height: u32,
    no_relay: bool,
    out: &mut [u8],
    answer: &mut [u64],
)
    ensures answer_after { answer.new ≡ answered answer.old (count_row (gives_version (version_from version services time remote_time remote_services ip_first ip_last port key.now nonce height no_relay) agent.now out.old).answer) }
    ensures out_after { out.new ≡ (gives_version (version_from version services time remote_time remote_services ip_first ip_last port key.now nonce height no_relay) agent.now out.old).output }
{
    let remote = NetAddress {
        time: remote_time,
        services: remote_services,
        ip_first,
        ip_last,
        port,
        key: 0,
    };
    let fields = VersionFields {
        version,
        services,
        time,
        remote: hns_p2p_fields::address_fields(key, remote),
        nonce,
        height,
        no_relay,
    };
    let encoded = hns_p2p_writer::write_version(fields, agent, out);
    hns_rows::put_row(answer, hns_rows::of_count(encoded));
}
