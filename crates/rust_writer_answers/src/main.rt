//! The published Rust's answers about packets that are written, asked of the port: a line of standard input is a case in
//! hexadecimal, and the file stdout has what the Rust answered. `differential/run --answers` makes both.
//!
//! A case is its kind, a packet type, three numbers of eight bytes, and its bytes: a payload to write again, or what the
//! type's writer is given, arguments of a fixed size first. The first number is the output's length. The others say which
//! zeros the bytes leave out: after how many bytes they stand, and how many there are. So a short line has megabytes.
//!
//! An answer is the kind, 0 and the length written, or the refusal's number and values; then the output.
#![tactic(auto)]

use case_input::Asked;
use case_lines::{Shown, counted};
use hns_encoding::{first, from_place, u8_at, u16_at, u32_at, u64_at};
use hns_p2p_types::PacketType;
use std::io;

// There is no heap: what is lent to a call stands in a local array, of the length that the cases need, with places in it as numbers.

// Bytes of a line.
const ROOM: usize = 4_096;

// Bytes of a case: a hash, and a payload one byte over the limit. The stack of 8 MB has room for one of these.
const LONG_ROOM: usize = 8_000_033;

// Bytes of a lent output.
const OUT_ROOM: usize = 1_024;

// Indexes to write: more than may be written.
const NUMBERS: usize = 16_700;

// The fields, an output and a row, here and below, as the C interface takes them.
fn write_version(fields: &[u8], out: &mut [u8], row: &mut [u64]) {
    let remote = from_place(fields, 20);
    hns_ffi_writers::hns_write_version(
        u32_at(fields, 0),
        u64_at(fields, 4),
        u64_at(fields, 12),
        u64_at(remote, 0),
        u64_at(remote, 8),
        u64_at(remote, 16),
        u64_at(remote, 24),
        u16_at(remote, 32),
        from_place(remote, 34),
        u64_at(fields, 87),
        from_place(fields, 100),
        u32_at(fields, 95),
        u8_at(fields, 99) == 1,
        out,
        row,
    );
}

fn write_reject(fields: &[u8], out: &mut [u8], row: &mut [u64]) {
    hns_ffi_writers::hns_write_reject(
        u8_at(fields, 0),
        u8_at(fields, 1),
        from_place(fields, 35),
        u8_at(fields, 2) == 1,
        from_place(fields, 3),
        out,
        row,
    );
}

// The indexes stand as compact sizes.
fn write_getblocktxn(fields: &[u8], out: &mut [u8], row: &mut [u64]) {
    let mut indexes = [0u64; NUMBERS];
    let count = hns_encoding::read_compact_sizes(fields, 32, &mut indexes).count;
    if let Some(indexes) = indexes.get(..count) {
        hns_ffi_writers::hns_write_getblocktxn(fields, indexes, out, row);
    }
}

// Each type has its writer, and each arm is one call.
fn write(packet_type: u8, fields: &[u8], out: &mut [u8], row: &mut [u64]) {
    let number = u64_at(fields, 0);
    let rest = from_place(fields, 32);
    match PacketType::from(packet_type) {
        PacketType::Version => write_version(fields, out, row),
        PacketType::Verack
        | PacketType::GetAddr
        | PacketType::SendHeaders
        | PacketType::Mempool
        | PacketType::FilterClear => hns_ffi_writers::hns_write_empty(out, row),
        PacketType::Ping | PacketType::Pong => hns_ffi_writers::hns_write_nonce(number, out, row),
        PacketType::Addr => hns_ffi_writers::hns_write_addr(fields, out, row),
        PacketType::Inv | PacketType::GetData | PacketType::NotFound => {
            hns_ffi_writers::hns_write_inventory(fields, out, row);
        }
        PacketType::GetBlocks | PacketType::GetHeaders => {
            hns_ffi_writers::hns_write_locator(rest, fields, out, row);
        }
        PacketType::Headers => hns_ffi_writers::hns_write_headers(fields, out, row),
        PacketType::Reject => write_reject(fields, out, row),
        PacketType::FeeFilter => {
            hns_ffi_writers::hns_write_feefilter(number.cast_signed(), out, row);
        }
        PacketType::SendCmpct => {
            hns_ffi_writers::hns_write_sendcmpct(u8_at(fields, 0), u64_at(fields, 1), out, row);
        }
        PacketType::GetBlockTxn => write_getblocktxn(fields, out, row),
        PacketType::GetProof => hns_ffi_writers::hns_write_getproof(fields, rest, out, row),
        _ => hns_ffi_writers::hns_write_raw(fields, out, row),
    }
}

// The kinds are the cases' own bytes, and each stands here once: an enum would name each call a second time.
fn call(q: Asked, bytes: &[u8], out: &mut [u8], row: &mut [u64]) {
    match q.kind {
        28 => hns_ffi_packets::hns_rewrite(&[], q.about, bytes, out, row),
        _ => write(q.about, bytes, out, row),
    }
}

// The output is shown after the answer. Nothing is asked if it is longer than there is room for.
fn ask(rt: &impl Print, q: Asked, bytes: &[u8]) -> io::Result<()> {
    let mut lent = [0xaau8; OUT_ROOM];
    print!(rt; "{}", q.kind)?;
    if let Some(out) = lent.get_mut(..q.a as usize) {
        let mut row = [0u64; 16];
        call(q, bytes, out, &mut row);
        print!(rt; "{} {}", counted(&row), Shown(out))?;
    }
    Ok(())
}

// Each program has a main of its own: what it lends to its cases, and what it asks.
fn main(rt: HostRuntime) -> io::Result<()> {
    let mut buffer = [0u8; 65_536];
    let mut case = [0u8; ROOM];
    let mut long = [0u8; LONG_ROOM];
    case_input::run_any(&rt, &mut rt.stdin(), &mut buffer, &mut case, |case| {
        case_input::with_question(case, &mut long, |q, bytes| ask(&rt, q, bytes))
    })
}
