//! The published Rust's answers, asked of the port: a line of standard input is a case in hexadecimal, and the file
//! stdout has what the Rust answered. `differential/run --answers` makes both.
//!
//! A case is its kind, a network, three numbers of eight bytes, and its bytes.
#![tactic(auto)]

use case_lines::{Hex, Numbers};
use hns_encoding::first;
use std::io;

// There is no heap: what is lent to a call stands in a local array, of the length that the cases need, with places in it as numbers.

// A row of the C interface begins with 0, or with the number of a refusal. The language asks of a lent closure, here and below,
// that it can be called.
fn row<F: FnOnce(&mut [u64])>(rt: &impl Print, ask: F) -> io::Result<()>
    requires { F.IsAlwaysCallable ask }
{
    let mut answer = [0u64; 6];
    ask(&mut answer);
    print!(rt; "{}", Numbers(&answer))
}

fn put<F: FnOnce(&mut [u8]) -> usize>(rt: &impl Print, ask: F) -> io::Result<()>
    requires { F.IsAlwaysCallable ask }
{
    let mut out = [0xaau8; 32];
    let next = ask(&mut out);
    print!(rt; " {next} {}", Hex(&out))
}

// A header, and where it was read the header again from its parts.
fn header<F: FnOnce(&mut [u8], &mut [u64])>(rt: &impl Print, ask: F) -> io::Result<()>
    requires { F.IsAlwaysCallable ask }
{
    let mut answer = [0u64; 6];
    let mut hashes = [0xaau8; 220];
    ask(&mut hashes, &mut answer);
    print!(rt; "{} {}", Numbers(&answer), Hex(&hashes))?;
    match answer {
        [0, _, nonce, time, version, bits] => {
            let mut out = [0xaau8; 240];
            let nonce = (nonce % 4_294_967_296) as u32;
            let version = (version % 4_294_967_296) as u32;
            let bits = (bits % 4_294_967_296) as u32;
            hns_ffi::hns_put_header(nonce, time, &hashes, version, bits, &mut out, 2);
            print!(rt; " {}", Hex(&out))
        }
        _ => Ok(()),
    }
}

fn frame<F: FnOnce(&mut [u8], &mut [u64])>(rt: &impl Print, ask: F) -> io::Result<()>
    requires { F.IsAlwaysCallable ask }
{
    let mut answer = [0u64; 6];
    let mut out = [0xaau8; 48];
    ask(&mut out, &mut answer);
    print!(rt; "{} {}", Numbers(&answer), Hex(&out))
}

// A push of what follows the first bytes, which are held: its row, the held bytes after it, and the output.
fn push(rt: &impl Print, network: u8, bytes: &[u8], held: usize) -> io::Result<()> {
    let mut answer = [0u64; 6];
    let mut store = [0xaau8; 64];
    let mut output = [0xaau8; 64];
    if let Some(input) = bytes.get(held..) {
        hns_ffi::hns_put_bytes(first(bytes, held), &mut store, 0);
        hns_ffi_frames::hns_push(network, &mut store, held, input, &mut output, &mut answer);
    }
    let held = match answer {
        [0, _, _, held, ..] => held,
        [.., held, _] => held,
    };
    let store = first(&store, held as usize);
    print!(rt; "{} {} {}", Numbers(&answer), Hex(store), Hex(&output))
}

// A list of compact sizes: its row, and the values, of which those that were not read are as they were.
fn sizes(rt: &impl Print, bytes: &[u8], at: usize) -> io::Result<()> {
    let mut answer = [0u64; 6];
    let mut values = [170u64; 6];
    hns_ffi::hns_read_compact_sizes(bytes, at, &mut values, &mut answer);
    print!(rt; "{}{}", Numbers(&answer), Numbers(&values))
}

// The kinds are the cases' own bytes, and each stands here once, beside the one call that it asks for: an enum would name each call a
// second time.
fn answer(rt: &impl Print, case: &[u8]) -> io::Result<()> {
    let q = case_input::question(case);
    let bytes = case_input::question_bytes(case);
    let (a, b, c) = (q.a as usize, q.b as usize, q.c as usize);
    print!(rt; "{}", q.kind)?;
    match q.kind {
        0 => row(rt, |answer| hns_ffi::hns_read_u8(bytes, a, answer)),
        1 => row(rt, |answer| hns_ffi::hns_read_u16_le(bytes, a, answer)),
        2 => row(rt, |answer| hns_ffi::hns_read_u32_le(bytes, a, answer)),
        3 => row(rt, |answer| hns_ffi::hns_read_u64_le(bytes, a, answer)),
        4 => row(
            rt,
            |answer| hns_ffi::hns_read_compact_size(bytes, a, answer),
        ),
        5 => row(
            rt,
            |answer| hns_ffi::hns_read_compact_usize(bytes, a, b, answer),
        ),
        6 => row(rt, |answer| hns_ffi::hns_read_slice(bytes, a, b, answer)),
        7 => row(
            rt,
            |answer| hns_ffi::hns_read_bounded(bytes, a, b, c, answer),
        ),
        8 => row(rt, |answer| hns_ffi::hns_read_varbytes(bytes, a, b, answer)),
        9 => row(rt, |answer| hns_ffi::hns_finish(bytes, a, answer)),
        10 => put(rt, |out| hns_ffi::hns_put_u8((q.b % 256) as u8, out, a)),
        11 => put(
            rt,
            |out| hns_ffi::hns_put_u16_le((q.b % 65_536) as u16, out, a),
        ),
        12 => put(
            rt,
            |out| hns_ffi::hns_put_u32_le((q.b % 4_294_967_296) as u32, out, a),
        ),
        13 => put(rt, |out| hns_ffi::hns_put_u64_le(q.b, out, a)),
        14 => put(rt, |out| hns_ffi::hns_put_compact_size(q.b, out, a)),
        15 => put(rt, |out| hns_ffi::hns_put_bytes(bytes, out, a)),
        16 => put(rt, |out| hns_ffi::hns_put_varbytes(bytes, out, a)),
        17 => header(
            rt,
            |hashes, answer| hns_ffi::hns_decode_header(bytes, hashes, answer),
        ),
        18 => header(
            rt,
            |hashes, answer| hns_ffi::hns_read_header(bytes, a, hashes, answer),
        ),
        19 => frame(rt, |_, answer| {
            hns_ffi_frames::hns_decode_frame_prefix(q.about, bytes, answer);
        }),
        20 => frame(
            rt,
            |_, answer| hns_ffi_frames::hns_decode_exact(q.about, bytes, answer),
        ),
        21 => frame(rt, |out, answer| {
            hns_ffi_frames::hns_encode_frame(q.about, (q.a % 256) as u8, bytes, out, answer);
        }),
        22 => push(rt, q.about, bytes, a),
        _ => sizes(rt, bytes, a),
    }
}

// Each program has a main of its own: what it lends to its cases, and what it asks.
fn main(rt: HostRuntime) -> io::Result<()> {
    let mut buffer = [0u8; 65_536];
    let mut case = [0u8; 1_024];
    case_input::run_any(
        &rt,
        &mut rt.stdin(),
        &mut buffer,
        &mut case,
        |case| answer(&rt, case),
    )
}
