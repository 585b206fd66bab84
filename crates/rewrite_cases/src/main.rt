//! Payloads read and written again: a line of standard input is a case in hexadecimal, and the file stdout has the answers
//! of model.py, which was written from document 01.
//!
//! A case is the packet type, four numbers of four bytes, and bytes. The first number is the output's length. The others
//! say what payload the bytes stand for: so many of them, then a piece of so many, repeated so many times, then the rest.
//! So a short line has a payload of a thousand addresses, or of megabytes.
#![tactic(auto)]

use case_lines::{Behind, Hex};
use hns_encoder::Encoder;
use hns_encoding::{first, from_place, u8_at, u32_at};
use std::io;

// There is no heap: what is lent to a call stands in a local array, of the length that the cases need, with places in it as numbers.

// The type and the four numbers.
const FRONT: usize = 17;

// Bytes of a case.
const ROOM: usize = 20_000;

// Bytes of a payload: one over the limit. The stack of 8 MB has room for one of these.
const PAYLOAD_ROOM: usize = 8_000_001;

// Bytes of an output: those of a thousand addresses, and some behind them.
const OUT_ROOM: usize = 88_100;

// The longest encoding that is shown whole, as every version and reject is. Of a longer one the two ends are shown.
const WHOLE: usize = 400;

// What was written, some bytes behind it, and the sum of the whole output.
fn show(rt: &impl Print, out: &[u8], written: usize) -> io::Result<()> {
    let bytes = first(out, written);
    if bytes.len() <= WHOLE {
        print!(rt; "{}", Behind(bytes))?;
    } else {
        let last = from_place(bytes, bytes.len() - 8);
        print!(rt; " {} to {}", Hex(first(bytes, 64)), Hex(last))?;
    }
    let behind = first(from_place(out, written), 8);
    print!(rt; " behind{} sum {}", Behind(behind), case_input::sum(out))
}

// Type, payload and output one by one, as the call takes them. Printed here, as what is shown of an answer is the output's.
fn ask(rt: &impl Print, packet_type: u8, payload: &[u8], out: &mut [u8]) -> io::Result<()> {
    case_input::fill(out);
    let answer = hns_p2p_rewrite::rewrite(&[], packet_type, payload, out);
    match answer {
        Ok(n) => print!(rt; "written {n}")?,
        Err(refusal) => print!(rt; "refused {refusal}")?,
    }
    show(rt, out, answer.unwrap_or(0))
}

// A rule of the project: each put hands the next cursor back, beside the output.
fn put_run(encoder: Encoder, out: &mut [u8], piece: &[u8], times: u32) -> Encoder {
    let mut e = encoder;
    for _ in 0..times {
        e = e.put_bytes(out, piece);
    }
    e
}

// Puts the payload that a case stands for, and answers its length.
fn put_payload(case: &[u8], payload: &mut [u8]) -> usize {
    let before = u32_at(case, 5) as usize;
    let width = u32_at(case, 9) as usize;
    let given = from_place(case, FRONT);
    let rest = from_place(given, before);
    let e = Encoder::new().put_bytes(payload, first(given, before));
    let e = put_run(e, payload, first(rest, width), u32_at(case, 13));
    let e = e.put_bytes(payload, from_place(rest, width));
    e.position
}

// Nothing is asked where the payload or the output is longer than there is room for.
fn answer(rt: &impl Print, case: &[u8], payload: &mut [u8], out: &mut [u8]) -> io::Result<()> {
    let length = put_payload(case, payload);
    match (
        payload.get(..length),
        out.get_mut(..u32_at(case, 1) as usize),
    ) {
        (Some(payload), Some(out)) => ask(rt, u8_at(case, 0), payload, out),
        _ => Ok(()),
    }
}

// Each program has a main of its own: what it lends to its cases, and what it asks.
fn main(rt: HostRuntime) -> io::Result<()> {
    let mut buffer = [0u8; 4_096];
    let mut case = [0u8; ROOM];
    let mut payload = [0u8; PAYLOAD_ROOM];
    let mut out = [0u8; OUT_ROOM];
    case_input::run_any(&rt, &mut rt.stdin(), &mut buffer, &mut case, |case| {
        answer(&rt, case, &mut payload, &mut out)
    })
}
