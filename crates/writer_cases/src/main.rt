//! Packet writers: a line of standard input is a call in hexadecimal, and the file stdout has the answers of model.py, which
//! was written from document 01.
//!
//! A case is which writer, the output's length and how many zero bytes follow the case's own (a byte, then 8 bytes each); then
//! the arguments, those of a fixed size first, and last the text, list or bytes, to which the zeros belong. The output has a
//! pattern before the call. After an answer comes what was written, and how many of the other bytes still have the pattern.
#![tactic(auto)]

ghost use Rattle.std.specs.Prelude.{◌<◌};

use case_lines::{Behind, Hex};
use hns_encoding::{array_at, first, from_place, u8_at, u16_at, u32_at, u64_at};
use hns_p2p_block_puts::{AddressFields, VersionFields};
use hns_refusals::Refusal;
use std::io::{self, Read};

// There is no heap: what is lent to a call stands in a local array, of the length that the cases need, with places in it as numbers.
const FRONT: usize = 17;

// Bytes of a case with its zeros, 50,001 inventory items and a rest at most; and of an output.
const ROOM: usize = 1_800_200;

// Indexes: more than may be written.
const NUMBERS: usize = 16_700;

// Bytes that are printed whole.
const WHOLE: usize = 400;

// A number in which each byte and its place count, for bytes that are too many to print. Its own: the file stdout has its values.
fn sum(bytes: &[u8]) -> u32 {
    bytes.iter().fold(0u32, |sum, byte| {
        sum.wrapping_mul(31).wrapping_add(u32::from(*byte))
    })
}

// In words of its own, which the file stdout has.
fn written(rt: &impl Print, bytes: &[u8]) -> io::Result<()> {
    let n = bytes.len();
    if n <= WHOLE {
        print!(rt; "written {n}{}", Behind(bytes))
    } else {
        let (front, last) = (Hex(first(bytes, 64)), Hex(from_place(bytes, n - 8)));
        print!(rt; "written {n} {front} .. {last} sum {}", sum(bytes))
    }
}

// How many bytes from a place on are as they were; what stood there goes by the place in the whole output. A sum without a branch, which
// the compiler takes many at a time; filter and count take twice as long.
fn kept(out: &[u8], from: usize) -> usize {
    let mut kept: usize = 0;
    for place in from..out.len() {
        kept = kept.wrapping_add(usize::from(out[place] == case_input::filler(place)));
    }
    kept
}

// Printed here, as what is shown of an answer is the output's.
fn show(rt: &impl Print, answer: Result<usize, Refusal>, out: &[u8]) -> io::Result<()> {
    match answer {
        Ok(n) => written(rt, first(out, n))?,
        Err(refusal) => print!(rt; "refused {refusal}")?,
    }
    print!(rt; " kept {}", kept(out, answer.unwrap_or(0)))
}

// The bytes from a place on, and zeros where they end early: a call may have less than its fields.
fn cut_at<const N: usize>(fields: &[u8], at: usize) -> [u8; N] {
    let mut bytes = [0; N];
    let there = from_place(fields, at);
    let n = there.len().min(bytes.len());
    bytes[..n].copy_from_slice(&there[..n]);
    bytes
}

// As in hns_p2p_list_puts, which takes an item whose length is known, and has it for itself.
fn remote(there: &[u8]) -> AddressFields {
    AddressFields {
        time: u64_at(there, 0),
        services: u64_at(there, 8),
        ip: cut_at(there, 16),
        port: u16_at(there, 32),
        key: cut_at(there, 34),
    }
}

fn version(fields: &[u8], out: &mut [u8]) -> Result<usize, Refusal> {
    let given = VersionFields {
        version: u32_at(fields, 0),
        services: u64_at(fields, 4),
        time: u64_at(fields, 12),
        remote: remote(from_place(fields, 20)),
        nonce: u64_at(fields, 87),
        height: u32_at(fields, 95),
        no_relay: u8_at(fields, 99) == 1,
    };
    hns_p2p_writer::write_version(given, from_place(fields, 100), out)
}

fn reject(fields: &[u8], out: &mut [u8]) -> Result<usize, Refusal> {
    let message = u8_at(fields, 0);
    let code = u8_at(fields, 1);
    let hash = (u8_at(fields, 2) == 1).then_some(array_at(fields, 3));
    hns_p2p_writer::write_reject(message, code, from_place(fields, 35), hash, out)
}

// The whole numbers of a width, as many as there is room for. A closure reads a number from a slice: the language has no bound of Fn
// over an array of so many bytes.
fn getblocktxn<F: Fn(&[u8]) -> u64>(
    fields: &[u8],
    width: usize,
    number_of: F,
    out: &mut [u8],
) -> Result<usize, Refusal>
    requires width { 0 < width }
    requires number { F.IsAlwaysCallable number_of }
{
    let mut numbers = [0u64; NUMBERS];
    let list = from_place(fields, 32);
    for (number, bytes) in numbers.iter_mut().zip(list.chunks_exact(width)) {
        *number = number_of(bytes);
    }
    // What is less than a number at the end is left out.
    let given = numbers.len().min(list.len() / width);
    hns_p2p_writer::write_getblocktxn(array_at(fields, 0), &numbers[..given], out)
}

// What is asked is the case's own byte, and each stands here once, beside the one call that it asks for: an enum would name each writer
// a second time.
fn write(asked: u8, fields: &[u8], out: &mut [u8]) -> Result<usize, Refusal> {
    let number = u64_at(fields, 0);
    match asked {
        0 => version(fields, out),
        1 => hns_p2p_writer::write_empty(out),
        2 => hns_p2p_writer::write_nonce(number, out),
        3 => hns_p2p_writer::write_addr(fields, out),
        4 => hns_p2p_writer::write_inventory(fields, out),
        5 => hns_p2p_writer::write_locator(from_place(fields, 32), array_at(fields, 0), out),
        6 => hns_p2p_writer::write_headers(fields, out),
        7 => reject(fields, out),
        8 => hns_p2p_writer::write_feefilter(number.cast_signed(), out),
        9 => hns_p2p_writer::write_sendcmpct(u8_at(fields, 0), u64_at(fields, 1), out),
        10 => getblocktxn(fields, 8, |bytes| u64_at(bytes, 0), out),
        11 => getblocktxn(fields, 2, |bytes| u64::from(u16_at(bytes, 0)), out),
        12 => hns_p2p_writer::write_getproof(array_at(fields, 0), array_at(fields, 32), out),
        _ => hns_p2p_writer::write_raw(fields, out),
    }
}

// Puts zeros behind the n bytes of a case, and answers how many bytes it has then: no case asks for more than there is room for.
fn lengthen(case: &mut [u8], n: usize, zeros: usize) -> usize {
    let end = n.saturating_add(zeros).min(case.len());
    if let Some(part) = case.get_mut(n..end) {
        part.fill(0);
    }
    end
}

// The call that a case with its zeros asks for, into the whole output.
fn call(rt: &impl Print, case: &[u8], out: &mut [u8]) -> io::Result<()> {
    case_input::fill(out);
    let answer = write(u8_at(case, 0), from_place(case, FRONT), out);
    show(rt, answer, out)
}

// A case of n bytes, whose buffer is lent whole: what a line is too short to say is what stands there. Nothing is asked if the output
// is longer than there is room for.
fn answer(rt: &impl Print, case: &mut [u8], n: usize, room: &mut [u8]) -> io::Result<()> {
    let size = u64_at(case, 1) as usize;
    let zeros = u64_at(case, 9) as usize;
    let end = lengthen(case, n, zeros);
    if room.len() < size {
        return Ok(());
    }
    call(rt, first(case, end), &mut room[..size])
}

// By cases one after the other, and not by a closure: it would be lent a case's own bytes alone.
fn run(
    rt: &impl Print,
    input: &mut impl Read,
    buffer: &mut [u8],
    case: &mut [u8],
    out: &mut [u8],
) -> io::Result<()> {
    let mut lines = case_input::first_case(input, buffer, case);
    while 0 < lines.left {
        answer(rt, case, lines.size, out)?;
        println!(rt)?;
        lines = case_input::next_case(lines, input, buffer, case);
    }
    Ok(())
}

// Each program has a main of its own: what it lends to its cases, and what it asks.
fn main(rt: HostRuntime) -> io::Result<()> {
    let mut buffer = [0u8; 65_536];
    let mut case = [0u8; ROOM];
    let mut out = [0u8; ROOM];
    run(
        &rt,
        &mut rt.stdin(),
        &mut buffer,
        case_input::whole(&mut case),
        case_input::whole(&mut out),
    )
}
