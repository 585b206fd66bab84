//! Surveys of small logs made here, by the survey program's steps and sizes: a line for each log, and its export below it;
//! of a long one, how long the export is and its last line. The file stdout has the lines that are right.
#![tactic(auto)]

use hns_encoder::Encoder;
use hns_p2p_frame::NetworkMagic;
use std::{io, iter};
use survey_export::Kept;

const CHUNK: usize = 4_096;

// The export of a log, by the survey program's steps, into `out`: its length. What a step works with is lent one by one, since its promise
// names each. A log of full chunks alone ends with an empty one.
fn export(
    log: &[u8],
    store: &mut [u8],
    output: &mut [u8],
    text: &mut [u8],
    out: &mut [u8],
) -> usize {
    let mut kept = Kept::default();
    let mut written = Encoder::new();
    for chunk in log.chunks(CHUNK).chain(iter::once(&log[..0])) {
        let step = survey_export::take_chunk(store, kept, chunk, output, text);
        written = written.put_bytes(out, hns_encoding::first(text, step.write));
        match step.next {
            Some(next) => kept = next,
            None => break,
        }
    }
    written.position
}

fn last_line(text: &[u8]) -> &[u8] {
    text.split_inclusive(|byte| *byte == b'\n')
        .last()
        .unwrap_or(text)
}

fn show(rt: &impl Print, text: &[u8]) -> io::Result<()> {
    if text.len() <= 200 {
        return rt.write_all(text);
    }
    print!(rt; "{} bytes, the last line ", text.len())?;
    rt.write_all(last_line(text))
}

// Arrays, since there is no heap: all that a survey works with, and its export.
fn survey(rt: &impl Print, name: &str, log: &[u8]) -> io::Result<()> {
    let mut store = [0xaau8; 24_576];
    let mut output = [0xaau8; 24_576];
    let mut text = [0u8; 65_536];
    let mut out = [0u8; 65_536];
    println!(rt; "{name}:")?;
    let n = export(log, &mut store, &mut output, &mut text, &mut out);
    show(rt, hns_encoding::first(&out, n))
}

// Logs that end within a frame. Here and below each log is a call with its name and bytes; a table of them would have the same lines.
fn begun(rt: &impl Print) -> io::Result<()> {
    survey(
        rt,
        "the example of document 01",
        b"\xd3\xf2\x6e\x5b\x01\x00\x00\x00\x00\xd3\xf2\x6e\x5b\x02\x08\x00\x00\x00\x01\x02\x03\x04\x05\x06\x07\x08\xd3\xf2",
    )?;
    survey(rt, "an empty log", b"")?;
    survey(rt, "1 byte of a header", b"\xd3")?;
    survey(rt, "2 bytes of a header", b"\xd3\xf2")?;
    survey(rt, "3 bytes of a header", b"\xd3\xf2\x6e")?;
    survey(rt, "4 bytes of a header", b"\xd3\xf2\x6e\x5b")?;
    survey(rt, "5 bytes of a header", b"\xd3\xf2\x6e\x5b\x02")?;
    survey(rt, "6 bytes of a header", b"\xd3\xf2\x6e\x5b\x02\x01")?;
    survey(rt, "7 bytes of a header", b"\xd3\xf2\x6e\x5b\x02\x01\x00")?;
    survey(
        rt,
        "8 bytes of a header",
        b"\xd3\xf2\x6e\x5b\x02\x01\x00\x00",
    )?;
    survey(rt, "a header", b"\xd3\xf2\x6e\x5b\x02\x01\x00\x00\x00")?;
    survey(
        rt,
        "a frame of one byte",
        b"\xd3\xf2\x6e\x5b\xff\x01\x00\x00\x00\x5a",
    )?;
    survey(
        rt,
        "8 bytes of another network",
        b"\xcf\x95\x38\xae\x01\x00\x00\x00",
    )
}

fn stopped(rt: &impl Print) -> io::Result<()> {
    survey(
        rt,
        "a header of regtest",
        b"\xcf\x95\x38\xae\x01\x00\x00\x00\x00",
    )?;
    survey(
        rt,
        "a payload of 8,000,001",
        b"\xd3\xf2\x6e\x5b\x01\x01\x12\x7a\x00",
    )?;
    survey(
        rt,
        "a payload of 8,000,000, begun",
        b"\xd3\xf2\x6e\x5b\x01\x00\x12\x7a\x00\x01",
    )?;
    survey(
        rt,
        "a good frame and a bad header",
        b"\xd3\xf2\x6e\x5b\x01\x00\x00\x00\x00\xd3\xf2\x6e\x5c\x01\x00\x00\x00\x00",
    )
}

// A frame with a payload of n bytes of 07, and then so many bytes of the next one's magic. Arrays again, for the longest.
fn long_frame(rt: &impl Print, name: &str, n: usize, after: usize) -> io::Result<()> {
    let payload = [7u8; 24_600];
    let mut log = [0u8; 24_640];
    let payload = hns_encoding::first(&payload, n);
    let size = hns_p2p_frame::encode(NetworkMagic::Mainnet, 2, payload, &mut log).unwrap_or(0);
    let magic = hns_encoding::first(b"\xd3\xf2\x6e\x5b", after);
    let e = Encoder { position: size }.put_bytes(&mut log, magic);
    survey(rt, name, hns_encoding::first(&log, e.position))
}

fn long_frames(rt: &impl Print) -> io::Result<()> {
    long_frame(
        rt,
        "a frame that ends a byte before a chunk's end",
        4_086,
        1,
    )?;
    long_frame(rt, "a frame that ends exactly at a chunk's end", 4_087, 0)?;
    long_frame(
        rt,
        "a frame that ends exactly at a chunk's end, and a byte",
        4_087,
        1,
    )?;
    long_frame(rt, "a frame that ends a byte after a chunk's end", 4_088, 0)?;
    long_frame(rt, "24,576 bytes exactly full", 24_567, 0)?;
    long_frame(rt, "24,576 bytes exactly full, and a byte", 24_567, 1)?;
    long_frame(rt, "a frame of 24,577 bytes", 24_568, 0)
}

fn main(rt: HostRuntime) -> io::Result<()> {
    begun(&rt)?;
    stopped(&rt)?;
    long_frames(&rt)
}
