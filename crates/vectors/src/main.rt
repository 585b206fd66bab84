//! Document 01's examples of the refusals and compact sizes of hns_encoding and hns_header_consensus, and the genesis
//! headers, a line a case: what was asked and what was answered. The file stdout has the lines that are right.
#![tactic(auto)]

use case_lines::{Answered, Hex};
use genesis_headers::{NETWORKS, genesis_header};
use hns_encoder::Encoder;
use hns_encoding::Slice;
use hns_header_consensus::Header;
use hns_refusals::Refusal;
use std::fmt::{self, Display};
use std::io;

// Local arrays are what is lent, here and below: there is no heap.

// A value and the place after it.
#[derive(Debug, PartialEq, Eq, Drop)]
struct Next<T>((T, usize));

impl<T: Display> Display for Next<T> {
    fn fmt<W: fmt::Write>(&self, f: &mut fmt::Formatter<W>) -> fmt::Result {
        let (value, next) = &self.0;
        write!(f, "{value} next {next}")
    }
}

// The four that print an answer differ in what shows it, which each names once for all of its calls.
fn number<T: Display + Drop>(
    rt: &impl Print,
    name: &str,
    answer: Result<(T, usize), Refusal>,
) -> io::Result<()> {
    println!(rt; "{name}: {}", Answered(answer.map(Next)))
}

// Where a part stands.
#[derive(Clone, Copy, Debug, PartialEq, Eq)]
struct Part(Slice);

impl Display for Part {
    fn fmt<W: fmt::Write>(&self, f: &mut fmt::Formatter<W>) -> fmt::Result {
        write!(f, "from {} next {}", self.0.start, self.0.end)
    }
}

fn slice(rt: &impl Print, name: &str, answer: Result<Slice, Refusal>) -> io::Result<()> {
    println!(rt; "{name}: {}", Answered(answer.map(Part)))
}

fn finished(rt: &impl Print, name: &str, answer: Result<(), Refusal>) -> io::Result<()> {
    println!(rt; "{name}: {}", Answered(answer.map(|()| "done")))
}

// The output after a put, and where the next one begins.
fn put(rt: &impl Print, name: &str, out: &[u8], e: Encoder) -> io::Result<()> {
    println!(rt; "{name}: {} next {}", Hex(out), e.position)
}

fn numbers(rt: &impl Print) -> io::Result<()> {
    number(rt, "u8 of 7f", hns_encoding::read_u8(b"\x7f", 0))?;
    number(rt, "u16 of 0102", hns_encoding::read_u16_le(b"\x01\x02", 0))?;
    number(
        rt,
        "u32 of 01020304",
        hns_encoding::read_u32_le(b"\x01\x02\x03\x04", 0),
    )?;
    number(
        rt,
        "u64 of 0102030405060708",
        hns_encoding::read_u64_le(b"\x01\x02\x03\x04\x05\x06\x07\x08", 0),
    )?;
    number(
        rt,
        "u64 of ffffffffffffffff",
        hns_encoding::read_u64_le(b"\xff\xff\xff\xff\xff\xff\xff\xff", 0),
    )?;
    number(rt, "u64 of 00", hns_encoding::read_u64_le(b"\x00", 0))?;
    number(
        rt,
        "u32 of 000102 at 1",
        hns_encoding::read_u32_le(b"\x00\x01\x02", 1),
    )?;
    number(rt, "u16 of 00 at 1", hns_encoding::read_u16_le(b"\x00", 1))?;
    number(rt, "u8 of 00 at 9", hns_encoding::read_u8(b"\x00", 9))?;
    number(
        rt,
        "u64 of 00 at 2^64 - 1",
        hns_encoding::read_u64_le(b"\x00", 18_446_744_073_709_551_615),
    )
}

fn compact(rt: &impl Print, name: &str, bytes: &[u8]) -> io::Result<()> {
    print!(rt; "compact ")?;
    number(rt, name, hns_encoding::read_compact_size(bytes, 0))
}

fn compact_sizes(rt: &impl Print) -> io::Result<()> {
    compact(rt, "fc", b"\xfc")?;
    compact(rt, "fdfd00", b"\xfd\xfd\x00")?;
    compact(rt, "fdfc00", b"\xfd\xfc\x00")?;
    compact(rt, "fd0a00", b"\xfd\x0a\x00")?;
    compact(rt, "fe00000100", b"\xfe\x00\x00\x01\x00")?;
    compact(rt, "feffff0000", b"\xfe\xff\xff\x00\x00")?;
    compact(
        rt,
        "ff0000000001000000",
        b"\xff\x00\x00\x00\x00\x01\x00\x00\x00",
    )?;
    compact(
        rt,
        "ffffffffff00000000",
        b"\xff\xff\xff\xff\xff\x00\x00\x00\x00",
    )?;
    compact(rt, "of nothing", b"")?;
    compact(rt, "fd00", b"\xfd\x00")?;
    number(
        rt,
        "compact 00ff at 1",
        hns_encoding::read_compact_size(b"\x00\xff", 1),
    )
}

fn slices(rt: &impl Print) -> io::Result<()> {
    number(
        rt,
        "compact fde903 up to 1000",
        hns_encoding::read_compact_usize(b"\xfd\xe9\x03", 0, 1_000),
    )?;
    number(
        rt,
        "compact fde803 up to 1000",
        hns_encoding::read_compact_usize(b"\xfd\xe8\x03", 0, 1_000),
    )?;
    slice(
        rt,
        "2 bytes of 010203 at 1",
        hns_encoding::read_slice(b"\x01\x02\x03", 1, 2),
    )?;
    slice(
        rt,
        "3 bytes of 010203 at 1",
        hns_encoding::read_slice(b"\x01\x02\x03", 1, 3),
    )?;
    slice(
        rt,
        "no bytes of 01 at 5",
        hns_encoding::read_slice(b"\x01", 5, 0),
    )?;
    slice(
        rt,
        "2^64 - 1 bytes of 01 at 1",
        hns_encoding::read_slice(b"\x01", 1, 18_446_744_073_709_551_615),
    )
}

fn bounded(rt: &impl Print) -> io::Result<()> {
    slice(
        rt,
        "3 bytes of 010203 up to 2",
        hns_encoding::read_bounded(b"\x01\x02\x03", 0, 3, 2),
    )?;
    slice(
        rt,
        "2 bytes of 01 up to 2",
        hns_encoding::read_bounded(b"\x01", 0, 2, 2),
    )?;
    slice(
        rt,
        "varbytes 020a0b0c",
        hns_encoding::read_varbytes(b"\x02\x0a\x0b\x0c", 0, 2),
    )?;
    slice(
        rt,
        "varbytes 030a0b0c up to 2",
        hns_encoding::read_varbytes(b"\x03\x0a\x0b\x0c", 0, 2),
    )?;
    slice(
        rt,
        "varbytes 030a",
        hns_encoding::read_varbytes(b"\x03\x0a", 0, 9),
    )
}

fn finishes(rt: &impl Print) -> io::Result<()> {
    finished(rt, "finish 00 at 0", hns_encoding::finish(b"\x00", 0))?;
    finished(rt, "finish 00 at 1", hns_encoding::finish(b"\x00", 1))?;
    finished(rt, "finish 00 at 2", hns_encoding::finish(b"\x00", 2))
}

fn puts(rt: &impl Print) -> io::Result<()> {
    let mut out = [0xaau8; 4];
    let e = Encoder::new().put_u8(&mut out, 1);
    put(rt, "put u8 1", &out, e)?;
    let e = e.put_u16_le(&mut out, 0x0302);
    put(rt, "put u16 0302", &out, e)?;
    let e = e.put_u32_le(&mut out, 0x0706_0504);
    put(rt, "put u32 07060504 with room for one byte", &out, e)?;
    let e = e.put_u64_le(&mut out, 0x1122_3344_5566_7788);
    put(rt, "put u64 past the end", &out, e)?;
    let mut eight = [0xaau8; 9];
    let e = Encoder::new().put_u64_le(&mut eight, 0x1122_3344_5566_7788);
    put(rt, "put u64 1122334455667788", &eight, e)?;
    let mut five = [0xaau8; 5];
    let e = Encoder::new().put_bytes(&mut five, b"\x01\x02\x03");
    put(rt, "put bytes 010203", &five, e)?;
    let e = Encoder { position: 3 }.put_bytes(&mut five, b"\x0a\x0b\x0c");
    put(rt, "put bytes 0a0b0c at 3 of 5", &five, e)?;
    let e = Encoder {
        position: 18_446_744_073_709_551_614,
    }
    .put_bytes(&mut five, b"\x01\x02\x03");
    put(rt, "put bytes at 2^64 - 2", &five, e)
}

fn put_compact(rt: &impl Print, name: &str, v: u64) -> io::Result<()> {
    let mut out = [0xaau8; 9];
    let e = Encoder::new().put_compact_size(&mut out, v);
    put(rt, name, &out, e)
}

fn put_compacts(rt: &impl Print) -> io::Result<()> {
    put_compact(rt, "put compact 0", 0)?;
    put_compact(rt, "put compact 252", 252)?;
    put_compact(rt, "put compact 253", 253)?;
    put_compact(rt, "put compact 65535", 65_535)?;
    put_compact(rt, "put compact 65536", 65_536)?;
    put_compact(rt, "put compact 2^32 - 1", 4_294_967_295)?;
    put_compact(rt, "put compact 2^32", 4_294_967_296)?;
    put_compact(rt, "put compact 2^64 - 1", 18_446_744_073_709_551_615)?;
    let mut out = [0xaau8; 5];
    let e = Encoder::new().put_varbytes(&mut out, b"\x01\x02\x03");
    put(rt, "put varbytes 010203", &out, e)
}

// A header that was read, and the place after it.
#[derive(Clone, Copy, Debug, PartialEq, Eq)]
struct Read((Header, usize));

impl Display for Read {
    fn fmt<W: fmt::Write>(&self, f: &mut fmt::Formatter<W>) -> fmt::Result {
        let (h, next) = self.0;
        write!(f, "next {next} nonce {} time {}", h.nonce, h.time)?;
        write!(f, " version {} bits {}", h.version, h.bits)?;
        write!(f, " witness {}", Hex(&h.witness_root))?;
        write!(f, " merkle {}", Hex(&h.merkle_root))
    }
}

fn decoded(
    rt: &impl Print,
    name: &str,
    answer: Result<(Header, usize), Refusal>,
) -> io::Result<()> {
    println!(rt; "{name}: {}", Answered(answer.map(Read)))
}

// All of the bytes as a header.
fn alone(rt: &impl Print, name: &str, bytes: &[u8]) -> io::Result<()> {
    decoded(rt, name, Header::decode(bytes).map(|h| (h, bytes.len())))
}

// Each byte is its own place, so that a field that is read or written out of order shows.
fn count_up(out: &mut [u8]) {
    for (i, byte) in out.iter_mut().enumerate() {
        *byte = (i % 256) as u8;
    }
}

fn headers_at_places(rt: &impl Print, bytes: &[u8]) -> io::Result<()> {
    let first = hns_header_consensus::read_header(bytes, 4);
    decoded(rt, "header at 4 of 00 to ef", first)?;
    if let Ok((header, _)) = first {
        println!(rt;
            "header at 4 of 00 to ef, encoded: {}",
            Hex(&header.encode())
        )?;
    }
    decoded(
        rt,
        "header at 5 of 00 to ef",
        hns_header_consensus::read_header(bytes, 5),
    )?;
    decoded(
        rt,
        "header past the end",
        hns_header_consensus::read_header(bytes, 300),
    )
}

fn headers(rt: &impl Print) -> io::Result<()> {
    let mut bytes = [0u8; 240];
    count_up(&mut bytes);
    headers_at_places(rt, &bytes)?;
    alone(rt, "240 bytes", &bytes)?;
    alone(rt, "235 bytes", hns_encoding::first(&bytes, 235))
}

fn main(rt: HostRuntime) -> io::Result<()> {
    numbers(&rt)?;
    compact_sizes(&rt)?;
    slices(&rt)?;
    bounded(&rt)?;
    finishes(&rt)?;
    puts(&rt)?;
    put_compacts(&rt)?;
    for (name, network) in NETWORKS {
        let header = genesis_header(network);
        println!(rt; "{name}: {}", Hex(&header.encode()))?;
        alone(&rt, name, &header.encode())?;
    }
    headers(&rt)
}
