//! Document 01's example of each refusal, its worked bytes and slips, BIP 152's example, and the genesis headers as a packet:
//! a line an example, in words and then what the call answered. The file stdout has the lines that are right; model.py has
//! them from the papers.
//!
//! 6 is left out: its example lends 16,000,011 bytes, and a program has no memory but its stack of 8 MB (docs/DECISIONS.md, 31).
//! 5 by reading and writing takes 8,000,001 of them.
#![tactic(auto)]

use case_lines::{Answered, Hex, Numbers};
use genesis_headers::{NETWORKS, genesis_header};
use hns_encoder::Encoder;
use hns_encoding::first;
use hns_header_consensus::Header;
use hns_p2p_block_puts::VersionFields;
use hns_p2p_frame::{Frames, NetworkMagic, Pushed};
use hns_p2p_types::{Item, Packet};
use hns_refusals::Refusal;
use std::fmt::{self, Display};
use std::io;

// There is no heap: what is lent to a call stands in a local array, of the length that the cases need, with places in it as numbers.

// One byte more than a payload may have.
const LONG: usize = 8_000_001;

// What an example's line says of an answer.
#[derive(Clone, Copy, Debug, PartialEq, Eq)]
struct Shown<T>(T);

// What an example is about: the flag of a version, a fee, else whether the payload reads.
impl Display for Shown<Packet> {
    fn fmt<W: fmt::Write>(&self, f: &mut fmt::Formatter<W>) -> fmt::Result {
        match self.0 {
            Packet::Version(packet) => write!(f, "{}", packet.no_relay),
            Packet::FeeFilter(rate) => write!(f, "{rate}"),
            _ => write!(f, "reads"),
        }
    }
}

impl Display for Shown<Item> {
    fn fmt<W: fmt::Write>(&self, f: &mut fmt::Formatter<W>) -> fmt::Result {
        match self.0 {
            Item::Inventory { hash, .. } => write!(f, "hash at {hash}"),
            _ => write!(f, "another item"),
        }
    }
}

// Types by number, here and below, as the examples' words have them.
fn read(rt: &impl Print, name: &str, packet_type: u8, payload: &[u8]) -> io::Result<()> {
    let mut agent = [0u8; 255];
    let answer = hns_p2p_packet::read_packet(&[], packet_type, payload, &mut agent);
    println!(rt; "{name} {}", Answered(answer.map(Shown)))
}

fn prefix(rt: &impl Print, name: &str, input: &[u8]) -> io::Result<()> {
    let answer = hns_p2p_frame::decode_frame_prefix(NetworkMagic::Mainnet, input);
    let shown = answer.map(|frame| if frame.is_some() {
        "a frame"
    } else {
        "not yet"
    });
    println!(rt; "{name} {}", Answered(shown))
}

// What a writer stored in an output that it is lent, or why it stored nothing. The language asks of a lent closure that it can be called.
fn wrote<F: FnOnce(&mut [u8]) -> Result<usize, Refusal>>(
    rt: &impl Print,
    name: &str,
    out: &mut [u8],
    write: F,
) -> io::Result<()>
    requires { F.IsAlwaysCallable write }
{
    let answer = write(out);
    println!(rt; "{name} {}", Answered(answer.map(|n| Hex(first(out, n)))))
}

// What a push to mainnet answers, and the output after it. It is lent one by one what the push takes, and prints it here, since no
// other answer comes with a held count.
fn push(
    rt: &impl Print,
    name: &str,
    store: &mut [u8],
    held: usize,
    input: &[u8],
    output: &mut [u8],
) -> io::Result<()> {
    print!(rt; "{name} ")?;
    let Pushed { delivered, held } = hns_p2p_frame::push(
        NetworkMagic::Mainnet,
        store,
        held,
        input,
        output,
    );
    match delivered {
        Ok(Frames { frames, bytes }) => print!(rt; "frames {frames} bytes {bytes} held {held}")?,
        Err(refusal) => print!(rt; "refused {refusal} held {held}")?,
    }
    println!(rt; " output {}", Hex(output))
}

fn refusals_1_to_3(rt: &impl Print) -> io::Result<()> {
    read(rt, "1, type 2 of 00:", 2, b"\x00")?;
    read(rt, "2, type 6 of fd0a00:", 6, b"\xfd\x0a\x00")?;
    read(rt, "3, type 1 of 00:", 1, b"\x00")
}

// The magic is not looked at before 9 bytes are there. An example is a call, here and below: each has its own words and bytes.
fn refusals_4_and_5(rt: &impl Print) -> io::Result<()> {
    prefix(
        rt,
        "4, mainnet reads a regtest header:",
        b"\xcf\x95\x38\xae\x01\x00\x00\x00\x00",
    )?;
    prefix(
        rt,
        "mainnet reads 8 bytes of a regtest header:",
        b"\xcf\x95\x38\xae\x01\x00\x00\x00",
    )?;
    prefix(
        rt,
        "5, a header of length 8,000,001:",
        b"\xd3\xf2\x6e\x5b\x00\x01\x12\x7a\x00",
    )?;
    prefix(
        rt,
        "a header of length 8,000,000:",
        b"\xd3\xf2\x6e\x5b\x00\x00\x12\x7a\x00",
    )
}

fn long_payloads(rt: &impl Print, bytes: &[u8]) -> io::Result<()> {
    let most = first(bytes, 8_000_000);
    read(rt, "5, type 13 of 8,000,001 bytes:", 13, bytes)?;
    read(rt, "type 13 of 8,000,000 bytes:", 13, most)?;
    wrote(
        rt,
        "5, 8,000,001 raw bytes written into none:",
        &mut [],
        |out| { hns_p2p_writer::write_raw(bytes, out) },
    )?;
    wrote(
        rt,
        "16, 8,000,000 raw bytes written into none:",
        &mut [],
        |out| { hns_p2p_writer::write_raw(most, out) },
    )
}

fn long(rt: &impl Print) -> io::Result<()> {
    let bytes = [0u8; LONG];
    long_payloads(rt, &bytes)
}

// The count's limit is tested before the items, which are not there.
fn refusals_7_to_9(rt: &impl Print) -> io::Result<()> {
    read(rt, "7, type 5 of fde903:", 5, b"\xfd\xe9\x03")?;
    let frame = b"\xd3\xf2\x6e\x5b";
    let answer = hns_p2p_frame::decode_exact(NetworkMagic::Mainnet, frame);
    println!(rt;
        "8, 4 bytes as one frame: {}",
        Answered(answer.map(|_| "a frame"))
    )?;
    let mut request = [0u8; 37];
    Encoder { position: 32 }.put_bytes(&mut request, b"\x02\xfd\xff\xff\x00");
    read(rt, "9, type 24, differences 65,535 and 0:", 24, &request)
}

fn refusals_10_and_11(rt: &impl Print) -> io::Result<()> {
    wrote(rt, "10, agent 80:", &mut [0xaa; 200], |out| {
        hns_p2p_writer::write_version(VersionFields::default(), b"\x80", out)
    })?;
    wrote(
        rt,
        "11, a reject of type 14 with no hash:",
        &mut [0xaa; 200],
        |out| hns_p2p_writer::write_reject(14, 0, b"", None, out),
    )
}

// Behind a block hash of zeros.
fn request(rt: &impl Print, name: &str, indexes: &[u64]) -> io::Result<()> {
    wrote(
        rt,
        name,
        &mut [0xaa; 50],
        |out| hns_p2p_writer::write_getblocktxn([0; 32], indexes, out),
    )
}

fn refusals_12_to_14(rt: &impl Print) -> io::Result<()> {
    let zeros = [0u64; 16_663];
    request(rt, "12, 16,663 zeros as indexes:", &zeros)?;
    request(rt, "13, index 65,536:", &[65_536])?;
    request(rt, "14, indexes 3, 3:", &[3, 3])
}

fn refusals_15_and_16(rt: &impl Print) -> io::Result<()> {
    let short = [0u8; 235];
    let answer = Header::decode(&short).map(|_| "a header");
    println!(rt; "15, a header of 235 bytes: {}", Answered(answer))?;
    wrote(
        rt,
        "16, a ping into 7 bytes:",
        &mut [0xaa; 7],
        |out| hns_p2p_writer::write_nonce(0, out),
    )
}

fn refusals_17_and_18(rt: &impl Print) -> io::Result<()> {
    let mut store = [0u8; 16];
    let mut small = [0u8; 4];
    let mut output = [0xaau8; 3];
    push(
        rt,
        "17, store 16, held 10, input 7:",
        &mut store,
        10,
        b"\x00\x00\x00\x00\x00\x00\x00",
        &mut output,
    )?;
    push(rt, "18, store 4, held 5:", &mut small, 5, b"", &mut output)
}

fn refusal_19(rt: &impl Print) -> io::Result<()> {
    let mut two = [0u8; 73];
    two[0] = 2;
    let past = hns_p2p_items::item(&[], 6, &two, 2);
    println!(rt; "19, type 6, item 2 of 2: {}", Answered(past.map(Shown)))?;
    let last = hns_p2p_items::item(&[], 6, &two, 1);
    println!(rt; "type 6, item 1 of 2: {}", Answered(last.map(Shown)))
}

// The log of document 01; and a good frame, which is not delivered when a later header is bad.
fn pushes(rt: &impl Print) -> io::Result<()> {
    let mut store = [0u8; 28];
    let mut output = [0xaau8; 28];
    push(
        rt,
        "a verack, then a regtest header, pushed:",
        &mut store,
        0,
        b"\xd3\xf2\x6e\x5b\x01\x00\x00\x00\x00\xcf\x95\x38\xae\x01\x00\x00\x00\x00",
        &mut output,
    )?;
    push(
        rt,
        "the example of a log, pushed:",
        &mut store,
        0,
        b"\xd3\xf2\x6e\x5b\x01\x00\x00\x00\x00\xd3\xf2\x6e\x5b\x02\x08\x00\x00\x00\x01\x02\x03\x04\x05\x06\x07\x08\xd3\xf2",
        &mut output,
    )
}

// Three indexes.
fn indexes(rt: &impl Print, name: &str, payload: &[u8]) -> io::Result<()> {
    let mut out = [0u64; 3];
    let answer = hns_p2p_indexes::indexes(&[], payload, &mut out);
    println!(rt; "{name}{}", Answered(answer.map(|_| Numbers(&out))))
}

fn differences(rt: &impl Print, name: &str, bytes: &[u8]) -> io::Result<()> {
    let mut payload = [0u8; 36];
    Encoder { position: 32 }.put_bytes(&mut payload, bytes);
    indexes(rt, name, &payload)
}

fn worked_indexes(rt: &impl Print) -> io::Result<()> {
    request(rt, "indexes 3, 4, 9 written:", &[3, 4, 9])?;
    differences(rt, "differences 3, 0, 4 read:", b"\x03\x03\x00\x04")?;
    request(rt, "BIP 152, indexes 0, 1, 2 written:", &[0, 1, 2])?;
    differences(
        rt,
        "BIP 152, differences 0, 0, 0 read:",
        b"\x03\x00\x00\x00",
    )
}

fn worked_fees(rt: &impl Print) -> io::Result<()> {
    wrote(
        rt,
        "fee -1 written:",
        &mut [0xaa; 8],
        |out| hns_p2p_writer::write_feefilter(-1, out),
    )?;
    wrote(rt, "fee -2^63 written:", &mut [0xaa; 8], |out| {
        hns_p2p_writer::write_feefilter(-9_223_372_036_854_775_808, out)
    })?;
    read(
        rt,
        "fee ffffffffffffffff read:",
        21,
        b"\xff\xff\xff\xff\xff\xff\xff\xff",
    )?;
    read(
        rt,
        "fee 0000000000000080 read:",
        21,
        b"\x00\x00\x00\x00\x00\x00\x00\x80",
    )
}

// A version of zeros but for its last byte.
fn relay(rt: &impl Print, name: &str, byte: u8) -> io::Result<()> {
    let mut payload = [0u8; 122];
    payload[121] = byte;
    read(rt, name, 0, &payload)
}

fn worked_relay(rt: &impl Print) -> io::Result<()> {
    relay(rt, "no-relay 00 read:", 0)?;
    relay(rt, "no-relay 01 read:", 1)?;
    relay(rt, "no-relay 02 read:", 2)
}

// A header of the packet, by its place in the list: its bytes as they read, and are encoded again.
fn header(rt: &impl Print, name: &str, payload: &[u8], place: usize) -> io::Result<()> {
    print!(rt; "{name}'s genesis header read:")?;
    if let Ok(Item::Header(at)) = hns_p2p_items::item(&[], 11, payload, place) {
        if let Ok((header, _)) = hns_header_consensus::read_header(payload, at) {
            print!(rt; " at {at} {}", Hex(&header.encode()))?;
        }
    }
    println!(rt)
}

fn genesis_packet(rt: &impl Print, headers: &[u8]) -> io::Result<()> {
    let mut payload = [0xaau8; 945];
    let answer = hns_p2p_writer::write_headers(headers, &mut payload);
    let shown = answer.map(|n| Hex(first(&payload, n)));
    println!(rt; "genesis headers written: {}", Answered(shown))?;
    for (place, (name, _)) in NETWORKS.into_iter().enumerate() {
        header(rt, name, &payload, place)?;
    }
    Ok(())
}

fn genesis(rt: &impl Print) -> io::Result<()> {
    let mut headers = [0u8; 944];
    let mut e = Encoder::new();
    for (_, network) in NETWORKS {
        e = genesis_header(network).encode_to(e, &mut headers);
    }
    genesis_packet(rt, &headers)
}

fn main(rt: HostRuntime) -> io::Result<()> {
    refusals_1_to_3(&rt)?;
    refusals_4_and_5(&rt)?;
    long(&rt)?;
    refusals_7_to_9(&rt)?;
    refusals_10_and_11(&rt)?;
    refusals_12_to_14(&rt)?;
    refusals_15_and_16(&rt)?;
    refusals_17_and_18(&rt)?;
    refusal_19(&rt)?;
    pushes(&rt)?;
    worked_indexes(&rt)?;
    worked_fees(&rt)?;
    worked_relay(&rt)?;
    genesis(&rt)
}
