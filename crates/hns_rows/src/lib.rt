//! Answers as rows of six numbers, for callers in C and Rust. Rows are arrays of numbers, as the C interface has them.
//! Each is one match: a closure for the row of a value would be no shorter. No From: it could not stand here, since both types are another crate's (an array of numbers is the language's).
#![tactic(auto)]

ghost use Rattle.std.specs.Prelude.{◌≡◌, ◌≤◌, length};
ghost use Rattle.hns_rows.specs.Rows.{answered, network_of, refused_row, NumberRow, sizes_row, slice_row, checked_row, count_row, header_row, prefix_row, exact_row, pushed_row, delivered_row};

use hns_encoding::{Sizes, Slice};
use hns_header_consensus::Header;
use hns_p2p_frame::{Delivered, Frames, NetworkMagic, Prefix, Pushed};
use hns_refusals::Refusal;

// As many numbers of a row as the caller has room for. Apart, so that a row goes to memory twice only where it does not fit.
#[cold]
#[inline(never)]
#[tactic(auto, unfolding(crate::specs::Rows::answered, hns_encoding::specs::Put::splice))]
fn put_cut<const N: usize>(answer: &mut [u64], values: [u64; N])
    requires { length answer.old ≤ N }
    ensures { answer.new ≡ answered answer.old values.entry }
{
    let room = answer.len();
    answer.copy_from_slice(&values[..room]);
}

// A row into the caller's numbers: as many as fit. A whole row is copied by a known number, which the compiler writes out.
#[tactic(auto, unfolding(crate::specs::Rows::answered, hns_encoding::specs::Put::splice))]
pub fn put_row<const N: usize>(answer: &mut [u64], values: [u64; N])
    ensures { answer.new ≡ answered answer.old values.entry }
{
    if answer.len() < N {
        return put_cut(answer, values);
    }
    answer[..N].copy_from_slice(&values);
}

fn of_refusal(refusal: Refusal, held: usize) -> [u64; 6]
    ensures { result ≡ refused_row refusal held }
{
    let [a, b, c] = refusal.values();
    [refusal.number(), a, b, c, held as u64, 0]
}

// The value of a read and the place after it.
pub fn of_number<T: Into<u64>>(number: Result<(T, usize), Refusal>) -> [u64; 6]
    ensures { NumberRow T.converts number result }
{
    match number {
        Ok((value, next)) => [0, value.into(), next as u64, 0, 0, 0],
        Err(refusal) => of_refusal(refusal, 0),
    }
}

pub fn of_sizes(sizes: Sizes) -> [u64; 6]
    ensures { result ≡ sizes_row sizes }
{
    [0, sizes.count as u64, sizes.next as u64, 0, 0, 0]
}

pub fn of_slice(slice: Result<Slice, Refusal>) -> [u64; 6]
    ensures { result ≡ slice_row slice }
{
    match slice {
        Ok(bytes) => [0, bytes.start as u64, bytes.end as u64, 0, 0, 0],
        Err(refusal) => of_refusal(refusal, 0),
    }
}

pub fn of_checked(checked: Result<(), Refusal>) -> [u64; 6]
    ensures { result ≡ checked_row checked }
{
    match checked {
        Ok(()) => [0; 6],
        Err(refusal) => of_refusal(refusal, 0),
    }
}

// A length, or how many there are.
pub fn of_count(count: Result<usize, Refusal>) -> [u64; 6]
    ensures { result ≡ count_row count }
{
    match count {
        Ok(count) => [0, count as u64, 0, 0, 0, 0],
        Err(refusal) => of_refusal(refusal, 0),
    }
}

// A header's four numbers and the place after it.
pub fn of_header(header: Result<(Header, usize), Refusal>) -> [u64; 6]
    ensures { result ≡ header_row header }
{
    match header {
        Ok((header, next)) => [
            0,
            next as u64,
            u64::from(header.nonce),
            header.time,
            u64::from(header.version),
            u64::from(header.bits),
        ],
        Err(refusal) => of_refusal(refusal, 0),
    }
}

pub fn of_prefix(prefix: Result<Option<Prefix>, Refusal>) -> [u64; 6]
    ensures { result ≡ prefix_row prefix }
{
    match prefix {
        Ok(None) => [0; 6],
        Ok(Some(frame)) => [
            0,
            1,
            u64::from(frame.packet_type),
            frame.length as u64,
            frame.taken as u64,
            0,
        ],
        Err(refusal) => of_refusal(refusal, 0),
    }
}

pub fn of_exact(exact: Result<Prefix, Refusal>) -> [u64; 6]
    ensures { result ≡ exact_row exact }
{
    match exact {
        Ok(frame) => {
            let packet_type = u64::from(frame.packet_type);
            let length = frame.length as u64;
            [0, packet_type, length, 0, 0, 0]
        }
        Err(refusal) => of_refusal(refusal, 0),
    }
}

pub fn of_pushed(pushed: Pushed) -> [u64; 6]
    ensures { result ≡ pushed_row pushed }
{
    let Pushed { delivered, held } = pushed;
    match delivered {
        Ok(Frames { frames, bytes }) => [0, frames as u64, bytes as u64, held as u64, 0, 0],
        Err(refusal) => of_refusal(refusal, held),
    }
}

pub fn of_delivered(delivered: Delivered) -> [u64; 6]
    ensures { result ≡ delivered_row delivered }
{
    let Delivered {
        frames,
        bytes,
        held,
        verdict,
    } = delivered;
    let [number, a, b] = match verdict {
        Ok(()) => [0; 3],
        Err(refusal) => {
            let [a, b, _] = refusal.values();
            [refusal.number(), a, b]
        }
    };
    [number, frames as u64, bytes as u64, held as u64, a, b]
}

// The numbers of networks are the C interface's.
pub fn network_of(network: u8) -> NetworkMagic
    ensures { result ≡ network_of network }
{
    match network {
        0 => NetworkMagic::Mainnet,
        1 => NetworkMagic::Testnet,
        2 => NetworkMagic::Regtest,
        _ => NetworkMagic::Simnet,
    }
}
