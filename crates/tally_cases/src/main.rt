//! Pushes that keep a tally: a line of standard input is a case in hexadecimal, and the file stdout has the answers of
//! model.py, which was written from documents 01 and 02.
//!
//! A case is the store's length (four bytes), how many numbers of the tally are not zero at the start (two), the place (two)
//! and the value (eight) of each, and pushes up to the line's end. A push is the network, with 4 added if a held count is
//! given (one), that count (eight), the lengths of the tally (two) and of the output (four), how many bytes of input follow
//! (two), how many zeros are the input if none do (four), and these bytes. So a short line has a long frame.
#![tactic(auto)]

use case_lines::Shown;
use hns_encoding::{first, from_place, u8_at, u16_at, u32_at, u64_at};
use hns_p2p_frame::{Delivered, NetworkMagic};
use std::io;

// There is no heap: what is lent to a call stands in a local array, of the length that the cases need, with places in it as numbers.

// What stands before the numbers of the tally, each of these, and what stands before a push's bytes.
const FRONT: usize = 6;

const PAIR: usize = 10;

const PUSH_FRONT: usize = 21;

// Bytes of a case.
const ROOM: usize = 20_000;

// Bytes of a store, an input or an output: a payload's length then takes three of its four bytes, as the longest does.
const LONG_ROOM: usize = 210_000;

// A tally, and some numbers behind it, which no push may change.
const TALLY_ROOM: usize = 520;

// A push as a case has it: a held count, or that which the push before answered, and how much of the tally and of the output is lent.
#[derive(Clone, Copy, Debug, PartialEq, Eq)]
struct Asked<'a> {
    network: NetworkMagic,
    held: Option<usize>,
    numbers: usize,
    out: usize,
    input: &'a [u8],
}

fn read_push<'a>(push: &'a [u8], zeros: &'a [u8]) -> Asked<'a> {
    let head = u8_at(push, 0);
    let given = u64_at(push, 1) as usize;
    let count = usize::from(u16_at(push, 15));
    let input = if count == 0 {
        first(zeros, u32_at(push, 17) as usize)
    } else {
        first(from_place(push, PUSH_FRONT), count)
    };
    Asked {
        network: hns_rows::network_of(head % 4),
        held: (4 <= head).then_some(given),
        numbers: usize::from(u16_at(push, 9)),
        out: u32_at(push, 11) as usize,
        input,
    }
}

fn set_numbers(case: &[u8], count: u16, tally: &mut [u64]) {
    for i in 0..usize::from(count) {
        let pair = from_place(case, FRONT + PAIR * i);
        if let Some(number) = tally.get_mut(usize::from(u16_at(pair, 0))) {
            *number = u64_at(pair, 2);
        }
    }
}

// The numbers of a tally that are not zero, each behind its place.
fn show_numbers(rt: &impl Print, tally: &[u64]) -> io::Result<()> {
    print!(rt; " tally")?;
    for (place, n) in tally.iter().enumerate() {
        if *n != 0 {
            print!(rt; " {place} {n}")?;
        }
    }
    Ok(())
}

fn show_totals(rt: &impl Print, tally: &[u64]) -> io::Result<()> {
    if let Some([frames, bytes]) = tally.get(512..514) {
        print!(rt; " totals {frames} {bytes}")?;
    }
    print!(rt; " ")
}

// Answers the held count, with the words of this program, which shows an answer once: a type with Display would be made for it.
fn show_answer(rt: &impl Print, answer: Delivered) -> io::Result<usize> {
    let Delivered {
        frames,
        bytes,
        held,
        verdict,
    } = answer;
    match verdict {
        Ok(()) => print!(rt; "taken {frames} {bytes} {held}")?,
        Err(refusal) => print!(rt; "refused {refusal} {frames} {bytes} {held}")?,
    }
    Ok(held)
}

// What is lent to the pushes of a case.
#[derive(Drop)]
struct Lent<'a> {
    store: &'a mut [u8],
    output: &'a mut [u8],
    tally: &'a mut [u64],
}

impl Lent<'_> {
    // Answers the held count, which is that of before if nothing is asked, as where the output or the tally is longer than there
    // is room for.
    fn push(&mut self, rt: &impl Print, asked: Asked, before: usize) -> io::Result<usize> {
        let (Some(output), Some(tally)) = (
            self.output.get_mut(..asked.out),
            self.tally.get_mut(..asked.numbers),
        ) else {
            return Ok(before);
        };
        case_input::fill(output);
        let held = asked.held.unwrap_or(before);
        let answer = hns_p2p_tally::push_tallying(
            asked.network,
            self.store,
            held,
            asked.input,
            output,
            tally,
        );
        let held = show_answer(rt, answer)?;
        let sums = (case_input::sum(output), case_input::sum(self.store));
        print!(rt; " sums {} {}", sums.0, sums.1)?;
        show_totals(rt, self.tally)?;
        Ok(held)
    }

    // Answers the held count of the last push. Each push is as long as it says, so that no iterator of the library cuts them.
    fn push_all(&mut self, rt: &impl Print, pushes: &[u8], zeros: &[u8]) -> io::Result<usize> {
        let mut held = 0;
        let mut rest = pushes;
        while !rest.is_empty() {
            held = self.push(rt, read_push(rest, zeros), held)?;
            rest = from_place(rest, PUSH_FRONT + usize::from(u16_at(rest, 15)));
        }
        Ok(held)
    }
}

// The pushes of a case, then the held bytes, and the numbers of the tally. Nothing is asked if the store is longer than there is
// room for.
fn answer(
    rt: &impl Print,
    case: &[u8],
    zeros: &[u8],
    store: &mut [u8],
    output: &mut [u8],
) -> io::Result<()> {
    let Some(store) = store.get_mut(..u32_at(case, 0) as usize) else {
        return Ok(());
    };
    let count = u16_at(case, 4);
    let pushes = from_place(case, FRONT + PAIR * usize::from(count));
    let mut tally = [0u64; TALLY_ROOM];
    set_numbers(case, count, &mut tally);
    case_input::fill(store);
    let mut lent = Lent {
        store,
        output,
        tally: &mut tally,
    };
    let held = lent.push_all(rt, pushes, zeros)?;
    print!(rt; "held {}", Shown(first(lent.store, held)))?;
    show_numbers(rt, lent.tally)
}

// A main of its own: what it lends to its cases, and what it asks.
fn main(rt: HostRuntime) -> io::Result<()> {
    let mut buffer = [0u8; 4_096];
    let mut case = [0u8; ROOM];
    let zeros = [0u8; LONG_ROOM];
    let mut store = [0u8; LONG_ROOM];
    let mut output = [0u8; LONG_ROOM];
    case_input::run_any(&rt, &mut rt.stdin(), &mut buffer, &mut case, |case| {
        answer(&rt, case, &zeros, &mut store, &mut output)
    })
}
