//! The push of T-01, which counts the frames that it delivers. A tally is a lent slice of numbers: for each type byte the
//! frames delivered (0 to 255) and their bytes, payload plus 9 (256 to 511), then the totals of both (512 and 513).
//! A number beside a slice or a tally is a place, or a count of frames or bytes, as the wire and C have it.
#![tactic(auto)]

ghost use Rattle.std.specs.Prelude.{◌≡◌, ◌+◌, ◌≤◌, ◌<◌, length, Ok, Err};
ghost use Rattle.hns_p2p_frame.specs.Answers.{delivered_of};
ghost use Rattle.hns_p2p_frame.specs.Walk.{cut};
ghost use Rattle.hns_p2p_tally.specs.Tally.{tally_size, most_counted, add_at, at_type};
ghost use Rattle.hns_p2p_tally.specs.Tallying.{push_tallying};
ghost use Rattle.hns_p2p_tally.specs.Helpers.{Whole, SomeWhole, by_type, with_totals, ByType, room_of, answered};

use hns_p2p_frame::{Delivered, NetworkMagic, Pushed};
use hns_refusals::Refusal;

// How many numbers a tally has. C lends a slice of any length, and of a longer one these are the first.
pub const TALLY_SIZE: usize = 514;

// The most that a total may be: 2^63 - 1.
const MOST_COUNTED: u64 = 9_223_372_036_854_775_807;

// n more at a place, or 2^64 - 1 if that is more: only a tally that no push made comes to that.
#[tactic(auto, unfolding(crate::specs::Tally::add_at, hns_encoding::specs::Put::advance))]
fn add_at(tally: &mut [u64; TALLY_SIZE], place: usize, n: u64)
    requires { place < tally_size }
    ensures { tally.new ≡ add_at tally.old place n }
{
    tally[place] = tally[place].saturating_add(n);
}

// A frame of this type, and of so many bytes.
#[tactic(auto, unfolding(crate::specs::Tally::at_type))]
fn add_frame(tally: &mut [u64; TALLY_SIZE], packet_type: u8, bytes: usize)
    ensures { tally.new ≡ at_type tally.old packet_type bytes }
{
    let place = usize::from(packet_type);
    add_at(tally, place, 1);
    add_at(tally, 256 + place, bytes as u64);
}

// Whole frames. Nothing of a header is tested again: type and length are read at their places, on any network. `at` goes on by
// each frame's own length, so that no iterator of std's counts it.
#[tactic(auto, using(crate::proofs::Counts::count_start, crate::proofs::Counts::count_ends, crate::proofs::Counts::header_there, crate::proofs::Counts::payload_there, crate::proofs::Counts::count_goes))]
fn add_frames(delivered: &[u8], tally: &mut [u64; TALLY_SIZE])
    requires { SomeWhole delivered.now }
    ensures { ByType delivered.now tally.old tally.new }
{
    let mut at = 0;
    while at < delivered.len() {
        let packet_type = delivered[at + 4];
        let length = hns_encoding::u32_at(delivered, at + 5) as usize;
        let taken = NetworkMagic::FRAME_HEADER_SIZE + length;
        add_frame(tally, packet_type, taken);
        at += taken;
    }
}

// So many whole frames: at their types' places one by one, in both totals at once.
#[tactic(auto, using(crate::proofs::Once::totals_put))]
fn count(network: NetworkMagic, delivered: &[u8], frames: usize, tally: &mut [u64; TALLY_SIZE])
    requires { Whole network delivered.now }
    ensures { tally.new ≡ with_totals (by_type tally.old (cut network delivered.now).frames) frames (length delivered.now) }
{
    add_frames(delivered, tally);
    add_at(tally, 512, frames as u64);
    add_at(tally, 513, delivered.len() as u64);
}

// 20, where a total of the tally could pass the most with so many bytes more.
#[tactic(auto, using(crate::proofs::Tested::room_full, crate::proofs::Tested::room_left))]
fn check_room(tally: &[u64; TALLY_SIZE], more: usize) -> Result<(), Refusal>
    requires { more ≤ most_counted }
    ensures { result ≡ room_of tally.now more }
{
    let room = MOST_COUNTED - more as u64;
    if room < tally[512] || room < tally[513] {
        return Err(Refusal::TallyFull);
    }
    Ok(())
}

// The push with the tests before it: those of the ported push, then 16 for the tally, then 20. Its frames are counted.
// What it works with is lent as to push_tallying.
fn push_counting(
    network: NetworkMagic,
    store: &mut [u8],
    held: usize,
    input: &[u8],
    output: &mut [u8],
    tally: &mut [u64],
) -> Result<Pushed, Refusal>
    ensures value { answered result held ≡ delivered_of (push_tallying network store.old held input.now output.old tally.old).answer }
    ensures store_after { store.new ≡ (push_tallying network store.old held input.now output.old tally.old).store }
    ensures output_after { output.new ≡ (push_tallying network store.old held input.now output.old tally.old).output }
    ensures tally_after { tally.new ≡ (push_tallying network store.old held input.now output.old tally.old).tally }
{
    let total = hns_p2p_frame::take_in(store, held, input, output)?;
    let Some(tally) = tally.first_chunk_mut::<TALLY_SIZE>() else {
        return Err(Refusal::OutputShort { needed: TALLY_SIZE });
    };
    check_room(tally, total)?;
    let pushed = hns_p2p_frame::push(network, store, held, input, output);
    let Ok(delivered) = pushed.delivered else {
        return Ok(pushed);
    };
    let handed = hns_encoding::first(output, delivered.bytes);
    count(network, handed, delivered.frames, tally);
    Ok(pushed)
}

// Takes input into a stream by the ported push, and adds the frames that it delivers to the tally. Store, held count and tally
// come one by one, as C lends them.
#[tactic(auto, unfolding(crate::specs::Helpers::answered))]
pub fn push_tallying(
    network: NetworkMagic,
    store: &mut [u8],
    held: usize,
    input: &[u8],
    output: &mut [u8],
    tally: &mut [u64],
) -> Delivered
    ensures value { result ≡ delivered_of (push_tallying network store.old held input.now output.old tally.old).answer }
    ensures store_after { store.new ≡ (push_tallying network store.old held input.now output.old tally.old).store }
    ensures output_after { output.new ≡ (push_tallying network store.old held input.now output.old tally.old).output }
    ensures tally_after { tally.new ≡ (push_tallying network store.old held input.now output.old tally.old).tally }
{
    let pushed = push_counting(network, store, held, input, output, tally).unwrap_or_else(
        |refusal| Pushed {
            delivered: Err(refusal),
            held,
        },
    );
    Delivered::from(pushed)
}
