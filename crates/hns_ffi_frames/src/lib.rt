//! Frames and the stream for callers in C and Rust, beside hns_ffi: numbers and byte slices in, rows of six numbers out.
//!
//! Names, parameters and rows are those of hns_ffi.h: one function for each call that C makes, with a row of numbers for its
//! answer and a clause that says so. Slices come with a place or a count beside them, as C lends them.
//!
//! A library exports nothing, whatever its functions say: hns_ffi_frames_c has the exports, and the test programs call this one.
#![tactic(auto)]

ghost use Rattle.std.specs.Prelude.{◌≡◌};
ghost use Rattle.hns_p2p_frame.specs.Frame.{front, decode_exact, write_frame};
ghost use Rattle.hns_p2p_frame.specs.Push as Push;
ghost use Rattle.hns_p2p_frame.specs.Answers.{prefix_of, exact_of, pushed_of, delivered_of};
ghost use Rattle.hns_p2p_tally.specs.Tallying.{push_tallying};
ghost use Rattle.hns_rows.specs.Rows.{answered, network_of, prefix_row, exact_row, count_row, pushed_row, delivered_row};

// Frames. Networks are 0 mainnet, 1 testnet, 2 regtest, and simnet from 3 on.
#[unsafe(no_mangle)]
pub extern "C" fn hns_decode_frame_prefix(network: u8, input: &[u8], answer: &mut [u64])
    ensures { answer.new ≡ answered answer.old (prefix_row (prefix_of (front (network_of network) input.now))) }
{
    let prefix = hns_p2p_frame::decode_frame_prefix(hns_rows::network_of(network), input);
    hns_rows::put_row(answer, hns_rows::of_prefix(prefix));
}

#[unsafe(no_mangle)]
pub extern "C" fn hns_decode_exact(network: u8, input: &[u8], answer: &mut [u64])
    ensures { answer.new ≡ answered answer.old (exact_row (exact_of (decode_exact (network_of network) input.now))) }
{
    let exact = hns_p2p_frame::decode_exact(hns_rows::network_of(network), input);
    hns_rows::put_row(answer, hns_rows::of_exact(exact));
}

#[unsafe(no_mangle)]
pub extern "C" fn hns_encode_frame(
    network: u8,
    packet_type: u8,
    payload: &[u8],
    out: &mut [u8],
    answer: &mut [u64],
)
    ensures answer_after { answer.new ≡ answered answer.old (count_row (write_frame (network_of network) (record { packet_type = packet_type; payload = payload.now }) out.old).answer) }
    ensures out_after { out.new ≡ (write_frame (network_of network) (record { packet_type = packet_type; payload = payload.now }) out.old).output }
{
    let encoded = hns_p2p_frame::encode(hns_rows::network_of(network), packet_type, payload, out);
    hns_rows::put_row(answer, hns_rows::of_count(encoded));
}

// A push into a stream whose held bytes are the store's first. A refused one answers the held count after the refusal's values.
#[unsafe(no_mangle)]
pub extern "C" fn hns_push(
    network: u8,
    store: &mut [u8],
    held: usize,
    input: &[u8],
    output: &mut [u8],
    answer: &mut [u64],
)
    ensures answer_after { answer.new ≡ answered answer.old (pushed_row (pushed_of (Push.push (network_of network) store.old held input.now output.old).answer)) }
    ensures store_after { store.new ≡ (Push.push (network_of network) store.old held input.now output.old).store }
    ensures output_after { output.new ≡ (Push.push (network_of network) store.old held input.now output.old).output }
{
    let pushed = hns_p2p_frame::push(hns_rows::network_of(network), store, held, input, output);
    hns_rows::put_row(answer, hns_rows::of_pushed(pushed));
}

// The same with a tally of 514 numbers, to which the frames that it delivers are added.
#[unsafe(no_mangle)]
pub extern "C" fn hns_push_tallying(
    network: u8,
    store: &mut [u8],
    held: usize,
    input: &[u8],
    output: &mut [u8],
    tally: &mut [u64],
    answer: &mut [u64],
)
    ensures answer_after { answer.new ≡ answered answer.old (delivered_row (delivered_of (push_tallying (network_of network) store.old held input.now output.old tally.old).answer)) }
    ensures store_after { store.new ≡ (push_tallying (network_of network) store.old held input.now output.old tally.old).store }
    ensures output_after { output.new ≡ (push_tallying (network_of network) store.old held input.now output.old tally.old).output }
    ensures tally_after { tally.new ≡ (push_tallying (network_of network) store.old held input.now output.old tally.old).tally }
{
    let on = hns_rows::network_of(network);
    let delivered = hns_p2p_tally::push_tallying(on, store, held, input, output, tally);
    hns_rows::put_row(answer, hns_rows::of_delivered(delivered));
}
