//! libhns_ffi_frames.a for callers in C and Rust: each function of hns_ffi_frames, exported with the contract that it has there.
//! A static library exports its own functions alone, so each stands here once more.
#![tactic(auto)]

ghost use Rattle.std.specs.Prelude.{◌≡◌};
ghost use Rattle.hns_p2p_frame.specs.Frame.{front, decode_exact, write_frame};
ghost use Rattle.hns_p2p_frame.specs.Push as Push;
ghost use Rattle.hns_p2p_frame.specs.Answers.{prefix_of, exact_of, pushed_of, delivered_of};
ghost use Rattle.hns_p2p_tally.specs.Tallying.{push_tallying};
ghost use Rattle.hns_rows.specs.Rows.{answered, network_of, prefix_row, exact_row, count_row, pushed_row, delivered_row};

#[unsafe(no_mangle)]
pub extern "C" fn hns_decode_frame_prefix(network: u8, input: &[u8], answer: &mut [u64])
    ensures { answer.new ≡ answered answer.old (prefix_row (prefix_of (front (network_of network) input.now))) }
{
    hns_ffi_frames::hns_decode_frame_prefix(network, input, answer);
}

#[unsafe(no_mangle)]
pub extern "C" fn hns_decode_exact(network: u8, input: &[u8], answer: &mut [u64])
    ensures { answer.new ≡ answered answer.old (exact_row (exact_of (decode_exact (network_of network) input.now))) }
{
    hns_ffi_frames::hns_decode_exact(network, input, answer);
}

#[unsafe(no_mangle)]
pub extern "C" fn hns_encode_frame(
    network: u8,
    packet_type: u8,
    payload: &[u8],
    out: &mut [u8],
    answer: &mut [u64],
)
    ensures answer_after { answer.new ≡ answered answer.old (count_row (write_frame (network_of network) (record { packet_type = packet_type; payload = payload.now }) out.old).answer) }
    ensures out_after { out.new ≡ (write_frame (network_of network) (record { packet_type = packet_type; payload = payload.now }) out.old).output }
{
    hns_ffi_frames::hns_encode_frame(network, packet_type, payload, out, answer);
}

#[unsafe(no_mangle)]
pub extern "C" fn hns_push(
    network: u8,
    store: &mut [u8],
    held: usize,
    input: &[u8],
    output: &mut [u8],
    answer: &mut [u64],
)
    ensures answer_after { answer.new ≡ answered answer.old (pushed_row (pushed_of (Push.push (network_of network) store.old held input.now output.old).answer)) }
    ensures store_after { store.new ≡ (Push.push (network_of network) store.old held input.now output.old).store }
    ensures output_after { output.new ≡ (Push.push (network_of network) store.old held input.now output.old).output }
{
    hns_ffi_frames::hns_push(network, store, held, input, output, answer);
}

#[unsafe(no_mangle)]
pub extern "C" fn hns_push_tallying(
    network: u8,
    store: &mut [u8],
    held: usize,
    input: &[u8],
    output: &mut [u8],
    tally: &mut [u64],
    answer: &mut [u64],
)
    ensures answer_after { answer.new ≡ answered answer.old (delivered_row (delivered_of (push_tallying (network_of network) store.old held input.now output.old tally.old).answer)) }
    ensures store_after { store.new ≡ (push_tallying (network_of network) store.old held input.now output.old tally.old).store }
    ensures output_after { output.new ≡ (push_tallying (network_of network) store.old held input.now output.old tally.old).output }
    ensures tally_after { tally.new ≡ (push_tallying (network_of network) store.old held input.now output.old tally.old).tally }
{
    hns_ffi_frames::hns_push_tallying(network, store, held, input, output, tally, answer);
}
