//! Frames of a peer stream: reading one at the front of a slice, writing one, and the push that cuts a stream into frames.
//!
//! Slices come with a place or a count beside them, as C lends them. A part of one is `&x[a..b]`: its bounds are proved, so that
//! there is no None to answer, as `get` would have.
#![tactic(auto)]

ghost use Rattle.std.specs.Prelude.{◌≡◌, ◌++◌, ◌∷◌, ◌+◌, ◌-◌, ◌≤◌, length, take, Ok, Err};
ghost use Rattle.hns_encoding.specs.Bytes.{le, le_bytes, part};
ghost use Rattle.hns_encoding.specs.Put.{splice, Put};
ghost use Rattle.hns_p2p_frame.specs.Frame.{magic, missing, front, payload_of, decode_exact, write_frame};
ghost use Rattle.hns_p2p_frame.specs.Walk.{walk};
ghost use Rattle.hns_p2p_frame.specs.Push as Push;
ghost use Rattle.hns_p2p_frame.specs.Answers.{prefix_of, exact_of, pushed_of, beside};
ghost use Rattle.hns_p2p_frame.specs.Helpers.{walk_of};

use hns_encoder::Encoder;
use hns_refusals::Refusal;

#[derive(Clone, Copy, Debug, PartialEq, Eq)]
pub enum NetworkMagic {
    Mainnet,
    Testnet,
    Regtest,
    Simnet,
}

impl NetworkMagic {
    pub const MAINNET: u32 = 0x5b6e_f2d3;

    pub const TESTNET: u32 = 0xb152_0dd2;

    pub const REGTEST: u32 = 0xae38_95cf;

    pub const SIMNET: u32 = 0x0e64_8edc;

    pub const FRAME_HEADER_SIZE: usize = 9;

    pub const MAX_FRAME_PAYLOAD_SIZE: usize = 8_000_000;

    pub const MAX_STREAM_BUFFER_SIZE: usize = 16_000_018;

    // Stays a method and a table of its own: document 01 names the form, four byte strings that frames are compared with.
    #[tactic(auto, unfolding(crate::specs::Frame::magic))]
    pub fn as_bytes(self) -> [u8; 4]
        ensures { result ≡ magic self }
    {
        match self {
            NetworkMagic::Mainnet => *b"\xd3\xf2\x6e\x5b",
            NetworkMagic::Testnet => *b"\xd2\x0d\x52\xb1",
            NetworkMagic::Regtest => *b"\xcf\x95\x38\xae",
            NetworkMagic::Simnet => *b"\xdc\x8e\x64\x0e",
        }
    }
}

// The word that the four bytes are, lowest first.
impl From<NetworkMagic> for u32 {
    ghost from_gives = { λ network word. word ≡ le (magic network) };

    #[tactic(auto, unfolding(crate::specs::Frame::magic, hns_encoding::specs::Bytes::le))]
    fn from(network: NetworkMagic) -> u32 {
        match network {
            NetworkMagic::Mainnet => NetworkMagic::MAINNET,
            NetworkMagic::Testnet => NetworkMagic::TESTNET,
            NetworkMagic::Regtest => NetworkMagic::REGTEST,
            NetworkMagic::Simnet => NetworkMagic::SIMNET,
        }
    }
}

// The frame that a slice begins with, by its type, its payload's length, and how many bytes it took: numbers, which a row for C takes.
#[derive(Clone, Copy, Debug, PartialEq, Eq)]
pub struct Prefix {
    pub packet_type: u8,
    pub length: usize,
    pub taken: usize,
}

// The frames that a slice begins with, up to the first that is not all there, or that a push delivers: how many, and the length
// of their encodings, as a row for C takes them.
#[derive(Clone, Copy, Debug, Default, PartialEq, Eq)]
pub struct Frames {
    pub frames: usize,
    pub bytes: usize,
}

// What a push answers: the frames that it delivered, or why it is refused and delivers none; and how many bytes are held.
// The held count stands beside the Result, since either case has one, and the next push asks for it.
#[derive(Clone, Copy, Debug, PartialEq, Eq)]
pub struct Pushed {
    pub delivered: Result<Frames, Refusal>,
    pub held: usize,
}

// What a push with a tally answers. Frames and bytes stand beside a refusal too, as in its row for C; they are 0 there today
// (docs/DECISIONS.md, 95).
#[derive(Clone, Copy, Debug, PartialEq, Eq)]
pub struct Delivered {
    pub frames: usize,
    pub bytes: usize,
    pub held: usize,
    pub verdict: Result<(), Refusal>,
}

// A push that is refused delivers nothing.
impl From<Pushed> for Delivered {
    ghost from_gives = { λ pushed answer. answer ≡ beside pushed.delivered pushed.held };

    #[tactic(auto, unfolding(crate::specs::Answers::beside))]
    fn from(pushed: Pushed) -> Delivered {
        let Frames { frames, bytes } = pushed.delivered.unwrap_or_default();
        Delivered {
            frames,
            bytes,
            held: pushed.held,
            verdict: pushed.delivered.and(Ok(())),
        }
    }
}

// None where it is not all there yet.
#[tactic(auto, using(crate::proofs::Answers::few_is, crate::proofs::Answers::wrong_is, crate::proofs::Answers::long_is, crate::proofs::Answers::begun_is, crate::proofs::Answers::full_is))]
pub fn decode_frame_prefix(network: NetworkMagic, input: &[u8]) -> Result<Option<Prefix>, Refusal>
    ensures { result ≡ prefix_of (front network input.now) }
{
    if input.len() < NetworkMagic::FRAME_HEADER_SIZE {
        return Ok(None);
    }
    if hns_encoding::array_at(input, 0) != network.as_bytes() {
        return Err(Refusal::MagicMismatch {
            expected: u64::from(u32::from(network)),
            found: u64::from(hns_encoding::u32_at(input, 0)),
        });
    }
    let length = hns_encoding::u32_at(input, 5) as usize;
    if NetworkMagic::MAX_FRAME_PAYLOAD_SIZE < length {
        return Err(Refusal::PayloadTooLarge { actual: length });
    }
    let taken = NetworkMagic::FRAME_HEADER_SIZE + length;
    if input.len() < taken {
        return Ok(None);
    }
    Ok(Some(Prefix {
        packet_type: input[4],
        length,
        taken,
    }))
}

// The payload of the frame that the input begins with; the empty part where it begins with none, of which decode_frame_prefix says why.
#[tactic(auto, using(crate::proofs::Answers::payload_not_yet, crate::proofs::Answers::payload_bad, crate::proofs::Answers::payload_within, crate::proofs::Answers::payload_whole))]
pub fn payload(network: NetworkMagic, input: &[u8]) -> &[u8]
    ensures { result.now ≡ payload_of (front network input.now) }
{
    match decode_frame_prefix(network, input) {
        Ok(Some(prefix)) => &input[NetworkMagic::FRAME_HEADER_SIZE..prefix.taken],
        Ok(None) | Err(_) => &[],
    }
}

#[tactic(auto, using(crate::proofs::Answers::few_missing, crate::proofs::Answers::rest_missing))]
fn bytes_needed_for_frame(input: &[u8]) -> usize
    ensures { result ≡ missing input.now }
{
    let there = input.len();
    if there < NetworkMagic::FRAME_HEADER_SIZE {
        return NetworkMagic::FRAME_HEADER_SIZE - there;
    }
    let total = NetworkMagic::FRAME_HEADER_SIZE + hns_encoding::u32_at(input, 5) as usize;
    total.saturating_sub(there)
}

// All of the input as one frame.
#[tactic(auto, using(crate::proofs::Answers::exact_bad, crate::proofs::Answers::exact_missing, crate::proofs::Answers::exact_left, crate::proofs::Answers::exact_one))]
pub fn decode_exact(network: NetworkMagic, input: &[u8]) -> Result<Prefix, Refusal>
    ensures { result ≡ exact_of (decode_exact network input.now) }
{
    let Some(prefix) = decode_frame_prefix(network, input)? else {
        return Err(Refusal::IncompleteFrame {
            missing: bytes_needed_for_frame(input),
        });
    };
    hns_encoding::finish(input, prefix.taken)?;
    Ok(prefix)
}

// The nine bytes of a frame before its payload, which a put of the payload can follow in the same output: the cursor is by value
// beside it, a form that document 01 names.
pub fn put_frame_header(
    encoder: Encoder,
    out: &mut [u8],
    network: NetworkMagic,
    packet_type: u8,
    length: u32,
) -> Encoder
    ensures { Put out.old encoder.position (magic network ++ (packet_type ∷ le_bytes 4 length)) out.new result.position }
{
    encoder
        .put_array(out, network.as_bytes())
        .put_u8(out, packet_type)
        .put_u32_le(out, length)
}

// The length of the encoding that is written to the output's front. Type and payload come one by one, as C gives them.
#[tactic(auto, using(crate::proofs::Writes::over_is, crate::proofs::Writes::short_is, crate::proofs::Writes::fits_is))]
pub fn encode(
    network: NetworkMagic,
    packet_type: u8,
    payload: &[u8],
    out: &mut [u8],
) -> Result<usize, Refusal>
    ensures value { result ≡ (write_frame network (record { packet_type = packet_type; payload = payload.now }) out.old).answer }
    ensures out_after { out.new ≡ (write_frame network (record { packet_type = packet_type; payload = payload.now }) out.old).output }
{
    let length = payload.len();
    if NetworkMagic::MAX_FRAME_PAYLOAD_SIZE < length {
        return Err(Refusal::PayloadTooLarge { actual: length });
    }
    let total = NetworkMagic::FRAME_HEADER_SIZE + length;
    if out.len() < total {
        return Err(Refusal::OutputShort { needed: total });
    }
    put_frame_header(Encoder::new(), out, network, packet_type, length as u32).put_bytes(
        out, payload,
    );
    Ok(total)
}

// `bytes` goes on by each frame's own length, so that no iterator of std's counts it.
#[tactic(auto, using(crate::proofs::Turns::walked_start, crate::proofs::Turns::turn_stops, crate::proofs::Turns::turn_refuses, crate::proofs::Turns::turn_gains, crate::proofs::Turns::turn_within))]
fn walk_frames(network: NetworkMagic, input: &[u8]) -> Result<Frames, Refusal>
    ensures { result ≡ walk_of network (walk network input.now) }
{
    let mut frames = 0;
    let mut bytes = 0;
    while let Some(prefix) = decode_frame_prefix(network, &input[bytes..])? {
        frames += 1;
        bytes += prefix.taken;
    }
    Ok(Frames { frames, bytes })
}

// Copies the store's first bytes to the output's front, and moves the `left` bytes after them to its own. Where there are none to
// deliver, no byte moves.
// Whole slices with numbers: with parts of them the call would have two cuts more, and the copies the numbers all the same.
#[tactic(auto, using(crate::proofs::Slices::moved_down, crate::proofs::Slices::none_moved, crate::proofs::Slices::none_put))]
fn deliver(store: &mut [u8], bytes: usize, left: usize, output: &mut [u8])
    requires { (bytes + left ≤ length store.old) × (bytes ≤ length output.old) }
    ensures store_after { store.new ≡ splice store.old 0 (part store.old bytes left) }
    ensures output_after { output.new ≡ splice output.old 0 (take bytes store.old) }
{
    if 0 < bytes {
        hns_encoding::put_front(output, &store[..bytes]);
        store.copy_within(bytes..bytes + left, 0);
    }
}

// What is left to do once the input is appended, and held: the held bytes are walked, and those of whole frames are delivered.
// That they are within store and output is required, since take_in has tested it.
fn settle(
    network: NetworkMagic,
    store: &mut [u8],
    held: &mut usize,
    output: &mut [u8],
) -> Result<Frames, Refusal>
    requires { (held.old ≤ length store.old) × (held.old ≤ length output.old) }
    ensures value { result ≡ (pushed_of (Push.settled network (walk network (take held.old store.old)) store.old held.old output.old).answer).delivered }
    ensures held_after { held.new ≡ (pushed_of (Push.settled network (walk network (take held.old store.old)) store.old held.old output.old).answer).held }
    ensures store_after { store.new ≡ (Push.settled network (walk network (take held.old store.old)) store.old held.old output.old).store }
    ensures output_after { output.new ≡ (Push.settled network (walk network (take held.old store.old)) store.old held.old output.old).output }
{
    let delivered = walk_frames(network, &store[..*held])?;
    let left = *held - delivered.bytes;
    deliver(store, delivered.bytes, left, output);
    *held = left;
    Ok(delivered)
}

// The tests of every push before it appends its input: 18, 6, 17, 16. How many bytes held and input are together.
#[tactic(auto, using(crate::proofs::Settles::takes_in_18, crate::proofs::Settles::takes_in_6, crate::proofs::Settles::takes_in_17, crate::proofs::Settles::takes_in_16, crate::proofs::Settles::takes_in_all))]
pub fn take_in(store: &[u8], held: usize, input: &[u8], output: &[u8]) -> Result<usize, Refusal>
    ensures { result ≡ Push.passing store.now held input.now output.now Err (Ok (held + length input.now)) }
{
    if store.len() < held {
        return Err(Refusal::HeldOver { held });
    }
    let total = held + input.len();
    if NetworkMagic::MAX_STREAM_BUFFER_SIZE < total {
        return Err(Refusal::StreamTooLarge { total });
    }
    if store.len() < total {
        return Err(Refusal::StoreShort { needed: total });
    }
    if output.len() < total {
        return Err(Refusal::OutputShort { needed: total });
    }
    Ok(total)
}

// A push with its held count as it goes: that of before where a test turns it away, and where a header is refused, with the input in it.
#[tactic(auto, using(crate::proofs::Settles::taken_within, crate::proofs::Settles::taken_long))]
fn push_held(
    network: NetworkMagic,
    store: &mut [u8],
    held: &mut usize,
    input: &[u8],
    output: &mut [u8],
) -> Result<Frames, Refusal>
    ensures value { result ≡ (pushed_of (Push.push network store.old held.old input.now output.old).answer).delivered }
    ensures held_after { held.new ≡ (pushed_of (Push.push network store.old held.old input.now output.old).answer).held }
    ensures store_after { store.new ≡ (Push.push network store.old held.old input.now output.old).store }
    ensures output_after { output.new ≡ (Push.push network store.old held.old input.now output.old).output }
{
    let total = take_in(store, *held, input, output)?;
    hns_encoding::put_front(&mut store[*held..total], input);
    *held = total;
    settle(network, store, held, output)
}

// Takes input into a stream whose held bytes are the store's first. Store and held count come one by one, as C lends them.
pub fn push(
    network: NetworkMagic,
    store: &mut [u8],
    held: usize,
    input: &[u8],
    output: &mut [u8],
) -> Pushed
    ensures value { result ≡ pushed_of (Push.push network store.old held input.now output.old).answer }
    ensures store_after { store.new ≡ (Push.push network store.old held input.now output.old).store }
    ensures output_after { output.new ≡ (Push.push network store.old held input.now output.old).output }
{
    let mut left = held;
    let delivered = push_held(network, store, &mut left, input, output);
    Pushed {
        delivered,
        held: left,
    }
}
