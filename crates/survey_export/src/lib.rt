//! The exported survey: its lines, and the step that takes a chunk of a log.
//!
//! A put takes the encoder by value beside the lent text and hands the next one back, as the library's do (a form of document 01).
//! Store, output and text are lent one by one and of any length, as the push lends its own, for a caller with no heap.
#![tactic(auto)]

ghost use Rattle.std.specs.Prelude.{◌≡◌};
ghost use Rattle.hns_encoding.specs.Put.{Put};
ghost use Rattle.hns_p2p_frame.specs.declared.NetworkMagic.TheVariants.{Mainnet};
ghost use Rattle.hns_p2p_frame.specs.Walk.{cut};
ghost use Rattle.survey_export.specs.Survey.{lines, goes_on_at, take_chunk};
ghost use Rattle.survey_export.specs.Helpers.{PushesChunk, Finishes};
ghost use Rattle.survey_export.specs.Text.{hex_payload, line, last_line, held_line, stop_line};

use hns_encoder::Encoder;
use hns_p2p_frame::NetworkMagic;

// How far a survey is: the held count of its stream, and where its text goes on, as numbers beside what the program lends.
#[derive(Clone, Copy, Debug, Default, PartialEq, Eq)]
pub struct Kept {
    pub held: usize,
    pub position: usize,
}

// What is to do after a chunk: the first `write` bytes of the text are written out, and the survey goes on, or it is over. A number,
// since the text is the caller's.
#[derive(Clone, Copy, Debug, PartialEq, Eq)]
pub struct Step {
    pub write: usize,
    pub next: Option<Kept>,
}

// A shorter chunk is the last.
const CHUNK: usize = 4_096;

// A longer text is written out: the lines of the next chunk, at most twice the output, and a last line must still fit.
const FULL: usize = 65_536 - 2 * 24_576 - 32;

fn put_payload(encoder: Encoder, out: &mut [u8], payload: &[u8]) -> Encoder
    ensures { Put out.old encoder.position (hex_payload payload.now) out.new result.position }
{
    let empty = payload.is_empty();
    if empty {
        return encoder;
    }
    let e = encoder.put_u8(out, 32);
    survey_digits::put_hex(e, out, payload)
}

// The line of a frame, by its two parts: the payload stays in the output that is lent.
pub fn put_line(encoder: Encoder, out: &mut [u8], packet_type: u8, payload: &[u8]) -> Encoder
    ensures { Put out.old encoder.position (line packet_type payload.now) out.new result.position }
{
    let length = (payload.len() % 4_294_967_296) as u32;
    let e = survey_digits::put_hex(encoder, out, &[packet_type]);
    let e = e.put_u8(out, 32);
    let e = survey_digits::put_hex(e, out, &length.to_be_bytes());
    let e = put_payload(e, out, payload);
    e.put_u8(out, 10)
}

fn put_last(encoder: Encoder, out: &mut [u8], word: &[u8], n: u64) -> Encoder
    ensures { Put out.old encoder.position (last_line word.now n) out.new result.position }
{
    let e = encoder.put_bytes(out, word);
    let e = survey_digits::put_decimal(e, out, n);
    e.put_u8(out, 10)
}

// The last line of a survey whose pushes were all accepted. It and the next are one call each, with the word that their promise names.
#[tactic(auto, unfolding(crate::specs::Text::held_line))]
pub fn put_held(encoder: Encoder, out: &mut [u8], held: u64) -> Encoder
    ensures { Put out.old encoder.position (held_line held) out.new result.position }
{
    put_last(encoder, out, b"held ", held)
}

// The last line of a survey whose last push was refused.
#[tactic(auto, unfolding(crate::specs::Text::stop_line))]
pub fn put_stop(encoder: Encoder, out: &mut [u8], number: u64) -> Encoder
    ensures { Put out.old encoder.position (stop_line number) out.new result.position }
{
    put_last(encoder, out, b"stop ", number)
}

// The lines of the frames that a slice begins with. `at` goes on by each frame's own length, so that no iterator of std's counts it.
fn put_lines(encoder: Encoder, out: &mut [u8], frames: &[u8]) -> Encoder
    ensures { Put out.old encoder.position (lines (cut Mainnet frames.now).frames) out.new result.position }
{
    let mut e = encoder;
    let mut at = 0;
    while let Some(prefix) = hns_p2p_frame::decode_frame_prefix(
        NetworkMagic::Mainnet,
        &frames[at..],
    ).unwrap_or(None)
    {
        let payload = hns_p2p_frame::payload(NetworkMagic::Mainnet, &frames[at..]);
        e = put_line(e, out, prefix.packet_type, payload);
        at += prefix.taken;
    }
    e
}

// Pushes bytes of a mainnet log, and puts the lines of what that delivered, or the line of its refusal, into the text: how
// far the survey is then, or where the text ends. A Result, since a push is refused or not; the refusal is in the text by then.
fn push_chunk(
    store: &mut [u8],
    kept: Kept,
    chunk: &[u8],
    output: &mut [u8],
    text: &mut [u8],
) -> Result<Kept, usize>
    ensures { PushesChunk store.old kept.held chunk.now output.old text.old kept.position result store.new output.new text.new }
{
    let encoder = Encoder {
        position: kept.position,
    };
    let pushed = hns_p2p_frame::push(NetworkMagic::Mainnet, store, kept.held, chunk, output);
    match pushed.delivered {
        Ok(frames) => {
            let e = put_lines(encoder, text, hns_encoding::first(output, frames.bytes));
            Ok(Kept {
                held: pushed.held,
                position: e.position,
            })
        }
        Err(refusal) => {
            let e = put_stop(encoder, text, refusal.number());
            Err(e.position)
        }
    }
}

// The last line of a log that is over.
fn finish(text: &mut [u8], kept: Kept) -> Step
    ensures { Finishes text.old kept.held kept.position result text.new }
{
    let encoder = Encoder {
        position: kept.position,
    };
    let e = put_held(encoder, text, kept.held as u64);
    Step {
        write: e.position,
        next: None,
    }
}

// After the lines of a full chunk: the text is kept for more, or written out and begun again. No From, since it chooses by how long the text is.
#[tactic(auto, using(crate::proofs::Parts::text_kept, crate::proofs::Parts::text_begun))]
fn onward(kept: Kept) -> Step
    ensures { result ≡ goes_on_at kept.held kept.position }
{
    if kept.position <= FULL {
        Step {
            write: 0,
            next: Some(kept),
        }
    } else {
        Step {
            write: kept.position,
            next: Some(Kept {
                held: kept.held,
                position: 0,
            }),
        }
    }
}

// Takes the next bytes of a mainnet log, a full chunk or, where the log is over, the fewer or none that were left.
pub fn take_chunk(
    store: &mut [u8],
    kept: Kept,
    chunk: &[u8],
    output: &mut [u8],
    text: &mut [u8],
) -> Step
    ensures value { result ≡ (take_chunk store.old kept.held chunk.now output.old text.old kept.position).answer }
    ensures store_after { store.new ≡ (take_chunk store.old kept.held chunk.now output.old text.old kept.position).store }
    ensures output_after { output.new ≡ (take_chunk store.old kept.held chunk.now output.old text.old kept.position).output }
    ensures text_after { text.new ≡ (take_chunk store.old kept.held chunk.now output.old text.old kept.position).text }
{
    if chunk.is_empty() {
        return finish(text, kept);
    }
    match push_chunk(store, kept, chunk, output, text) {
        // no refusal is handed on here: its line is in the text, and this is where that ends
        Err(write) => Step { write, next: None },
        Ok(lined) if chunk.len() < CHUNK => finish(text, lined),
        Ok(lined) => onward(lined),
    }
}
