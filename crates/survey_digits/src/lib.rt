//! Digits of the exported survey: bytes in hexadecimal, a number in decimal, both by one formula.
//!
//! No Display: digits go into a lent text of bytes at a place, and std's formatting writes text that it has made by a table.
//! A put takes the encoder by value beside the lent text, as the library's do (a form of document 01).
#![tactic(auto)]

ghost use Rattle.std.specs.Prelude.{◌≡◌, ◌*◌, ◌≤◌, ◌<◌, length};
ghost use Rattle.hns_encoding.specs.Bytes.{left};
ghost use Rattle.hns_encoding.specs.Put.{Put};
ghost use Rattle.survey_digits.specs.Digits.{digit, hex, decimal};

use hns_encoder::Encoder;

// The digit of a value, a byte of a byte, so that no From could say it. What a letter has more is chosen and not jumped to: a run of digits is then compared, masked and
// added many at a time, with no branch and no load. A table, as in the library's hex, takes two to five times as long
// (docs/SPEED.md).
#[tactic(auto, using(crate::proofs::Digits::digit_low, crate::proofs::Digits::digit_high))]
fn digit_of(value: u8) -> u8
    requires { value < 16 }
    ensures { result ≡ digit value }
{
    let more = if value < 10 { 0 } else { b'a' - 10 - b'0' };
    b'0' + value + more
}

// Bytes as digits if they fit: plain stores.
fn set_hex(encoder: Encoder, out: &mut [u8], bytes: &[u8]) -> Encoder
    requires { 2 * length bytes.now ≤ left out.old encoder.position }
    ensures { Put out.old encoder.position (hex bytes.now) out.new result.position }
{
    let at = encoder.position;
    for (i, byte) in bytes.iter().enumerate() {
        out[at + 2 * i] = digit_of(*byte / 16);
        out[at + 2 * i + 1] = digit_of(*byte % 16);
    }
    Encoder {
        position: at + 2 * bytes.len(),
    }
}

// Near the text's end, where some may not fit: the digits of each byte by a put.
fn put_hex_cut(encoder: Encoder, out: &mut [u8], bytes: &[u8]) -> Encoder
    ensures { Put out.old encoder.position (hex bytes.now) out.new result.position }
{
    let mut e = encoder;
    for byte in bytes {
        e = e.put_array(out, [digit_of(*byte / 16), digit_of(*byte % 16)]);
    }
    e
}

// Bytes as digits, by one test of the whole run.
pub fn put_hex(encoder: Encoder, out: &mut [u8], bytes: &[u8]) -> Encoder
    ensures { Put out.old encoder.position (hex bytes.now) out.new result.position }
{
    if hns_encoding::remaining(out, encoder.position) / 2 < bytes.len() {
        return put_hex_cut(encoder, out, bytes);
    }
    set_hex(encoder, out, bytes)
}

// A number in decimal, its digits by the same formula (the library's have a table). They come lowest first and to an unknown
// place, so the place is counted down by hand, in an array of the longest number's size: there is no heap.
pub fn put_decimal(encoder: Encoder, out: &mut [u8], n: u64) -> Encoder
    ensures { Put out.old encoder.position (decimal n) out.new result.position }
{
    let mut text = [0u8; 20];
    let mut rest = n;
    let mut i: usize = 19;
    while 10 <= rest {
        let low = (rest % 10) as u8;
        text[i] = digit_of(low);
        rest /= 10;
        i -= 1;
    }
    let first = rest as u8;
    text[i] = digit_of(first);
    encoder.put_bytes(out, &text[i..])
}
