//! The port for callers in C and Rust: numbers and byte slices in, rows of six numbers out.
//!
//! Names, parameters and rows are those of hns_ffi.h: one function for each call that C makes, with a row of numbers for its
//! answer and a clause that says so. Slices come with a place or a count beside them, as C lends them.
//!
//! A library exports nothing, whatever its functions say: hns_ffi_c has the exports, and the test programs call this one.
#![tactic(auto)]

ghost use Rattle.std.specs.Prelude.{◌≡◌, ◌∷◌, [], length};
ghost use Rattle.hns_encoding.specs.Bytes.{le_bytes, bytes_at, le_at, end_at};
ghost use Rattle.hns_encoding.specs.Compact.{compact_at, compact_bytes, count_at, bounded_at, varbytes_at, varbytes, sizes_at};
ghost use Rattle.hns_encoding.specs.Put.{Put, splice};
ghost use Rattle.hns_encoding.specs.Answers.{result_of, range_of, finished_of, sizes_of};
ghost use Rattle.hns_encoding.specs.Format.{write};
ghost use Rattle.hns_header_consensus.specs.Layout.{header, decode_header, header_at};
ghost use Rattle.hns_header_consensus.specs.Answers.{fields_of, decoded_of};
ghost use Rattle.hns_header_hashes.specs.Hashes.{hashes_kept, header_from};
ghost use Rattle.hns_rows.specs.Rows.{answered, number_row, sizes_row, slice_row, checked_row, header_row};

use hns_encoder::Encoder;
use hns_header_consensus::{HEADER_SIZE, Header};
use hns_refusals::Refusal;

// Reads at a place. A number's row has its value and the place after it.
#[unsafe(no_mangle)]
pub extern "C" fn hns_read_u8(input: &[u8], position: usize, answer: &mut [u64])
    ensures { answer.new ≡ answered answer.old (number_row (result_of (le_at 1 input.now position))) }
{
    hns_rows::put_row(
        answer,
        hns_rows::of_number(hns_encoding::read_u8(input, position)),
    );
}

#[unsafe(no_mangle)]
pub extern "C" fn hns_read_u16_le(input: &[u8], position: usize, answer: &mut [u64])
    ensures { answer.new ≡ answered answer.old (number_row (result_of (le_at 2 input.now position))) }
{
    hns_rows::put_row(
        answer,
        hns_rows::of_number(hns_encoding::read_u16_le(input, position)),
    );
}

#[unsafe(no_mangle)]
pub extern "C" fn hns_read_u32_le(input: &[u8], position: usize, answer: &mut [u64])
    ensures { answer.new ≡ answered answer.old (number_row (result_of (le_at 4 input.now position))) }
{
    hns_rows::put_row(
        answer,
        hns_rows::of_number(hns_encoding::read_u32_le(input, position)),
    );
}

#[unsafe(no_mangle)]
pub extern "C" fn hns_read_u64_le(input: &[u8], position: usize, answer: &mut [u64])
    ensures { answer.new ≡ answered answer.old (number_row (result_of (le_at 8 input.now position))) }
{
    hns_rows::put_row(
        answer,
        hns_rows::of_number(hns_encoding::read_u64_le(input, position)),
    );
}

#[unsafe(no_mangle)]
pub extern "C" fn hns_read_compact_size(input: &[u8], position: usize, answer: &mut [u64])
    ensures { answer.new ≡ answered answer.old (number_row (result_of (compact_at input.now position))) }
{
    hns_rows::put_row(
        answer,
        hns_rows::of_number(hns_encoding::read_compact_size(input, position)),
    );
}

#[unsafe(no_mangle)]
pub extern "C" fn hns_read_compact_usize(
    input: &[u8],
    position: usize,
    maximum: usize,
    answer: &mut [u64],
)
    ensures { answer.new ≡ answered answer.old (number_row (result_of (count_at maximum 0 input.now position))) }
{
    hns_rows::put_row(
        answer,
        hns_rows::of_number(hns_encoding::read_compact_usize(input, position, maximum)),
    );
}

// Compact sizes one after another into `values`, in one call: how many were read and the place after them.
#[unsafe(no_mangle)]
pub extern "C" fn hns_read_compact_sizes(
    input: &[u8],
    position: usize,
    values: &mut [u64],
    answer: &mut [u64],
)
    ensures answer_after { answer.new ≡ answered answer.old (sizes_row (sizes_of (sizes_at (length values.old) input.now position))) }
    ensures values_after { values.new ≡ splice values.old 0 (sizes_at (length values.old) input.now position).values }
{
    let sizes = hns_encoding::read_compact_sizes(input, position, values);
    hns_rows::put_row(answer, hns_rows::of_sizes(sizes));
}

// Bytes are answered by their place: where they begin and the place after them.
#[unsafe(no_mangle)]
pub extern "C" fn hns_read_slice(input: &[u8], position: usize, length: usize, answer: &mut [u64])
    ensures { answer.new ≡ answered answer.old (slice_row (range_of (bytes_at length input.now position))) }
{
    hns_rows::put_row(
        answer,
        hns_rows::of_slice(hns_encoding::read_slice(input, position, length)),
    );
}

#[unsafe(no_mangle)]
pub extern "C" fn hns_read_bounded(
    input: &[u8],
    position: usize,
    length: usize,
    maximum: usize,
    answer: &mut [u64],
)
    ensures { answer.new ≡ answered answer.old (slice_row (range_of (bounded_at length maximum input.now position))) }
{
    hns_rows::put_row(
        answer,
        hns_rows::of_slice(hns_encoding::read_bounded(input, position, length, maximum)),
    );
}

#[unsafe(no_mangle)]
pub extern "C" fn hns_read_varbytes(
    input: &[u8],
    position: usize,
    maximum: usize,
    answer: &mut [u64],
)
    ensures { answer.new ≡ answered answer.old (slice_row (range_of (varbytes_at maximum input.now position))) }
{
    hns_rows::put_row(
        answer,
        hns_rows::of_slice(hns_encoding::read_varbytes(input, position, maximum)),
    );
}

#[unsafe(no_mangle)]
pub extern "C" fn hns_finish(input: &[u8], position: usize, answer: &mut [u64])
    ensures { answer.new ≡ answered answer.old (checked_row (finished_of (end_at input.now position))) }
{
    hns_rows::put_row(
        answer,
        hns_rows::of_checked(hns_encoding::finish(input, position)),
    );
}

// Puts at a place, which answer the next place. What does not fit is counted and not stored.
#[unsafe(no_mangle)]
pub extern "C" fn hns_put_u8(value: u8, out: &mut [u8], position: usize) -> usize
    ensures { Put out.old position (value ∷ []) out.new result }
{
    Encoder { position }.put_u8(out, value).position
}

#[unsafe(no_mangle)]
pub extern "C" fn hns_put_u16_le(value: u16, out: &mut [u8], position: usize) -> usize
    ensures { Put out.old position (le_bytes 2 value) out.new result }
{
    Encoder { position }.put_u16_le(out, value).position
}

#[unsafe(no_mangle)]
pub extern "C" fn hns_put_u32_le(value: u32, out: &mut [u8], position: usize) -> usize
    ensures { Put out.old position (le_bytes 4 value) out.new result }
{
    Encoder { position }.put_u32_le(out, value).position
}

#[unsafe(no_mangle)]
pub extern "C" fn hns_put_u64_le(value: u64, out: &mut [u8], position: usize) -> usize
    ensures { Put out.old position (le_bytes 8 value) out.new result }
{
    Encoder { position }.put_u64_le(out, value).position
}

#[unsafe(no_mangle)]
pub extern "C" fn hns_put_compact_size(value: u64, out: &mut [u8], position: usize) -> usize
    ensures { Put out.old position (compact_bytes value) out.new result }
{
    Encoder { position }.put_compact_size(out, value).position
}

#[unsafe(no_mangle)]
pub extern "C" fn hns_put_bytes(value: &[u8], out: &mut [u8], position: usize) -> usize
    ensures { Put out.old position value.now out.new result }
{
    Encoder { position }.put_bytes(out, value).position
}

#[unsafe(no_mangle)]
pub extern "C" fn hns_put_varbytes(value: &[u8], out: &mut [u8], position: usize) -> usize
    ensures { Put out.old position (varbytes value.now) out.new result }
{
    Encoder { position }.put_varbytes(out, value).position
}

// A header alone, and the place after it.
#[tactic(auto, using(hns_header_consensus::proofs::Headers::decoded, hns_header_consensus::proofs::Headers::not_decoded))]
fn decode_header(input: &[u8]) -> Result<(Header, usize), Refusal>
    ensures { result ≡ decoded_of (decode_header input.now) }
{
    let header = Header::decode(input)?;
    Ok((header, HEADER_SIZE))
}

// Headers. Their hashes stand side by side, as crates/hns_header_hashes/specs/Hashes.antt has them.
#[unsafe(no_mangle)]
pub extern "C" fn hns_decode_header(input: &[u8], hashes: &mut [u8], answer: &mut [u64])
    ensures answer_after { answer.new ≡ answered answer.old (header_row (decoded_of (decode_header input.now))) }
    ensures hashes_after { hashes.new ≡ hashes_kept (decoded_of (decode_header input.now)) hashes.old }
{
    hns_header_hashes::keep_hashes(input, hashes);
    hns_rows::put_row(answer, hns_rows::of_header(decode_header(input)));
}

// A header at a place of a longer slice.
#[unsafe(no_mangle)]
pub extern "C" fn hns_read_header(
    input: &[u8],
    position: usize,
    hashes: &mut [u8],
    answer: &mut [u64],
)
    ensures answer_after { answer.new ≡ answered answer.old (header_row (decoded_of (header_at input.now position))) }
    ensures hashes_after { hashes.new ≡ hashes_kept (decoded_of (header_at input.now position)) hashes.old }
{
    hns_header_hashes::keep_hashes_at(input, position, hashes);
    hns_rows::put_row(
        answer,
        hns_rows::of_header(hns_header_consensus::read_header(input, position)),
    );
}

// A hash that is not all there is put as zeros.
#[unsafe(no_mangle)]
pub extern "C" fn hns_put_header(
    nonce: u32,
    time: u64,
    hashes: &[u8],
    version: u32,
    bits: u32,
    out: &mut [u8],
    position: usize,
) -> usize
    ensures { Put out.old position (write header (fields_of (header_from nonce time hashes.now version bits))) out.new result }
{
    let header = hns_header_hashes::header_from(nonce, time, hashes, version, bits);
    header.encode_to(Encoder { position }, out).position
}
