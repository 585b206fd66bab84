//! libhns_ffi.a for callers in C and Rust: each function of hns_ffi, exported with the contract that it has there.
//! A static library exports its own functions alone, so each stands here once more.
#![tactic(auto)]

ghost use Rattle.std.specs.Prelude.{◌≡◌, ◌∷◌, [], length};
ghost use Rattle.hns_encoding.specs.Bytes.{le_bytes, bytes_at, le_at, end_at};
ghost use Rattle.hns_encoding.specs.Compact.{compact_at, compact_bytes, count_at, bounded_at, varbytes_at, varbytes, sizes_at};
ghost use Rattle.hns_encoding.specs.Put.{Put, splice};
ghost use Rattle.hns_encoding.specs.Answers.{result_of, range_of, finished_of, sizes_of};
ghost use Rattle.hns_encoding.specs.Format.{write};
ghost use Rattle.hns_header_consensus.specs.Layout.{header, decode_header, header_at};
ghost use Rattle.hns_header_consensus.specs.Answers.{fields_of, decoded_of};
ghost use Rattle.hns_header_hashes.specs.Hashes.{hashes_kept, header_from};
ghost use Rattle.hns_rows.specs.Rows.{answered, number_row, sizes_row, slice_row, checked_row, header_row};

#[unsafe(no_mangle)]
pub extern "C" fn hns_read_u8(input: &[u8], position: usize, answer: &mut [u64])
    ensures { answer.new ≡ answered answer.old (number_row (result_of (le_at 1 input.now position))) }
{
    hns_ffi::hns_read_u8(input, position, answer);
}

#[unsafe(no_mangle)]
pub extern "C" fn hns_read_u16_le(input: &[u8], position: usize, answer: &mut [u64])
    ensures { answer.new ≡ answered answer.old (number_row (result_of (le_at 2 input.now position))) }
{
    hns_ffi::hns_read_u16_le(input, position, answer);
}

#[unsafe(no_mangle)]
pub extern "C" fn hns_read_u32_le(input: &[u8], position: usize, answer: &mut [u64])
    ensures { answer.new ≡ answered answer.old (number_row (result_of (le_at 4 input.now position))) }
{
    hns_ffi::hns_read_u32_le(input, position, answer);
}

#[unsafe(no_mangle)]
pub extern "C" fn hns_read_u64_le(input: &[u8], position: usize, answer: &mut [u64])
    ensures { answer.new ≡ answered answer.old (number_row (result_of (le_at 8 input.now position))) }
{
    hns_ffi::hns_read_u64_le(input, position, answer);
}

#[unsafe(no_mangle)]
pub extern "C" fn hns_read_compact_size(input: &[u8], position: usize, answer: &mut [u64])
    ensures { answer.new ≡ answered answer.old (number_row (result_of (compact_at input.now position))) }
{
    hns_ffi::hns_read_compact_size(input, position, answer);
}

#[unsafe(no_mangle)]
pub extern "C" fn hns_read_compact_usize(
    input: &[u8],
    position: usize,
    maximum: usize,
    answer: &mut [u64],
)
    ensures { answer.new ≡ answered answer.old (number_row (result_of (count_at maximum 0 input.now position))) }
{
    hns_ffi::hns_read_compact_usize(input, position, maximum, answer);
}

#[unsafe(no_mangle)]
pub extern "C" fn hns_read_compact_sizes(
    input: &[u8],
    position: usize,
    values: &mut [u64],
    answer: &mut [u64],
)
    ensures answer_after { answer.new ≡ answered answer.old (sizes_row (sizes_of (sizes_at (length values.old) input.now position))) }
    ensures values_after { values.new ≡ splice values.old 0 (sizes_at (length values.old) input.now position).values }
{
    hns_ffi::hns_read_compact_sizes(input, position, values, answer);
}

#[unsafe(no_mangle)]
pub extern "C" fn hns_read_slice(input: &[u8], position: usize, length: usize, answer: &mut [u64])
    ensures { answer.new ≡ answered answer.old (slice_row (range_of (bytes_at length input.now position))) }
{
    hns_ffi::hns_read_slice(input, position, length, answer);
}

#[unsafe(no_mangle)]
pub extern "C" fn hns_read_bounded(
    input: &[u8],
    position: usize,
    length: usize,
    maximum: usize,
    answer: &mut [u64],
)
    ensures { answer.new ≡ answered answer.old (slice_row (range_of (bounded_at length maximum input.now position))) }
{
    hns_ffi::hns_read_bounded(input, position, length, maximum, answer);
}

#[unsafe(no_mangle)]
pub extern "C" fn hns_read_varbytes(
    input: &[u8],
    position: usize,
    maximum: usize,
    answer: &mut [u64],
)
    ensures { answer.new ≡ answered answer.old (slice_row (range_of (varbytes_at maximum input.now position))) }
{
    hns_ffi::hns_read_varbytes(input, position, maximum, answer);
}

#[unsafe(no_mangle)]
pub extern "C" fn hns_finish(input: &[u8], position: usize, answer: &mut [u64])
    ensures { answer.new ≡ answered answer.old (checked_row (finished_of (end_at input.now position))) }
{
    hns_ffi::hns_finish(input, position, answer);
}

#[unsafe(no_mangle)]
pub extern "C" fn hns_put_u8(value: u8, out: &mut [u8], position: usize) -> usize
    ensures { Put out.old position (value ∷ []) out.new result }
{
    hns_ffi::hns_put_u8(value, out, position)
}

#[unsafe(no_mangle)]
pub extern "C" fn hns_put_u16_le(value: u16, out: &mut [u8], position: usize) -> usize
    ensures { Put out.old position (le_bytes 2 value) out.new result }
{
    hns_ffi::hns_put_u16_le(value, out, position)
}

#[unsafe(no_mangle)]
pub extern "C" fn hns_put_u32_le(value: u32, out: &mut [u8], position: usize) -> usize
    ensures { Put out.old position (le_bytes 4 value) out.new result }
{
    hns_ffi::hns_put_u32_le(value, out, position)
}

#[unsafe(no_mangle)]
pub extern "C" fn hns_put_u64_le(value: u64, out: &mut [u8], position: usize) -> usize
    ensures { Put out.old position (le_bytes 8 value) out.new result }
{
    hns_ffi::hns_put_u64_le(value, out, position)
}

#[unsafe(no_mangle)]
pub extern "C" fn hns_put_compact_size(value: u64, out: &mut [u8], position: usize) -> usize
    ensures { Put out.old position (compact_bytes value) out.new result }
{
    hns_ffi::hns_put_compact_size(value, out, position)
}

#[unsafe(no_mangle)]
pub extern "C" fn hns_put_bytes(value: &[u8], out: &mut [u8], position: usize) -> usize
    ensures { Put out.old position value.now out.new result }
{
    hns_ffi::hns_put_bytes(value, out, position)
}

#[unsafe(no_mangle)]
pub extern "C" fn hns_put_varbytes(value: &[u8], out: &mut [u8], position: usize) -> usize
    ensures { Put out.old position (varbytes value.now) out.new result }
{
    hns_ffi::hns_put_varbytes(value, out, position)
}

#[unsafe(no_mangle)]
pub extern "C" fn hns_decode_header(input: &[u8], hashes: &mut [u8], answer: &mut [u64])
    ensures answer_after { answer.new ≡ answered answer.old (header_row (decoded_of (decode_header input.now))) }
    ensures hashes_after { hashes.new ≡ hashes_kept (decoded_of (decode_header input.now)) hashes.old }
{
    hns_ffi::hns_decode_header(input, hashes, answer);
}

#[unsafe(no_mangle)]
pub extern "C" fn hns_read_header(
    input: &[u8],
    position: usize,
    hashes: &mut [u8],
    answer: &mut [u64],
)
    ensures answer_after { answer.new ≡ answered answer.old (header_row (decoded_of (header_at input.now position))) }
    ensures hashes_after { hashes.new ≡ hashes_kept (decoded_of (header_at input.now position)) hashes.old }
{
    hns_ffi::hns_read_header(input, position, hashes, answer);
}

#[unsafe(no_mangle)]
pub extern "C" fn hns_put_header(
    nonce: u32,
    time: u64,
    hashes: &[u8],
    version: u32,
    bits: u32,
    out: &mut [u8],
    position: usize,
) -> usize
    ensures { Put out.old position (write header (fields_of (header_from nonce time hashes.now version bits))) out.new result }
{
    hns_ffi::hns_put_header(nonce, time, hashes, version, bits, out, position)
}
