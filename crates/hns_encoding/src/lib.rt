//! Little-endian wire encoding: reads on a slice and a place. A read answers its value and the place after it, or the refusal.
//! Place beside slice, and not a slice that gets shorter: C lends them so, and a refusal names the place.
#![tactic(auto)]

ghost use Rattle.std.specs.Prelude.{◌≡◌, ◌-◌, ◌<◌, length, take, drop};
ghost use Rattle.hns_refusals.specs.Refusals.{unexpected_end};
ghost use Rattle.hns_encoding.specs.Bytes.{choose, left, bytes_at, le_at, number_at, raw_at, end_at};
ghost use Rattle.hns_encoding.specs.Compact.{compact_from, compact_at, count_at, bounded_at, varbytes_at, sizes_at};
ghost use Rattle.hns_encoding.specs.Put.{splice};
ghost use Rattle.hns_encoding.specs.Answers.{result_of, range_of, finished_of, sizes_of};
ghost use Rattle.hns_encoding.specs.Helpers.{by_form};

use hns_refusals::Refusal;

// How many bytes stand from a place on: none past the end.
pub fn remaining(input: &[u8], position: usize) -> usize
    ensures { result ≡ left input.now position }
{
    input.len().saturating_sub(position)
}

// The first n bytes, or all where there are fewer.
pub fn first(bytes: &[u8], n: usize) -> &[u8]
    ensures { result.now ≡ take n bytes.now }
{
    &bytes[..n.min(bytes.len())]
}

// The bytes from a place on, none past the end.
pub fn from_place(bytes: &[u8], at: usize) -> &[u8]
    ensures { result.now ≡ drop at bytes.now }
{
    &bytes[at.min(bytes.len())..]
}

// The bytes to a place of an output on, as many as fit. A loop, which compiles to wide moves in place: `copy_from_slice` of a length that
// is not known calls memmove, which no archive for C is to need from outside.
#[tactic(auto, using(crate::proofs::Puts::pasted))]
pub fn put_at(out: &mut [u8], at: usize, bytes: &[u8])
    ensures { out.new ≡ splice out.old at bytes.now }
{
    let n = bytes.len().min(remaining(out, at));
    for i in 0..n {
        out[at + i] = bytes[i];
    }
}

pub fn put_front(out: &mut [u8], bytes: &[u8])
    ensures { out.new ≡ splice out.old 0 bytes.now }
{
    put_at(out, 0, bytes);
}

// The N bytes at a place, or zeros where they are not all there.
#[tactic(auto, using(crate::proofs::Reading::array_there, crate::proofs::Reading::array_missing))]
pub fn array_at<const N: usize>(input: &[u8], at: usize) -> [u8; N]
    ensures { result ≡ raw_at N input.now at }
{
    match from_place(input, at).first_chunk() {
        Some(bytes) => *bytes,
        None => [0; N],
    }
}

// The number of so many bytes at a place, or 0 where they are not all there: one for each type, since the conversion is the
// type's own method.
pub fn u8_at(input: &[u8], at: usize) -> u8
    ensures { result ≡ number_at 1 input.now at }
{
    u8::from_le_bytes(array_at(input, at))
}

pub fn u16_at(input: &[u8], at: usize) -> u16
    ensures { result ≡ number_at 2 input.now at }
{
    u16::from_le_bytes(array_at(input, at))
}

pub fn u32_at(input: &[u8], at: usize) -> u32
    ensures { result ≡ number_at 4 input.now at }
{
    u32::from_le_bytes(array_at(input, at))
}

pub fn u64_at(input: &[u8], at: usize) -> u64
    ensures { result ≡ number_at 8 input.now at }
{
    u64::from_le_bytes(array_at(input, at))
}

// The bytes end in a field of so many bytes at a place.
fn too_short(input: &[u8], position: usize, length: usize) -> Refusal
    requires { left input.now position < length }
    ensures { result ≡ unexpected_end position (length - left input.now position) }
{
    Refusal::UnexpectedEnd {
        offset: position,
        missing: length - remaining(input, position),
    }
}

// Where bytes that were read stand. The library's Range is no Copy, and what a read answers is.
#[derive(Clone, Copy, Debug, PartialEq, Eq)]
pub struct Slice {
    pub start: usize,
    pub end: usize,
}

// Where n bytes stand.
#[tactic(auto, using(crate::proofs::Reading::range_fits, crate::proofs::Reading::range_short))]
pub fn read_slice(input: &[u8], position: usize, length: usize) -> Result<Slice, Refusal>
    ensures { result ≡ range_of (bytes_at length input.now position) }
{
    if remaining(input, position) < length {
        return Err(too_short(input, position, length));
    }
    Ok(Slice {
        start: position,
        end: position + length,
    })
}

// N bytes and the place after them.
#[tactic(auto, using(crate::proofs::Reading::array_read, crate::proofs::Reading::array_short))]
pub fn read_array<const N: usize>(
    input: &[u8],
    position: usize,
) -> Result<([u8; N], usize), Refusal>
    ensures { result ≡ result_of (bytes_at N input.now position) }
{
    match from_place(input, position).first_chunk() {
        Some(bytes) => Ok((*bytes, position + N)),
        None => Err(too_short(input, position, N)),
    }
}

// The Rust's four reads of a number: one for each type, since the conversion is the type's own method.
#[tactic(auto, using(crate::proofs::Reading::ends_answer), unfolding(crate::specs::Bytes::le_at))]
pub fn read_u8(input: &[u8], position: usize) -> Result<(u8, usize), Refusal>
    ensures { result ≡ result_of (le_at 1 input.now position) }
{
    let (bytes, next) = read_array(input, position)?;
    Ok((u8::from_le_bytes(bytes), next))
}

#[tactic(auto, using(crate::proofs::Reading::ends_answer), unfolding(crate::specs::Bytes::le_at))]
pub fn read_u16_le(input: &[u8], position: usize) -> Result<(u16, usize), Refusal>
    ensures { result ≡ result_of (le_at 2 input.now position) }
{
    let (bytes, next) = read_array(input, position)?;
    Ok((u16::from_le_bytes(bytes), next))
}

#[tactic(auto, using(crate::proofs::Reading::ends_answer), unfolding(crate::specs::Bytes::le_at))]
pub fn read_u32_le(input: &[u8], position: usize) -> Result<(u32, usize), Refusal>
    ensures { result ≡ result_of (le_at 4 input.now position) }
{
    let (bytes, next) = read_array(input, position)?;
    Ok((u32::from_le_bytes(bytes), next))
}

#[tactic(auto, using(crate::proofs::Reading::ends_answer), unfolding(crate::specs::Bytes::le_at))]
pub fn read_u64_le(input: &[u8], position: usize) -> Result<(u64, usize), Refusal>
    ensures { result ≡ result_of (le_at 8 input.now position) }
{
    let (bytes, next) = read_array(input, position)?;
    Ok((u64::from_le_bytes(bytes), next))
}

// Not a branch once it is compiled.
pub fn pick(test: bool, a: u64, b: u64) -> u64
    ensures { result ≡ choose test a b }
{
    if test { a } else { b }
}

// One of three by a first byte of 253 or more. Picked, since which form comes next can't be foreseen.
#[tactic(auto, unfolding(crate::specs::Helpers::by_form))]
fn by_form(first: u64, two: u64, four: u64, eight: u64) -> u64
    ensures { result ≡ by_form first two four eight }
{
    pick(first == 253, two, pick(first == 254, four, eight))
}

// What the first byte of a compact size says of the rest.
#[tactic(auto, using(crate::proofs::Reading::first_is_all))]
fn compact_from(input: &[u8], first: u64, next: usize) -> Result<(u64, usize), Refusal>
    ensures { result ≡ result_of (compact_from first input.now next) }
{
    if first < 253 {
        return Ok((first, next));
    }
    let two = u64::from(u16_at(input, next));
    let four = u64::from(u32_at(input, next));
    let value = by_form(first, two, four, u64_at(input, next));
    let width = by_form(first, 2, 4, 8);
    let least = by_form(first, 253, 65_536, 4_294_967_296);
    let end = read_slice(input, next, width as usize)?.end;
    if value < least {
        return Err(Refusal::NotShortest { bits: 8 * width });
    }
    Ok((value, end))
}

#[tactic(auto, using(crate::proofs::Reading::ends_answer, crate::proofs::Reading::compact_read), unfolding(crate::specs::Compact::compact_at))]
pub fn read_compact_size(input: &[u8], position: usize) -> Result<(u64, usize), Refusal>
    ensures { result ≡ result_of (compact_at input.now position) }
{
    let (first, next) = read_u8(input, position)?;
    compact_from(input, u64::from(first), next)
}

// How many compact sizes were read, and the place after them.
#[derive(Clone, Copy, Debug, PartialEq, Eq)]
pub struct Sizes {
    pub count: usize,
    pub next: usize,
}

// Compact sizes one after another, as many as `values` has places for, up to the first that is refused: a read at `next` says why.
pub fn read_compact_sizes(input: &[u8], position: usize, values: &mut [u64]) -> Sizes
    ensures value { result ≡ sizes_of (sizes_at (length values.old) input.now position) }
    ensures values_after { values.new ≡ splice values.old 0 (sizes_at (length values.old) input.now position).values }
{
    let mut next = position;
    for (count, place) in values.iter_mut().enumerate() {
        match read_compact_size(input, next) {
            Err(_) => return Sizes { count, next },
            Ok((value, after)) => {
                *place = value;
                next = after;
            }
        }
    }
    let count = values.len();
    Sizes { count, next }
}

// A compact size of at most `limit`: 7 carries the code of its field, a number, since a narrower type would ask more of callers.
#[tactic(auto, using(crate::proofs::Reading::ends_answer, crate::proofs::Reading::count_fits, crate::proofs::Reading::count_over), unfolding(crate::specs::Compact::count_at))]
pub fn read_count(
    input: &[u8],
    position: usize,
    limit: u64,
    field: u64,
) -> Result<(u64, usize), Refusal>
    ensures { result ≡ result_of (count_at limit field input.now position) }
{
    let (value, next) = read_compact_size(input, position)?;
    if limit < value {
        return Err(Refusal::OverLimit {
            actual: value,
            maximum: limit,
            field,
        });
    }
    Ok((value, next))
}

// The Rust's read, which has no field code.
pub fn read_compact_usize(
    input: &[u8],
    position: usize,
    maximum: usize,
) -> Result<(u64, usize), Refusal>
    ensures { result ≡ result_of (count_at maximum 0 input.now position) }
{
    read_count(input, position, maximum as u64, 0)
}

// The Rust's read_bounded_vec, which has no field code either: n bytes, of at most `maximum`.
#[tactic(auto, using(crate::proofs::Reading::bounded_fits, crate::proofs::Reading::bounded_over))]
pub fn read_bounded(
    input: &[u8],
    position: usize,
    length: usize,
    maximum: usize,
) -> Result<Slice, Refusal>
    ensures { result ≡ range_of (bounded_at length maximum input.now position) }
{
    if maximum < length {
        return Err(Refusal::OverLimit {
            actual: length as u64,
            maximum: maximum as u64,
            field: 0,
        });
    }
    read_slice(input, position, length)
}

// A compact size of at most `maximum`, and as many bytes.
#[tactic(auto, using(crate::proofs::Reading::varbytes_ends, crate::proofs::Reading::varbytes_read))]
pub fn read_varbytes(input: &[u8], position: usize, maximum: usize) -> Result<Slice, Refusal>
    ensures { result ≡ range_of (varbytes_at maximum input.now position) }
{
    let (length, next) = read_compact_usize(input, position, maximum)?;
    read_bounded(input, next, length as usize, maximum)
}

// No byte may be left from `position` on.
#[tactic(auto, using(crate::proofs::Reading::finish_done, crate::proofs::Reading::finish_left))]
pub fn finish(input: &[u8], position: usize) -> Result<(), Refusal>
    ensures { result ≡ finished_of (end_at input.now position) }
{
    let remaining = remaining(input, position);
    if remaining == 0 {
        Ok(())
    } else {
        Err(Refusal::TrailingBytes { remaining })
    }
}
