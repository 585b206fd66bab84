//! The Rust's Decoder: it refers to a payload and keeps a place in it. Each call takes it apart and hands slice and place to hns_encoding.
//! Its methods are the Rust's, one for each read of hns_encoding.
#![tactic(auto)]

ghost use Rattle.std.specs.Prelude.{◌≡◌, ℕ, List};
ghost use Rattle.hns_encoding.specs.Bytes.{Outcome, left, bytes_at, le_at, end_at, to_end};
ghost use Rattle.hns_encoding.specs.Compact.{compact_at, count_at, varbytes_at};
ghost use Rattle.hns_encoding.specs.Answers.{result_of, range_of, finished_of};
ghost use Rattle.hns_encoding.specs.Format.{num, ◌▸◌, read};
ghost use Rattle.hns_decoder.specs.Places.{Reads, NumberRead, SliceRead};
ghost use Rattle.hns_decoder.specs.Answers.{value_of};

use hns_encoding::Slice;
use hns_refusals::Refusal;

#[derive(Clone, Copy, Debug, PartialEq, Eq)]
pub struct Decoder<'a> {
    input: &'a [u8],
    position: usize,
}

impl<'a> Decoder<'a> {
    pub fn new(input: &'a [u8]) -> Decoder<'a>
        ensures { (result.input ≡ input.entry) × (result.position ≡ 0) }
    {
        Decoder { input, position: 0 }
    }

    pub fn position(self) -> usize
        ensures { result ≡ self.entry.position }
    {
        self.position
    }

    pub fn remaining(self) -> usize
        ensures { result ≡ left self.entry.input.now self.entry.position }
    {
        hns_encoding::remaining(self.input, self.position)
    }

    // The value of a read, after which the place moves on; a refused read leaves it where it is.
    fn moved<T>(&mut self, read: Result<(T, usize), Refusal>) -> Result<T, Refusal>
        ensures { (o : Outcome T) → read ≡ result_of o → Reads value_of o self.old result self.new }
    {
        let (value, next) = read?;
        self.position = next;
        Ok(value)
    }

    // The same of bytes, which are answered by where they stand.
    #[tactic(auto, using(crate::proofs::Reading::moves_past, crate::proofs::Reading::stays_before))]
    fn moved_past(&mut self, read: Result<Slice, Refusal>) -> Result<Slice, Refusal>
        ensures { (o : Outcome (List ℕ)) → read ≡ range_of o → Reads range_of o self.old result self.new }
    {
        let bytes = read?;
        self.position = bytes.end;
        Ok(bytes)
    }

    pub fn read_u8(&mut self) -> Result<u8, Refusal>
        ensures { NumberRead (le_at 1) self.old result self.new }
    {
        self.moved(hns_encoding::read_u8(self.input, self.position))
    }

    pub fn read_u16_le(&mut self) -> Result<u16, Refusal>
        ensures { NumberRead (le_at 2) self.old result self.new }
    {
        self.moved(hns_encoding::read_u16_le(self.input, self.position))
    }

    pub fn read_u32_le(&mut self) -> Result<u32, Refusal>
        ensures { NumberRead (le_at 4) self.old result self.new }
    {
        self.moved(hns_encoding::read_u32_le(self.input, self.position))
    }

    pub fn read_u64_le(&mut self) -> Result<u64, Refusal>
        ensures { NumberRead (le_at 8) self.old result self.new }
    {
        self.moved(hns_encoding::read_u64_le(self.input, self.position))
    }

    pub fn read_compact_size(&mut self) -> Result<u64, Refusal>
        ensures { NumberRead compact_at self.old result self.new }
    {
        self.moved(hns_encoding::read_compact_size(self.input, self.position))
    }

    pub fn read_compact_usize(&mut self, maximum: usize) -> Result<u64, Refusal>
        ensures { NumberRead (count_at maximum 0) self.old result self.new }
    {
        self.moved(hns_encoding::read_compact_usize(self.input, self.position, maximum))
    }

    pub fn read_slice(&mut self, length: usize) -> Result<Slice, Refusal>
        ensures { SliceRead (bytes_at length) self.old result self.new }
    {
        self.moved_past(hns_encoding::read_slice(self.input, self.position, length))
    }

    pub fn read_varbytes(&mut self, maximum: usize) -> Result<Slice, Refusal>
        ensures { SliceRead (varbytes_at maximum) self.old result self.new }
    {
        self.moved_past(hns_encoding::read_varbytes(self.input, self.position, maximum))
    }

    pub fn finish(self) -> Result<(), Refusal>
        ensures { result ≡ finished_of (end_at self.entry.input.now self.entry.position) }
    {
        hns_encoding::finish(self.input, self.position)
    }
}

// Type 22: mode 1, version 8, and no byte after them; 21, 22 and 5 are for `admit` to test. It takes a plain slice, as the reads of hns_encoding do.
#[tactic(auto, using(crate::proofs::Reading::end_refused, crate::proofs::Reading::all_read))]
pub fn read_send_compact(payload: &[u8]) -> Result<(u8, u64), Refusal>
    ensures { result ≡ value_of (to_end (read (num 1 ▸ num 8)) payload.now) }
{
    let mut decoder = Decoder::new(payload);
    let mode = decoder.read_u8()?;
    let version = decoder.read_u64_le()?;
    decoder.finish()?;
    Ok((mode, version))
}
