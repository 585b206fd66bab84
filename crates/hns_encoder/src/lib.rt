//! Puts by a cursor beside a lent output: the project's rule for outputs, which C lends as a slice and a place.
#![tactic(auto)]

ghost use Rattle.std.specs.Prelude.{◌≡◌, ◌∷◌, [], ◌≤◌};
ghost use Rattle.hns_encoding.specs.Bytes.{le_bytes};
ghost use Rattle.hns_encoding.specs.Compact.{compact_bytes, varbytes};
ghost use Rattle.hns_encoding.specs.Put.{Put};

// The place of the next byte of an output that is lent beside it: by value, since each put hands the next cursor back.
#[derive(Clone, Copy, Debug, PartialEq, Eq)]
pub struct Encoder {
    pub position: usize,
}

impl Encoder {
    pub fn new() -> Encoder
        ensures { result.position ≡ 0 }
    {
        Encoder { position: 0 }
    }

    // Bytes that do not fit are counted and not stored, here and in every other put.
    pub fn put_bytes(self, out: &mut [u8], value: &[u8]) -> Encoder
        ensures { Put out.old self.position value.now out.new result.position }
    {
        hns_encoding::put_at(out, self.position, value);
        Encoder {
            position: self.position.saturating_add(value.len()),
        }
    }

    // Apart, so that the array goes to memory only where it does not fit.
    #[cold]
    #[inline(never)]
    fn put_cut<const N: usize>(self, out: &mut [u8], array: [u8; N]) -> Encoder
        ensures { Put out.old self.position array.entry out.new result.position }
    {
        self.put_bytes(out, &array)
    }

    // One test of the whole width, and a copy of a known number.
    pub fn put_array<const N: usize>(self, out: &mut [u8], array: [u8; N]) -> Encoder
        ensures { Put out.old self.position array.entry out.new result.position }
    {
        let at = self.position.min(out.len());
        if out.len() - at < N {
            return self.put_cut(out, array);
        }
        out[at..at + N].copy_from_slice(&array);
        Encoder {
            position: self.position + N,
        }
    }

    // No array: a byte is never cut, and put_compact_size is faster where its first byte calls nothing.
    #[tactic(auto, using(hns_encoding::proofs::Puts::byte_fits, hns_encoding::proofs::Puts::byte_past))]
    pub fn put_u8(self, out: &mut [u8], value: u8) -> Encoder
        ensures { Put out.old self.position (value ∷ []) out.new result.position }
    {
        if self.position < out.len() {
            out[self.position] = value;
        }
        Encoder {
            position: self.position.saturating_add(1),
        }
    }

    // The Rust's puts of a number: one for each type, since the conversion is the type's own method.
    pub fn put_u16_le(self, out: &mut [u8], value: u16) -> Encoder
        ensures { Put out.old self.position (le_bytes 2 value) out.new result.position }
    {
        self.put_array::<2>(out, value.to_le_bytes())
    }

    pub fn put_u32_le(self, out: &mut [u8], value: u32) -> Encoder
        ensures { Put out.old self.position (le_bytes 4 value) out.new result.position }
    {
        self.put_array::<4>(out, value.to_le_bytes())
    }

    pub fn put_u64_le(self, out: &mut [u8], value: u64) -> Encoder
        ensures { Put out.old self.position (le_bytes 8 value) out.new result.position }
    {
        self.put_array::<8>(out, value.to_le_bytes())
    }

    // Apart, so that a compact size of one byte is small enough to stand in its caller's loop.
    #[inline(never)]
    fn put_wide(self, out: &mut [u8], value: u64) -> Encoder
        requires { 253 ≤ value }
        ensures { Put out.old self.position (compact_bytes value) out.new result.position }
    {
        if value < 65_536 {
            return self.put_u8(out, 253).put_u16_le(out, value as u16);
        }
        if value < 4_294_967_296 {
            return self.put_u8(out, 254).put_u32_le(out, value as u32);
        }
        self.put_u8(out, 255).put_u64_le(out, value)
    }

    #[inline(always)]
    #[tactic(auto, using(hns_encoding::proofs::Forms::byte_alone))]
    pub fn put_compact_size(self, out: &mut [u8], value: u64) -> Encoder
        ensures { Put out.old self.position (compact_bytes value) out.new result.position }
    {
        if value < 253 {
            return self.put_u8(out, value as u8);
        }
        self.put_wide(out, value)
    }

    // A compact size and as many bytes.
    pub fn put_varbytes(self, out: &mut [u8], value: &[u8]) -> Encoder
        ensures { Put out.old self.position (varbytes value.now) out.new result.position }
    {
        let counted = self.put_compact_size(out, value.len() as u64);
        counted.put_bytes(out, value)
    }
}
