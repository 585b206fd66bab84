//! The 236 bytes of a Handshake header: decode, encode, and a header at a place of a longer slice.
#![tactic(auto)]

ghost use Rattle.std.specs.Prelude.{◌≡◌};
ghost use Rattle.hns_encoding.specs.Format.{write, value_at};
ghost use Rattle.hns_encoding.specs.Put.{Put};
ghost use Rattle.hns_header_consensus.specs.Layout.{header, decode_header, header_at};
ghost use Rattle.hns_header_consensus.specs.Answers.{fields_of, header_of, zero_header, decoded_of, alone_of};

use hns_encoder::Encoder;
use hns_refusals::Refusal;

pub const HEADER_SIZE: usize = 236;

pub const EXTRA_NONCE_SIZE: usize = 24;

#[derive(Clone, Copy, Debug, Default, PartialEq, Eq)]
pub struct Header {
    pub nonce: u32,
    pub time: u64,
    pub previous_block: [u8; 32],
    pub tree_root: [u8; 32],
    pub extra_nonce: [u8; EXTRA_NONCE_SIZE],
    pub reserved_root: [u8; 32],
    pub witness_root: [u8; 32],
    pub merkle_root: [u8; 32],
    pub version: u32,
    pub bits: u32,
    pub mask: [u8; 32],
}

// The header that 236 bytes are.
impl From<&[u8; HEADER_SIZE]> for Header {
    ghost from_gives = { λ block h. h ≡ header_of (value_at header _ block.now 0) };

    #[tactic(auto, using(crate::proofs::Headers::of_block))]
    fn from(block: &[u8; HEADER_SIZE]) -> Header {
        Header {
            nonce: hns_encoding::u32_at(block, 0),
            time: hns_encoding::u64_at(block, 4),
            previous_block: hns_encoding::array_at(block, 12),
            tree_root: hns_encoding::array_at(block, 44),
            extra_nonce: hns_encoding::array_at(block, 76),
            reserved_root: hns_encoding::array_at(block, 100),
            witness_root: hns_encoding::array_at(block, 132),
            merkle_root: hns_encoding::array_at(block, 164),
            version: hns_encoding::u32_at(block, 196),
            bits: hns_encoding::u32_at(block, 200),
            mask: hns_encoding::array_at(block, 204),
        }
    }
}

// A header at a place, and the place after it: one read of 236 bytes. Slice and place are two, as in every read of hns_encoding.
#[tactic(auto, using(crate::proofs::Headers::placed, crate::proofs::Headers::not_placed))]
pub fn read_header(input: &[u8], position: usize) -> Result<(Header, usize), Refusal>
    ensures { result ≡ decoded_of (header_at input.now position) }
{
    let (block, next) = hns_encoding::read_array(input, position)?;
    Ok((Header::from(&block), next))
}

impl Header {
    // The default header, every field zero.
    #[tactic(auto, using(crate::proofs::Headers::all_zero))]
    pub fn zero() -> Header
        ensures { result ≡ zero_header }
    {
        Header::default()
    }

    #[tactic(auto, using(crate::proofs::Headers::alone, crate::proofs::Headers::not_236))]
    pub fn decode(input: &[u8]) -> Result<Header, Refusal>
        ensures { result ≡ alone_of (decode_header input.now) }
    {
        let Ok(block) = <&[u8; HEADER_SIZE]>::try_from(input) else {
            return Err(Refusal::HeaderLength {
                actual: input.len(),
            });
        };
        Ok(Header::from(block))
    }

    // The Rust's name for the 236 bytes, put into an array as into any output: the layout stands once.
    pub fn encode(self) -> [u8; HEADER_SIZE]
        ensures { result ≡ write header (fields_of self) }
    {
        let mut out = [0u8; HEADER_SIZE];
        self.encode_to(Encoder::new(), &mut out);
        out
    }

    // The cursor goes by value beside the lent output, as every put of hns_encoder has it.
    pub fn encode_to(self, encoder: Encoder, out: &mut [u8]) -> Encoder
        ensures { Put out.old encoder.position (write header (fields_of self)) out.new result.position }
    {
        encoder
            .put_u32_le(out, self.nonce)
            .put_u64_le(out, self.time)
            .put_array(out, self.previous_block)
            .put_array(out, self.tree_root)
            .put_array(out, self.extra_nonce)
            .put_array(out, self.reserved_root)
            .put_array(out, self.witness_root)
            .put_array(out, self.merkle_root)
            .put_u32_le(out, self.version)
            .put_u32_le(out, self.bits)
            .put_array(out, self.mask)
    }
}
