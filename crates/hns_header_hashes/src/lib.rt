//! A header for callers in C and Rust: four numbers, and its hashes side by side (specs/Hashes.antt). A place comes beside its slice, as
//! C lends them.
#![tactic(auto)]

ghost use Rattle.std.specs.Prelude.{◌≡◌};
ghost use Rattle.hns_encoding.specs.Put.{splice};
ghost use Rattle.hns_encoding.specs.Format.{value_at};
ghost use Rattle.hns_header_consensus.specs.Layout.{header, decode_header, header_at};
ghost use Rattle.hns_header_consensus.specs.Answers.{header_of, decoded_of};
ghost use Rattle.hns_header_hashes.specs.Hashes.{hashes_of, hashes_kept, header_from};

use hns_encoder::Encoder;
use hns_header_consensus::{HEADER_SIZE, Header};

// The bytes of seven hashes side by side.
const HASHES_SIZE: usize = 216;

// In the 236 bytes they stand in two runs, before version and bits and after. The first is put as two arrays: one of 184 bytes is longer
// than the compiler moves in place.
fn put_hashes(block: &[u8; HEADER_SIZE], out: &mut [u8])
    ensures { out.new ≡ splice out.old 0 (hashes_of (header_of (value_at header _ block.now 0))) }
{
    Encoder::new()
        .put_array::<88>(out, hns_encoding::array_at(block, 12))
        .put_array::<96>(out, hns_encoding::array_at(block, 100))
        .put_array::<32>(out, hns_encoding::array_at(block, 204));
}

// The hashes of a header to the front of `out`; no byte changes where it is refused.
#[tactic(auto, using(crate::proofs::Hashes::kept, crate::proofs::Hashes::not_kept))]
pub fn keep_hashes(input: &[u8], out: &mut [u8])
    ensures { out.new ≡ hashes_kept (decoded_of (decode_header input.now)) out.old }
{
    if let Ok(block) = input.try_into() {
        put_hashes(block, out);
    }
}

#[tactic(auto, using(crate::proofs::Hashes::not_kept_at))]
pub fn keep_hashes_at(input: &[u8], position: usize, out: &mut [u8])
    ensures { out.new ≡ hashes_kept (decoded_of (header_at input.now position)) out.old }
{
    if let Some(block) = hns_encoding::from_place(input, position).first_chunk() {
        put_hashes(block, out);
    }
}

// Inlined, so that no read of a whole block tests its length.
#[inline(always)]
fn header_of(nonce: u32, time: u64, hashes: &[u8], version: u32, bits: u32) -> Header
    ensures { result ≡ header_from nonce time hashes.now version bits }
{
    Header {
        nonce,
        time,
        previous_block: hns_encoding::array_at(hashes, 0),
        tree_root: hns_encoding::array_at(hashes, 32),
        extra_nonce: hns_encoding::array_at(hashes, 64),
        reserved_root: hns_encoding::array_at(hashes, 88),
        witness_root: hns_encoding::array_at(hashes, 120),
        merkle_root: hns_encoding::array_at(hashes, 152),
        version,
        bits,
        mask: hns_encoding::array_at(hashes, 184),
    }
}

// A header from its parts, one by one as C gives them; a hash that is not all there is zeros.
pub fn header_from(nonce: u32, time: u64, hashes: &[u8], version: u32, bits: u32) -> Header
    ensures { result ≡ header_from nonce time hashes.now version bits }
{
    match hashes.first_chunk::<HASHES_SIZE>() {
        Some(block) => header_of(nonce, time, block, version, bits),
        None => header_of(nonce, time, hashes, version, bits),
    }
}
