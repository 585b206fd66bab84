//! The Rust's genesis_header of each network, for test programs.
#![tactic(auto)]

ghost use Rattle.std.specs.Prelude.{◌≡◌};
ghost use Rattle.genesis_headers.specs.Genesis.{genesis_time, genesis_bits};

use hns_header_consensus::Header;
use hns_p2p_frame::NetworkMagic;

pub const NETWORKS: [(&str, NetworkMagic); 4] = [
    ("mainnet", NetworkMagic::Mainnet),
    ("testnet", NetworkMagic::Testnet),
    ("regtest", NetworkMagic::Regtest),
    ("simnet", NetworkMagic::Simnet),
];

// Only time and bits differ from one network to another. It has the Rust's name, and no From could stand here: both types are other
// crates'.
#[tactic(auto, unfolding(crate::specs::Genesis::genesis_time, crate::specs::Genesis::genesis_bits))]
pub fn genesis_header(network: NetworkMagic) -> Header
    ensures { (result.time ≡ genesis_time network) × (result.bits ≡ genesis_bits network) }
{
    let (time, bits) = match network {
        NetworkMagic::Mainnet => (1_580_745_078, 0x1c00_ffff),
        NetworkMagic::Testnet => (1_580_745_079, 0x1d00_ffff),
        NetworkMagic::Regtest => (1_580_745_080, 0x207f_ffff),
        NetworkMagic::Simnet => (1_580_745_081, 0x207f_ffff),
    };
    Header {
        time,
        bits,
        witness_root: *b"\x1a\x2c\x60\xb9\x43\x92\x06\x93\x8f\x8d\x78\x23\x78\x2a\xbd\xb8\xb2\x11\xa5\x74\x31\xe9\xc9\xb6\xa6\x36\x5d\x8d\x42\x89\x33\x51",
        merkle_root: *b"\x8e\x4c\x97\x56\xfe\xf2\xad\x10\x37\x5f\x36\x0e\x05\x60\xfc\xc7\x58\x7e\xb5\x22\x3d\xdf\x8c\xd7\xc7\xe0\x6e\x60\xa1\x14\x0b\x15",
        ..Header::default()
    }
}
