//! What stands at the places of a packet, as the bytes and records that the writers take.
#![tactic(auto)]

ghost use Rattle.std.specs.Prelude.{◌≡◌};
ghost use Rattle.hns_p2p_fields.specs.Fields.{ip_in, address_fields_in, version_fields_in, hash_in};

use hns_encoder::Encoder;
use hns_p2p_block_puts::{AddressFields, VersionFields};
use hns_p2p_types::{NetAddress, VersionPacket};

// Put into zeros, as std joins no arrays without a heap; and no u128, since what is promised is the bytes of two numbers.
fn ip_bytes(first: u64, last: u64) -> [u8; 16]
    ensures { result ≡ ip_in first last }
{
    let mut ip = [0u8; 16];
    let e = Encoder::new().put_u64_le(&mut ip, first);
    e.put_u64_le(&mut ip, last);
    ip
}

#[tactic(auto, unfolding(crate::specs::Fields::address_fields_in))]
pub fn address_fields(payload: &[u8], address: NetAddress) -> AddressFields
    ensures { result ≡ address_fields_in payload.now address }
{
    AddressFields {
        time: address.time,
        services: address.services,
        ip: ip_bytes(address.ip_first, address.ip_last),
        port: address.port,
        key: hns_encoding::array_at(payload, address.key),
    }
}

#[tactic(auto, unfolding(crate::specs::Fields::version_fields_in))]
pub fn version_fields(payload: &[u8], version: VersionPacket) -> VersionFields
    ensures { result ≡ version_fields_in payload.now version }
{
    VersionFields {
        version: version.version,
        services: version.services,
        time: version.time,
        remote: address_fields(payload, version.remote),
        nonce: version.nonce,
        height: version.height,
        no_relay: version.no_relay,
    }
}

// The hash at its place, if it has one.
pub fn hash_at(payload: &[u8], hash: Option<usize>) -> Option<[u8; 32]>
    ensures { result ≡ hash_in payload.now hash }
{
    let place = hash?;
    Some(hns_encoding::array_at(payload, place))
}
