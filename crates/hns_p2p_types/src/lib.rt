//! The types of packets, and what a packet reads as: numbers, and places of the payload.
#![tactic(auto)]

ghost use Rattle.std.specs.Prelude.{◌≡◌};
ghost use Rattle.hns_p2p_types.specs.Protocol.{carries_hash};
ghost use Rattle.hns_p2p_types.specs.Packets.{signed_bits};
ghost use Rattle.hns_p2p_types.specs.Types.{type_of, type_number, kind_of, kind_number};

pub const MAX_INVENTORY_ITEMS: usize = 50_000;

pub const MAX_LOCATOR_HASHES: usize = MAX_INVENTORY_ITEMS;

pub const MAX_HEADERS: usize = 2_000;

pub const MAX_ADDR_ITEMS: usize = 1_000;

pub const MAX_USER_AGENT_SIZE: usize = 255;

pub const MAX_REJECT_REASON_SIZE: usize = 255;

pub const MAX_COMPACT_BLOCK_TRANSACTIONS: usize = 16_662;

pub const NET_ADDRESS_SIZE: usize = 88;

#[derive(Clone, Copy, Debug, PartialEq, Eq)]
pub enum PacketType {
    Version,
    Verack,
    Ping,
    Pong,
    GetAddr,
    Addr,
    Inv,
    GetData,
    NotFound,
    GetBlocks,
    GetHeaders,
    Headers,
    SendHeaders,
    Block,
    Tx,
    Reject,
    Mempool,
    FilterLoad,
    FilterAdd,
    FilterClear,
    MerkleBlock,
    FeeFilter,
    SendCmpct,
    CmpctBlock,
    GetBlockTxn,
    BlockTxn,
    GetProof,
    Proof,
    Claim,
    Airdrop,
    Unknown(u8),
}

// By hand, since Unknown carries its number: no cast of an enum gives it.
impl From<PacketType> for u8 {
    ghost from_gives = { λ t n. n ≡ type_number t };

    #[tactic(auto, unfolding(crate::specs::Types::type_number))]
    fn from(packet_type: PacketType) -> u8 {
        match packet_type {
            PacketType::Version => 0,
            PacketType::Verack => 1,
            PacketType::Ping => 2,
            PacketType::Pong => 3,
            PacketType::GetAddr => 4,
            PacketType::Addr => 5,
            PacketType::Inv => 6,
            PacketType::GetData => 7,
            PacketType::NotFound => 8,
            PacketType::GetBlocks => 9,
            PacketType::GetHeaders => 10,
            PacketType::Headers => 11,
            PacketType::SendHeaders => 12,
            PacketType::Block => 13,
            PacketType::Tx => 14,
            PacketType::Reject => 15,
            PacketType::Mempool => 16,
            PacketType::FilterLoad => 17,
            PacketType::FilterAdd => 18,
            PacketType::FilterClear => 19,
            PacketType::MerkleBlock => 20,
            PacketType::FeeFilter => 21,
            PacketType::SendCmpct => 22,
            PacketType::CmpctBlock => 23,
            PacketType::GetBlockTxn => 24,
            PacketType::BlockTxn => 25,
            PacketType::GetProof => 26,
            PacketType::Proof => 27,
            PacketType::Claim => 28,
            PacketType::Airdrop => 29,
            PacketType::Unknown(value) => value,
        }
    }
}

// A byte of the wire becomes a type: no derive makes it, since every other number is Unknown.
impl From<u8> for PacketType {
    ghost from_gives = { λ n t. t ≡ type_of n };

    #[tactic(auto, unfolding(crate::specs::Types::type_of, crate::specs::Types::types))]
    fn from(value: u8) -> PacketType {
        match value {
            0 => PacketType::Version,
            1 => PacketType::Verack,
            2 => PacketType::Ping,
            3 => PacketType::Pong,
            4 => PacketType::GetAddr,
            5 => PacketType::Addr,
            6 => PacketType::Inv,
            7 => PacketType::GetData,
            8 => PacketType::NotFound,
            9 => PacketType::GetBlocks,
            10 => PacketType::GetHeaders,
            11 => PacketType::Headers,
            12 => PacketType::SendHeaders,
            13 => PacketType::Block,
            14 => PacketType::Tx,
            15 => PacketType::Reject,
            16 => PacketType::Mempool,
            17 => PacketType::FilterLoad,
            18 => PacketType::FilterAdd,
            19 => PacketType::FilterClear,
            20 => PacketType::MerkleBlock,
            21 => PacketType::FeeFilter,
            22 => PacketType::SendCmpct,
            23 => PacketType::CmpctBlock,
            24 => PacketType::GetBlockTxn,
            25 => PacketType::BlockTxn,
            26 => PacketType::GetProof,
            27 => PacketType::Proof,
            28 => PacketType::Claim,
            29 => PacketType::Airdrop,
            30.. => PacketType::Unknown(value),
        }
    }
}

// Whether a reject of this type carries a hash: a block's, a transaction's, a claim's or an airdrop's does. By the byte, as a packet
// has it: from a `PacketType` the check does not find the number back.
#[tactic(auto, unfolding(crate::specs::Protocol::carries_hash))]
pub fn carries_reject_hash(packet_type: u8) -> bool
    ensures { result ≡ carries_hash packet_type }
{
    matches!(packet_type, 13 | 14 | 28 | 29)
}

// Two's complement of a fee rate, as it stands in the payload: the library's conversion, by the document's definition. No From: the
// library has none between these types.
#[tactic(auto, using(crate::proofs::Signed::bits_same))]
pub fn signed_bits(rate: i64) -> u64
    ensures { result ≡ signed_bits rate }
{
    rate.cast_unsigned()
}

#[derive(Clone, Copy, Debug, PartialEq, Eq)]
pub enum InventoryKind {
    Transaction,
    Block,
    FilteredBlock,
    CompactBlock,
    Claim,
    Airdrop,
    Unknown(u32),
}

// By hand for the same reason as a packet's type, and so is the way back.
impl From<InventoryKind> for u32 {
    ghost from_gives = { λ k n. n ≡ kind_number k };

    #[tactic(auto, unfolding(crate::specs::Types::kind_number))]
    fn from(kind: InventoryKind) -> u32 {
        match kind {
            InventoryKind::Transaction => 1,
            InventoryKind::Block => 2,
            InventoryKind::FilteredBlock => 3,
            InventoryKind::CompactBlock => 4,
            InventoryKind::Claim => 5,
            InventoryKind::Airdrop => 6,
            InventoryKind::Unknown(value) => value,
        }
    }
}

impl From<u32> for InventoryKind {
    ghost from_gives = { λ n k. k ≡ kind_of n };

    #[tactic(auto, unfolding(crate::specs::Types::kind_of, crate::specs::Types::kinds))]
    fn from(value: u32) -> InventoryKind {
        match value {
            1 => InventoryKind::Transaction,
            2 => InventoryKind::Block,
            3 => InventoryKind::FilteredBlock,
            4 => InventoryKind::CompactBlock,
            5 => InventoryKind::Claim,
            6 => InventoryKind::Airdrop,
            _ => InventoryKind::Unknown(value),
        }
    }
}

// Bytes of the payload: where they begin, and how many. A place and no slice, here and in what follows: a row for C takes numbers.
#[derive(Clone, Copy, Debug, Default, PartialEq, Eq)]
pub struct Span {
    pub start: usize,
    pub length: usize,
}

// Items under a count: how many, and where the first one begins. Apart from Span: a count of records, not of bytes.
#[derive(Clone, Copy, Debug, PartialEq, Eq)]
pub struct Items {
    pub count: usize,
    pub first: usize,
}

// The ip is two little-endian numbers, of its first and of its last 8 bytes, zeros where the host kind is not 0; the key is
// 33 bytes of the payload from a place on.
#[derive(Clone, Copy, Debug, Default, PartialEq, Eq)]
pub struct NetAddress {
    pub time: u64,
    pub services: u64,
    pub ip_first: u64,
    pub ip_last: u64,
    pub port: u16,
    pub key: usize,
}

#[derive(Clone, Copy, Debug, PartialEq, Eq)]
pub struct VersionPacket {
    pub version: u32,
    pub services: u64,
    pub time: u64,
    pub remote: NetAddress,
    pub nonce: u64,
    pub agent: Span,
    pub height: u32,
    pub no_relay: bool,
}

#[derive(Clone, Copy, Debug, PartialEq, Eq)]
pub struct LocatorPacket {
    pub locator: Items,
    pub stop: usize,
}

// The hash is 32 bytes of the payload from a place on, if there is one. The message is a byte, as the payload has it.
#[derive(Clone, Copy, Debug, PartialEq, Eq)]
pub struct RejectPacket {
    pub message: u8,
    pub code: u8,
    pub reason: Span,
    pub hash: Option<usize>,
}

#[derive(Clone, Copy, Debug, PartialEq, Eq)]
pub struct GetProofPacket {
    pub root: usize,
    pub key: usize,
}

#[derive(Clone, Copy, Debug, PartialEq, Eq)]
pub struct CompactBlockRequest {
    pub block_hash: usize,
    pub indexes: Items,
}

// The packet that a payload reads as. A type that is unknown stays the byte that it is.
#[derive(Clone, Copy, Debug, PartialEq, Eq)]
pub enum Packet {
    Version(VersionPacket),
    Verack,
    Ping(u64),
    Pong(u64),
    GetAddr,
    Addr(Items),
    Inv(Items),
    GetData(Items),
    NotFound(Items),
    GetBlocks(LocatorPacket),
    GetHeaders(LocatorPacket),
    Headers(Items),
    SendHeaders,
    Block(Span),
    Tx(Span),
    Reject(RejectPacket),
    Mempool,
    FilterLoad(Span),
    FilterAdd(Span),
    FilterClear,
    MerkleBlock(Span),
    FeeFilter(i64),
    SendCmpct { mode: u8, version: u64 },
    CmpctBlock(Span),
    GetBlockTxn(CompactBlockRequest),
    BlockTxn(Span),
    GetProof(GetProofPacket),
    Proof(Span),
    Claim(Span),
    Airdrop(Span),
    Unknown { packet_type: u8, payload: Span },
}

// An item under a count, fetched by its place in the list: numbers, and places of the payload. A kind is the wire's number, as
// a row for C has it, and `InventoryKind::from` names it.
#[derive(Clone, Copy, Debug, PartialEq, Eq)]
pub enum Item {
    Address(NetAddress),
    Inventory { kind: u32, hash: usize },
    Hash(usize),
    Header(usize),
    Index(u64),
}

// The items under the count of a payload, by what they are.
#[derive(Clone, Copy, Debug, PartialEq, Eq)]
pub enum Listing {
    Addresses(Items),
    Inventory(Items),
    Hashes(Items),
    Headers(Items),
    Indexes(Items),
    Nothing,
}
