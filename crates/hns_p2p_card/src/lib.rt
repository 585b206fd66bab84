//! Document 01, 'Length card': by type, the least and the greatest length of a payload that is accepted.
#![tactic(auto)]

ghost use Rattle.std.specs.Prelude.{◌≡◌};
ghost use Rattle.hns_p2p_card.specs.Card.{card_row};

// Two lengths, by the document's names: C's row has both.
#[derive(Clone, Copy, Debug, PartialEq, Eq)]
pub struct Row {
    pub least: usize,
    pub greatest: usize,
}

const VERSION: Row = Row {
    least: 122,
    greatest: 377,
};

const EMPTY: Row = Row {
    least: 0,
    greatest: 0,
};

// One number of 8 bytes.
const NUMBER: Row = Row {
    least: 8,
    greatest: 8,
};

const ADDRESSES: Row = Row {
    least: 1,
    greatest: 88_003,
};

const INVENTORY: Row = Row {
    least: 1,
    greatest: 1_800_003,
};

const LOCATOR: Row = Row {
    least: 33,
    greatest: 1_600_035,
};

const HEADERS: Row = Row {
    least: 1,
    greatest: 472_003,
};

const REJECT: Row = Row {
    least: 3,
    greatest: 290,
};

const SENDCMPCT: Row = Row {
    least: 9,
    greatest: 9,
};

const GETBLOCKTXN: Row = Row {
    least: 33,
    greatest: 17_083,
};

const GETPROOF: Row = Row {
    least: 64,
    greatest: 64,
};

// Raw, and carried as bytes.
const RAW: Row = Row {
    least: 0,
    greatest: 8_000_000,
};

// Types 0 to 29 in order.
const CARD: [Row; 30] = [
    VERSION,
    EMPTY,
    NUMBER,
    NUMBER,
    EMPTY,
    ADDRESSES,
    INVENTORY,
    INVENTORY,
    INVENTORY,
    LOCATOR,
    LOCATOR,
    HEADERS,
    EMPTY,
    RAW,
    RAW,
    REJECT,
    EMPTY,
    RAW,
    RAW,
    EMPTY,
    RAW,
    NUMBER,
    SENDCMPCT,
    RAW,
    GETBLOCKTXN,
    RAW,
    GETPROOF,
    RAW,
    RAW,
    RAW,
];

// A type past the table is raw bytes. A look-up by the type's byte, under the document's name, and no conversion.
#[tactic(auto, unfolding(crate::specs::Card::card_row, crate::specs::Card::rows))]
pub fn length_card(packet_type: u8) -> Row
    ensures { result ≡ card_row packet_type }
{
    match CARD.get(usize::from(packet_type)) {
        Some(row) => *row,
        None => RAW,
    }
}
