//! Packets read, and rights by role, for callers in C and Rust: numbers and byte slices in, rows of numbers out. `terms` are
//! the numbers that a payload is read under (hns_p2p_rights).
//!
//! Names, parameters and rows are those of hns_ffi.h: one function for each call that C makes, with a row of numbers for its
//! answer and a clause that says so.
//!
//! A library exports nothing, whatever its functions say: hns_ffi_packets_c has the exports, and the test programs call this one.
#![tactic(auto)]

ghost use Rattle.std.specs.Prelude.{◌≡◌};
ghost use Rattle.hns_encoding.specs.Bytes.{raw_at};
ghost use Rattle.hns_p2p_rights.specs.Terms.{terms_of};
ghost use Rattle.hns_p2p_rights.specs.Rights.{may_send, types_granted};
ghost use Rattle.hns_p2p_admission.specs.Reading.{read_packet_under};
ghost use Rattle.hns_p2p_items.specs.Items.{item_under, listed_under};
ghost use Rattle.hns_p2p_indexes.specs.Indexes.{stored_under};
ghost use Rattle.hns_p2p_item_numbers.specs.Numbers.{numbers_under};
ghost use Rattle.hns_p2p_card.specs.Card.{card_row};
ghost use Rattle.hns_p2p_wire.specs.Demand3.{rewriting_under};
ghost use Rattle.hns_rows.specs.Rows.{answered, checked_row, count_row};
ghost use Rattle.hns_packet_rows.specs.Rows.{packet_row, item_row, stored_row, card_numbers};
ghost use Rattle.hns_ffi_packets.specs.Found.{FoundAnswered};

#[unsafe(no_mangle)]
pub extern "C" fn hns_read_packet(
    terms: &[u64],
    packet_type: u8,
    payload: &[u8],
    text: &mut [u8],
    answer: &mut [u64],
)
    ensures answer_after { answer.new ≡ answered answer.old (packet_row (read_packet_under (terms_of terms.now) packet_type payload.now text.old).packet) }
    ensures text_after { text.new ≡ (read_packet_under (terms_of terms.now) packet_type payload.now text.old).text }
{
    let packet = hns_p2p_packet::read_packet(terms, packet_type, payload, text);
    hns_rows::put_row(answer, hns_packet_rows::of_packet(packet));
}

#[unsafe(no_mangle)]
pub extern "C" fn hns_item(
    terms: &[u64],
    packet_type: u8,
    payload: &[u8],
    place: usize,
    answer: &mut [u64],
)
    ensures { answer.new ≡ answered answer.old (item_row (item_under (terms_of terms.now) packet_type payload.now place)) }
{
    let item = hns_p2p_items::item(terms, packet_type, payload, place);
    hns_rows::put_row(answer, hns_packet_rows::of_item(item));
}

#[unsafe(no_mangle)]
pub extern "C" fn hns_indexes(terms: &[u64], payload: &[u8], out: &mut [u64], answer: &mut [u64])
    ensures answer_after { answer.new ≡ answered answer.old (stored_row (stored_under (terms_of terms.now) payload.now out.old).answer) }
    ensures out_after { out.new ≡ (stored_under (terms_of terms.now) payload.now out.old).output }
{
    let stored = hns_p2p_indexes::indexes(terms, payload, out);
    hns_rows::put_row(answer, hns_packet_rows::of_stored(stored));
}

#[unsafe(no_mangle)]
pub extern "C" fn hns_item_numbers(
    terms: &[u64],
    packet_type: u8,
    payload: &[u8],
    out: &mut [u64],
    answer: &mut [u64],
)
    ensures answer_after { answer.new ≡ answered answer.old (stored_row (numbers_under (terms_of terms.now) packet_type payload.now out.old).answer) }
    ensures out_after { out.new ≡ (numbers_under (terms_of terms.now) packet_type payload.now out.old).output }
{
    let stored = hns_p2p_item_numbers::item_numbers(terms, packet_type, payload, out);
    hns_rows::put_row(answer, hns_packet_rows::of_stored(stored));
}

// The hash is the first 32 bytes of a slice, zeros where there are fewer.
#[unsafe(no_mangle)]
pub extern "C" fn hns_find(
    terms: &[u64],
    packet_type: u8,
    payload: &[u8],
    hash: &[u8],
    answer: &mut [u64],
)
    ensures { FoundAnswered (listed_under (terms_of terms.now) packet_type payload.now) (raw_at 32 hash.now 0) answer.old answer.new }
{
    let sought = hns_encoding::array_at(hash, 0);
    let found = hns_p2p_find::find(terms, packet_type, payload, sought);
    hns_rows::put_row(answer, hns_packet_rows::of_found(found));
}

#[unsafe(no_mangle)]
pub extern "C" fn hns_length_card(packet_type: u8, answer: &mut [u64])
    ensures { answer.new ≡ answered answer.old (card_numbers (card_row packet_type)) }
{
    let card = hns_p2p_card::length_card(packet_type);
    hns_rows::put_row(answer, hns_packet_rows::of_card(card));
}

#[unsafe(no_mangle)]
pub extern "C" fn hns_rewrite(
    terms: &[u64],
    packet_type: u8,
    payload: &[u8],
    out: &mut [u8],
    answer: &mut [u64],
)
    ensures answer_after { answer.new ≡ answered answer.old (count_row (rewriting_under (terms_of terms.now) packet_type payload.now out.old).answer) }
    ensures out_after { out.new ≡ (rewriting_under (terms_of terms.now) packet_type payload.now out.old).output }
{
    let encoded = hns_p2p_rewrite::rewrite(terms, packet_type, payload, out);
    hns_rows::put_row(answer, hns_rows::of_count(encoded));
}

// Whether the role of the terms may send a frame of that type.
#[unsafe(no_mangle)]
pub extern "C" fn hns_may_send(terms: &[u64], packet_type: u8, answer: &mut [u64])
    ensures { answer.new ≡ answered answer.old (checked_row (may_send (terms_of terms.now) packet_type)) }
{
    let checked = hns_p2p_rights::may_send(terms, packet_type);
    hns_rows::put_row(answer, hns_rows::of_checked(checked));
}

#[unsafe(no_mangle)]
pub extern "C" fn hns_types_granted(terms: &[u64], answer: &mut [u64])
    ensures { answer.new ≡ answered answer.old (count_row (types_granted (terms_of terms.now))) }
{
    let granted = hns_p2p_rights::types_granted(terms).map(|count| count as usize);
    hns_rows::put_row(answer, hns_rows::of_count(granted));
}
