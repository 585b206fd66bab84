//! libhns_ffi_packets.a for callers in C and Rust: each function of hns_ffi_packets, exported with the contract that it has there.
//! A static library exports its own functions alone, so each stands here once more.
#![tactic(auto)]

ghost use Rattle.std.specs.Prelude.{◌≡◌};
ghost use Rattle.hns_encoding.specs.Bytes.{raw_at};
ghost use Rattle.hns_p2p_rights.specs.Terms.{terms_of};
ghost use Rattle.hns_p2p_rights.specs.Rights.{may_send, types_granted};
ghost use Rattle.hns_p2p_admission.specs.Reading.{read_packet_under};
ghost use Rattle.hns_p2p_items.specs.Items.{item_under, listed_under};
ghost use Rattle.hns_p2p_indexes.specs.Indexes.{stored_under};
ghost use Rattle.hns_p2p_item_numbers.specs.Numbers.{numbers_under};
ghost use Rattle.hns_p2p_card.specs.Card.{card_row};
ghost use Rattle.hns_p2p_wire.specs.Demand3.{rewriting_under};
ghost use Rattle.hns_rows.specs.Rows.{answered, checked_row, count_row};
ghost use Rattle.hns_packet_rows.specs.Rows.{packet_row, item_row, stored_row, card_numbers};
ghost use Rattle.hns_ffi_packets.specs.Found.{FoundAnswered};

#[unsafe(no_mangle)]
pub extern "C" fn hns_read_packet(
    terms: &[u64],
    packet_type: u8,
    payload: &[u8],
    text: &mut [u8],
    answer: &mut [u64],
)
    ensures answer_after { answer.new ≡ answered answer.old (packet_row (read_packet_under (terms_of terms.now) packet_type payload.now text.old).packet) }
    ensures text_after { text.new ≡ (read_packet_under (terms_of terms.now) packet_type payload.now text.old).text }
{
    hns_ffi_packets::hns_read_packet(terms, packet_type, payload, text, answer);
}

#[unsafe(no_mangle)]
pub extern "C" fn hns_item(
    terms: &[u64],
    packet_type: u8,
    payload: &[u8],
    place: usize,
    answer: &mut [u64],
)
    ensures { answer.new ≡ answered answer.old (item_row (item_under (terms_of terms.now) packet_type payload.now place)) }
{
    hns_ffi_packets::hns_item(terms, packet_type, payload, place, answer);
}

#[unsafe(no_mangle)]
pub extern "C" fn hns_indexes(terms: &[u64], payload: &[u8], out: &mut [u64], answer: &mut [u64])
    ensures answer_after { answer.new ≡ answered answer.old (stored_row (stored_under (terms_of terms.now) payload.now out.old).answer) }
    ensures out_after { out.new ≡ (stored_under (terms_of terms.now) payload.now out.old).output }
{
    hns_ffi_packets::hns_indexes(terms, payload, out, answer);
}

#[unsafe(no_mangle)]
pub extern "C" fn hns_item_numbers(
    terms: &[u64],
    packet_type: u8,
    payload: &[u8],
    out: &mut [u64],
    answer: &mut [u64],
)
    ensures answer_after { answer.new ≡ answered answer.old (stored_row (numbers_under (terms_of terms.now) packet_type payload.now out.old).answer) }
    ensures out_after { out.new ≡ (numbers_under (terms_of terms.now) packet_type payload.now out.old).output }
{
    hns_ffi_packets::hns_item_numbers(terms, packet_type, payload, out, answer);
}

#[unsafe(no_mangle)]
pub extern "C" fn hns_find(
    terms: &[u64],
    packet_type: u8,
    payload: &[u8],
    hash: &[u8],
    answer: &mut [u64],
)
    ensures { FoundAnswered (listed_under (terms_of terms.now) packet_type payload.now) (raw_at 32 hash.now 0) answer.old answer.new }
{
    hns_ffi_packets::hns_find(terms, packet_type, payload, hash, answer);
}

#[unsafe(no_mangle)]
pub extern "C" fn hns_length_card(packet_type: u8, answer: &mut [u64])
    ensures { answer.new ≡ answered answer.old (card_numbers (card_row packet_type)) }
{
    hns_ffi_packets::hns_length_card(packet_type, answer);
}

#[unsafe(no_mangle)]
pub extern "C" fn hns_rewrite(
    terms: &[u64],
    packet_type: u8,
    payload: &[u8],
    out: &mut [u8],
    answer: &mut [u64],
)
    ensures answer_after { answer.new ≡ answered answer.old (count_row (rewriting_under (terms_of terms.now) packet_type payload.now out.old).answer) }
    ensures out_after { out.new ≡ (rewriting_under (terms_of terms.now) packet_type payload.now out.old).output }
{
    hns_ffi_packets::hns_rewrite(terms, packet_type, payload, out, answer);
}

#[unsafe(no_mangle)]
pub extern "C" fn hns_may_send(terms: &[u64], packet_type: u8, answer: &mut [u64])
    ensures { answer.new ≡ answered answer.old (checked_row (may_send (terms_of terms.now) packet_type)) }
{
    hns_ffi_packets::hns_may_send(terms, packet_type, answer);
}

#[unsafe(no_mangle)]
pub extern "C" fn hns_types_granted(terms: &[u64], answer: &mut [u64])
    ensures { answer.new ≡ answered answer.old (count_row (types_granted (terms_of terms.now))) }
{
    hns_ffi_packets::hns_types_granted(terms, answer);
}
