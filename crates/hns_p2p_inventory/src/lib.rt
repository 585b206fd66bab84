//! The writer of inv, getdata and notfound over a slice of records: what the flat writer does of the same items.
#![tactic(auto)]

ghost use Rattle.std.specs.Prelude.{◌≡◌};
ghost use Rattle.hns_encoding.specs.Format.{All};
ghost use Rattle.hns_encoding.specs.Put.{Put};
ghost use Rattle.hns_p2p_writer.specs.Writing.{exit};
ghost use Rattle.hns_p2p_writer.specs.Writers.{gives_inventory};
ghost use Rattle.hns_p2p_inventory.specs.Items.{item_bytes, flat_items};
ghost use Rattle.hns_p2p_inventory.specs.Laws.{Whole};

use hns_encoder::Encoder;
use hns_refusals::Refusal;

#[derive(Clone, Copy, Debug, PartialEq, Eq)]
pub struct Inventory {
    pub kind: u32,
    pub hash: [u8; 32],
}

// The cursor goes by value beside the lent output, as in hns_p2p_block_puts.
fn put_item(encoder: Encoder, out: &mut [u8], item: Inventory) -> Encoder
    ensures { Put out.old encoder.position (item_bytes item) out.new result.position }
{
    let e = encoder.put_u32_le(out, item.kind);
    e.put_array(out, item.hash)
}

// What the type says of a record.
fn whole(item: Inventory)
    ensures { Whole item }
{}

// And of every record, also of those of a refused list, which nothing else reads: the flat writer tells a
// refused list by its length too.
#[tactic(auto, using(crate::proofs::Items::each_whole))]
fn all_whole(items: &[Inventory])
    ensures { All Whole items.now }
{
    for item in items {
        whole(*item);
    }
}

#[tactic(auto, using(crate::proofs::Items::items_refused))]
pub fn write_inventory_items(items: &[Inventory], out: &mut [u8]) -> Result<usize, Refusal>
    ensures { exit result out.new ≡ gives_inventory (flat_items items.now) out.old }
{
    all_whole(items);
    let needed = hns_p2p_plans::plan_inventory(items.len(), out.len())?;
    let mut e = Encoder::new().put_compact_size(out, items.len() as u64);
    for item in items {
        e = put_item(e, out, *item);
    }
    Ok(needed)
}
