// A tree block, written from a row of a plan and the messages in key order.
ghost use Rattle.std.specs.Prelude.{◌≡◌, ◌+◌, ◌*◌, ◌≤◌, min, true, length, take, if◌then◌else◌, count_ones, is_ok};
ghost use Rattle.std.specs.List.{flat_map};
ghost use Rattle.std.specs.Result.{result_err};
ghost use Rattle.image.specs.Reading.{every};
ghost use Rattle.rendering.specs.Laid.{with_bytes};
ghost use Rattle.rendering.specs.Refusals.{block_refusal};
ghost use Rattle.rendering.specs.Rendered.{front_of, in_table, message_at, renderable, row_block, row_record};
ghost use Rattle.rendering.specs.View.{bytes_of};

use crate::draft::Draft;
use crate::fault::BlockFault;
use crate::table::Table;
use fields::LittleEndian;
use image::alpha_fits;
use kinds::EntryKind;
use planner::row::{Row, SectionRow};

// A block has places for all that the row says, and the table has its messages.
fn check_row<K: EntryKind>(row: &Row, table: &Table<K>, alpha: usize) -> Result<(), BlockFault>
    ensures { result_err result ≡ block_refusal K.kind alpha (bytes_of table.now) row.now }
{
    if !alpha_fits(K::message_width(), alpha) {
        return Err(BlockFault::AlphaOutOfLimits);
    }
    if usize::from(row.count) > alpha {
        return Err(BlockFault::EntriesAboveAlpha);
    }
    if row.mask.count_ones() as usize > alpha {
        return Err(BlockFault::SeparatorsAboveAlpha);
    }
    match table.first_missing(row.ranks()) {
        Some(rank) => Err(BlockFault::NoMessage(rank)),
        None => Ok(()),
    }
}

// The first eight bytes of a block.
fn put_front<K: EntryKind>(draft: &mut Draft, row: &Row)
    requires room { length draft.old.front + 8 ≤ 256 }
    requires few { row.now.count ≤ 16 }
    ensures { draft.new ≡ with_bytes draft.old (front_of K.kind row.now) }
{
    draft.put(&[row.count as u8, K::kind_number()]);
    draft.put(&row.mask.to_bytes());
    draft.put(&row.weight.to_bytes());
    draft.put(&row.parent.to_bytes());
}

fn put_messages<K: EntryKind>(draft: &mut Draft, table: &Table<K>, ranks: &[u16])
    requires room { length draft.old.front + length ranks.now * K.kind.width ≤ 256 }
    requires present { every (in_table K.kind (bytes_of table.now)) ranks.now ≡ true }
    ensures put { draft.new ≡ with_bytes draft.old (flat_map (message_at K.kind (bytes_of table.now)) ranks.now) }
    ensures long { length draft.new.front ≡ length draft.old.front + length ranks.now * K.kind.width }
{
    for rank in ranks {
        draft.put(table.message(*rank));
    }
}

fn put_record(draft: &mut Draft, section: SectionRow)
    requires { length draft.old.front + 8 ≤ 256 }
    ensures { draft.new ≡ with_bytes draft.old (row_record section) }
{
    draft.put(&section.block.to_bytes());
    draft.put(&section.weight.to_bytes());
    draft.put(&section.measure.to_bytes());
}

fn put_records(draft: &mut Draft, sections: &[SectionRow])
    requires { length draft.old.front + length sections.now * 8 ≤ 256 }
    ensures { draft.new ≡ with_bytes draft.old (flat_map row_record sections.now) }
{
    for section in sections {
        put_record(draft, *section);
    }
}

fn write_row<K: EntryKind>(row: &Row, table: &Table<K>, alpha: usize, block: &mut [u8; 256])
    requires { renderable K.kind alpha (bytes_of table.now) row.now ≡ true }
    ensures { block.new ≡ row_block K.kind alpha (bytes_of table.now) row.now }
{
    let mut draft = Draft::over(block);
    put_front::<K>(&mut draft, row);
    put_messages(&mut draft, table, row.ranks());
    draft.skip_to(8 + alpha * K::message_width());
    put_records(&mut draft, row.used_sections());
    draft.finish();
}

// Writes the block of a row of a plan, over a table of messages in key order. It is refused, and the block left as it was, if alpha
// is out of its limits, the row has more entries or sections than a block has places, or the table lacks a message.
#[tactic(auto, using(crate::proofs::Refusing::renders))]
pub fn render_block<K: EntryKind>(
    row: &Row,
    table: &[u8],
    alpha: usize,
    block: &mut [u8; 256],
) -> Result<(), BlockFault>
    ensures answer { is_ok result ≡ renderable K.kind alpha table.now row.now }
    ensures refusal { result_err result ≡ block_refusal K.kind alpha table.now row.now }
    ensures block { block.new ≡ (if renderable K.kind alpha table.now row.now then row_block K.kind alpha table.now row.now else block.old) }
{
    let table = Table::<K>::new(table);
    check_row(row, &table, alpha)?;
    write_row(row, &table, alpha, block);
    Ok(())
}
