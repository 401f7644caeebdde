// The image of a chapter, planned and rendered.
use crate::chapter::Chapter;
use crate::digits::text_of;
use drawing::priority;
use fields::piece_at;
use image::{Counts, Head, TreeBlock, key_of};
use kinds::EntryKind;
use planner::entry::MeasuredEntry;
use planner::row::Row;
use planner_trials::tables::Tables;
use rendering::{render_block, render_head};
use std::alloc::{AllocError, Global};

// What planning is told of a message.
fn told<K: EntryKind>(message: &[u8]) -> MeasuredEntry {
    MeasuredEntry {
        priority: priority(key_of::<K>(message)),
        measure: K::measure(message),
    }
}

// What planning is told of all messages, in their order.
fn entries<K: EntryKind>(
    heap: Global,
    chapter: &Chapter,
) -> Result<Vec<MeasuredEntry>, AllocError> {
    let messages = chapter.messages.as_slice();
    (0..chapter.count)
        .map(|i| told::<K>(piece_at(messages, 0, K::message_width(), i)))
        .collect(heap)
}

fn total_measure(entries: &[MeasuredEntry]) -> u32 {
    entries.iter().fold(0u32, |total, entry| {
        total.wrapping_add(u32::from(entry.measure))
    })
}

fn head_text<K: EntryKind>(heap: Global, head: &Head) -> Result<String, AllocError> {
    let mut block = [255; 256];
    match render_head::<K>(head, &mut block) {
        Ok(()) => text_of(heap, &block),
        Err(_) => String::from_str(heap, "refused"),
    }
}

// The block of a row, which has this number among so many.
fn block_text<K: EntryKind>(
    heap: Global,
    chapter: &Chapter,
    row: &Row,
    blocks: usize,
    number: usize,
) -> Result<String, AllocError> {
    let alpha = chapter.settings.alpha;
    let mut block = [255; 256];
    if render_block::<K>(row, chapter.messages.as_slice(), alpha, &mut block).is_err() {
        return String::from_str(heap, "refused");
    }
    let mut text = text_of(heap, &block)?;
    let view = TreeBlock::<K>::new(&block, (alpha % 256) as u8);
    if !view.is_well_formed(blocks, number) {
        text.push_str(" malformed")?;
    }
    Ok(text)
}

// The head and the tree blocks; a block that was refused, or is malformed, is named so.
pub(crate) fn written<K: EntryKind>(
    heap: Global,
    chapter: &Chapter,
    tables: &mut Tables,
) -> Result<String, AllocError> {
    let entries = entries::<K>(heap, chapter)?;
    let settings = chapter.settings;
    let planned = tables.plan(entries.as_slice(), settings.alpha, settings.rho);
    let blocks = planned.map_or(0, |extent| usize::from(extent.blocks));
    let head = Head {
        settings,
        counts: Counts {
            entries: chapter.count,
            blocks,
            measure: total_measure(entries.as_slice()),
        },
        chapter: chapter.number,
    };
    let mut text = head_text::<K>(heap, &head)?;
    for (number, row) in (1..=blocks).zip(tables.rows.as_slice()) {
        let block = block_text::<K>(heap, chapter, row, blocks, number)?;
        write!(text, " {block}")?;
    }
    Ok(text)
}
