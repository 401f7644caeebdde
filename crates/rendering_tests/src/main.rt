// Writes images. Each line of the input has kind, chapter number, α, ρ and capacity, and messages in key order; the output has the
// head and the tree blocks, with the zeros at their ends left out.
#![tactic(auto)]

mod chapter;
mod digits;
mod images;

use chapter::{Chapter, ChapterKind};
use images::written;
use kinds::{IndexMarks, Paragraphs};
use planner_trials::tables::Tables;
use std::io::Read;

fn run(rt: &HostRuntime) -> anyhow::Result<()> {
    let heap = rt.alloc();
    let mut input = String::new(heap);
    rt.stdin().read_to_string(&mut input)?;
    let mut tables = Tables::new(heap)?;
    for line in input.lines() {
        if let Some(chapter) = Chapter::of_line(heap, line)? {
            let text = match chapter.kind {
                ChapterKind::Paragraphs => written::<Paragraphs>(heap, &chapter, &mut tables)?,
                ChapterKind::IndexMarks => written::<IndexMarks>(heap, &chapter, &mut tables)?,
            };
            println!(rt; "{text}")?;
        }
    }
    Ok(())
}

fn main(rt: HostRuntime) -> anyhow::Result<()> {
    run(&rt)
}
