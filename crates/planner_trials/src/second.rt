// A second planner: it sorts the ranks once by the order in which they are drawn, and gives each section the rest of them by a count
// of the active separators below.
use planner::entry::Entry;
use std::alloc::{AllocError, Global};

// What is to be said of a block: the number of the block above it, if it is not the root, how many entries its subtree has, its
// entries and its sections. Its entries are ranks in key order, each with whether it is active.
#[derive(Drop, PartialEq, Eq)]
pub(crate) struct Block {
    pub(crate) parent: Option<usize>,
    pub(crate) weight: usize,
    pub(crate) entries: Vec<(usize, bool)>,
    pub(crate) sections: Vec<Section>,
}

// What is to be said of a section: the number of its block, if it has entries, and the count and the measure of its entries.
#[derive(Clone, Copy, PartialEq, Eq)]
pub(crate) struct Section {
    pub(crate) number: Option<usize>,
    pub(crate) weight: usize,
    pub(crate) measure: usize,
}

// The ranks of some entries in the order in which they are drawn.
fn draw<E: Entry>(heap: Global, entries: &[E]) -> Result<Vec<usize>, AllocError> {
    let mut drawn = entries
        .iter()
        .enumerate()
        .map(|(rank, entry)| (entry.priority(), rank))
        .collect::<Vec<(u16, usize)>>(heap)?;
    drawn.sort_unstable();
    drawn.iter().map(|(_, rank)| *rank).collect(heap)
}

// How many of the first `separators` lie below a rank.
fn below(drawn: &[usize], separators: usize, rank: usize) -> usize {
    drawn
        .iter()
        .take(separators)
        .filter(|other| **other < rank)
        .count()
}

// What the second planner plans: entries, under settings.
#[derive(Drop)]
struct Second<'a, E> {
    heap: Global,
    entries: &'a [E],
    alpha: usize,
    rho: usize,
}

impl<'a, E: Entry> Second<'a, E> {
    // How many separators are active in a block whose subtree has some entries: the fewest whose sections, one more than they are,
    // hold the entries below the block at ρ each, or all of them.
    fn separators(&self, weight: usize) -> usize {
        (1..=self.alpha)
            .take_while(|opened| {
                self.alpha.saturating_add(self.rho.saturating_mul(*opened)) < weight
            })
            .count()
    }

    // The ranks of a section, in the order in which they are drawn.
    fn section(
        &self,
        drawn: &[usize],
        separators: usize,
        number: usize,
    ) -> Result<Vec<usize>, AllocError> {
        drawn
            .iter()
            .copied()
            .skip(self.alpha)
            .filter(|rank| below(drawn, separators, *rank) == number)
            .collect(self.heap)
    }

    // A block's ranks in key order, each with whether it is active.
    fn block(&self, drawn: &[usize], separators: usize) -> Result<Vec<(usize, bool)>, AllocError> {
        let mut entries = drawn
            .iter()
            .take(self.alpha)
            .enumerate()
            .map(|(i, rank)| (*rank, i < separators))
            .collect::<Vec<(usize, bool)>>(self.heap)?;
        entries.sort_unstable();
        Ok(entries)
    }

    // The sum of the measures of some ranks.
    fn measure(&self, ranks: &[usize]) -> usize {
        ranks
            .iter()
            .filter_map(|rank| self.entries.get(*rank))
            .fold(0usize, |sum, entry| {
                sum.saturating_add(usize::from(entry.measure()))
            })
    }

    // The blocks of the subtree of some ranks, as they are drawn, below a parent and with a number. Its depth is at most the number
    // of the ranks.
    fn plan(
        &self,
        depth: usize,
        drawn: &[usize],
        parent: Option<usize>,
        number: usize,
    ) -> Result<Vec<Block>, AllocError> {
        let mut blocks = Vec::new(self.heap);
        if depth == 0 || drawn.is_empty() {
            return Ok(blocks);
        }
        let separators = self.separators(drawn.len());
        let mut sections = Vec::new(self.heap);
        let mut beneath = Vec::new(self.heap);
        let mut next = number.saturating_add(1);
        for i in 0..=separators {
            let members = self.section(drawn, separators, i)?;
            sections.push(Section {
                number: (!members.is_empty()).then_some(next),
                weight: members.len(),
                measure: self.measure(members.as_slice()),
            })?;
            let mut planned = self.plan(depth - 1, members.as_slice(), Some(number), next)?;
            next = next.saturating_add(planned.len());
            beneath.append(&mut planned)?;
        }
        blocks.push(Block {
            parent,
            weight: drawn.len(),
            entries: self.block(drawn, separators)?,
            sections,
        })?;
        blocks.append(&mut beneath)?;
        Ok(blocks)
    }
}

// The plan of some entries.
pub(crate) fn plan<E: Entry>(
    heap: Global,
    entries: &[E],
    alpha: usize,
    rho: usize,
) -> Result<Vec<Block>, AllocError> {
    let second = Second {
        heap,
        entries,
        alpha,
        rho,
    };
    let drawn = draw(heap, entries)?;
    second.plan(drawn.len(), drawn.as_slice(), None, 1)
}
