// The planner against the second one.
use crate::lists::{digits, generated};
use crate::second::{Block, Section, plan};
use crate::tables::Tables;
use crate::trial::Trial;
use planner::row::Row;
use std::alloc::{AllocError, Global};

// How many lists were tried, and how many of them the two plan unlike one another; and what they are planned in.
#[derive(Drop)]
pub(crate) struct Trials<'a> {
    heap: Global,
    tables: &'a mut Tables,
    pub(crate) tried: u64,
    pub(crate) unlike: u64,
}

// What a row says, as the second planner says it.
fn block_of(heap: Global, row: &Row) -> Result<Block, AllocError> {
    let mut entries = Vec::new(heap);
    // The mask is gone through beside the ranks: a list of its bits would take memory.
    let mut marks = row.mask;
    for rank in row.ranks() {
        entries.push((usize::from(*rank), marks % 2 == 1))?;
        marks /= 2;
    }
    let sections = row
        .used_sections()
        .iter()
        .map(|section| Section {
            number: (section.block != 0).then_some(usize::from(section.block)),
            weight: usize::from(section.weight),
            measure: section.measure as usize,
        })
        .collect(heap)?;
    Ok(Block {
        parent: (row.parent != 0).then_some(usize::from(row.parent)),
        weight: usize::from(row.weight),
        entries,
        sections,
    })
}

// What the rows of a plan say.
fn blocks_of(heap: Global, rows: &[Row]) -> Result<Vec<Block>, AllocError> {
    let mut blocks = Vec::new(heap);
    for row in rows {
        blocks.push(block_of(heap, row)?)?;
    }
    Ok(blocks)
}

// How often planning these blocks visits a rank: three times for each rank of a block's subtree.
fn visits_of(blocks: &[Block]) -> usize {
    blocks.iter().fold(
        0usize,
        |visits, block| visits.saturating_add(block.weight.saturating_mul(3)),
    )
}

impl<'a> Trials<'a> {
    pub(crate) fn new(heap: Global, tables: &'a mut Tables) -> Trials<'a> {
        Trials {
            heap,
            tables,
            tried: 0,
            unlike: 0,
        }
    }

    // Plans a list by both.
    fn try_list<E: Trial>(
        &mut self,
        entries: &[E],
        alpha: usize,
        rho: usize,
    ) -> Result<(), AllocError> {
        let planned = self.tables.plan(entries, alpha, rho);
        let other = plan(self.heap, entries, alpha, rho)?;
        self.tried = self.tried.saturating_add(1);
        let alike = match planned {
            Some(extent) => {
                extent.visits as usize == visits_of(other.as_slice())
                    && blocks_of(self.heap, self.tables.planned(extent))? == other
            }
            None => false,
        };
        if !alike {
            self.unlike = self.unlike.saturating_add(1);
        }
        Ok(())
    }

    // All lists of n priorities below n, for n up to 6: all permutations, and all ties.
    pub(crate) fn all_short_lists<E: Trial>(&mut self) -> Result<(), AllocError> {
        for n in 0..=6u32 {
            for code in 0..n.saturating_pow(n) {
                let list = digits::<E>(self.heap, code, n, n as usize)?;
                for (alpha, rho) in [(1, 1), (2, 2), (2, 1)] {
                    self.try_list(list.as_slice(), alpha, rho)?;
                }
            }
        }
        Ok(())
    }

    // Generated lists, with few ties and with many, under many settings.
    pub(crate) fn generated_lists<E: Trial>(&mut self) -> Result<(), AllocError> {
        for seed in 0..40u32 {
            for limit in [3, 50, 65_536] {
                for alpha in [1, 2, 3, 5, 10, 16] {
                    for rho in [1, 2, 3, 7] {
                        let n = 7 + seed as usize;
                        let list = generated::<E>(self.heap, seed, n, limit)?;
                        self.try_list(list.as_slice(), alpha, rho)?;
                    }
                }
            }
        }
        Ok(())
    }
}
