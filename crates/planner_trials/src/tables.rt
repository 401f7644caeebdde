// What planning works in.
ghost use Rattle.std.specs.Prelude.{◌≡◌, map, length, replicate, take, IfOk};
ghost use Rattle.planner.specs.Plan.{plan_answer, plan_rows, plan_work};

use planner::entry::Entry;
use planner::extent::Extent;
use planner::plan_tree;
use planner::row::Row;
use std::alloc::{AllocError, Global};

#[derive(Drop)]
pub struct Tables {
    pub work: Vec<u16>,
    pub rows: Vec<Row>,
}

impl Tables {
    // With room for the most entries.
    pub fn new(heap: Global) -> Result<Tables, AllocError>
        ensures work { IfOk result (λ tables. tables.work.items ≡ replicate 2000 0) }
        ensures rows { IfOk result (λ tables. length tables.rows.items ≡ 2000) }
    {
        Ok(Tables {
            work: vec![in heap; 0u16; 2000]?,
            rows: vec![in heap; Row::BLANK; 2000]?,
        })
    }

    // Plans some entries. The rows hold the plan afterwards.
    pub fn plan<E: Entry>(&mut self, entries: &[E], alpha: usize, rho: usize) -> Option<Extent>
        ensures answer { result ≡ plan_answer (map E.priority entries.now) alpha rho (length self.old.work.items) (length self.old.rows.items) }
        ensures rows { self.new.rows.items ≡ plan_rows (map E.priority entries.now) (map E.measure entries.now) alpha rho (length self.old.work.items) self.old.rows.items }
        ensures cleared { self.new.work.items ≡ plan_work (map E.priority entries.now) alpha rho self.old.work.items (length self.old.rows.items) }
    {
        plan_tree(
            entries,
            alpha,
            rho,
            self.work.as_mut_slice(),
            self.rows.as_mut_slice(),
        )
    }

    // The rows of the plan that was made last, of so many blocks, or as many rows as there are.
    pub(crate) fn planned(&self, extent: Extent) -> &[Row]
        ensures { result.now ≡ take extent.blocks self.now.rows.items }
    {
        &self.rows[..usize::from(extent.blocks).min(self.rows.len())]
    }
}
