// A shelf: a run of the blocks of another store, as a store of its own.
ghost use Rattle.std.specs.Prelude.{◌≡◌, ◌-◌, min, ◌++◌, length};
ghost use Rattle.stores.specs.Stores.{OffShelf, off_shelf, part, shelf_blocks, shelf_rest};
ghost use Rattle.stores.specs.Placed.{storable_part};

use crate::faults::StoreFault;
use crate::store::{BlockStore, admit};

#[derive(Drop)]
pub struct Shelf<S> {
    store: S,
    start: usize,
    limit: usize,
}

impl<S: BlockStore> Shelf<S> {
    // At most `limit` blocks of the store, from block `start` on. Any two numbers make a shelf; one past the end is empty.
    pub fn new(store: S, start: usize, limit: usize) -> Shelf<S>
        ensures owned { result.store ≡ store }
        ensures blocks { shelf_blocks S.blocks result ≡ part start limit (S.blocks store) }
        ensures rest { shelf_rest S.blocks S.rest result ≡ off_shelf start limit (S.blocks store) (S.rest store) }
    {
        Self {
            store,
            start,
            limit,
        }
    }

    pub fn into_store(self) -> S
        ensures owned { result ≡ self.store }
        ensures blocks { S.blocks result ≡ (shelf_rest S.blocks S.rest self).before ++ shelf_blocks S.blocks self ++ (shelf_rest S.blocks S.rest self).behind }
    {
        let Shelf {
            store,
            start: _,
            limit: _,
        } = self;
        store
    }
}

impl<S: BlockStore> BlockStore for Shelf<S> {
    ghost blocks = { shelf_blocks S.BlockStore.blocks };

    ghost Rest = { OffShelf S.BlockStore.Rest };

    ghost rest = { shelf_rest S.BlockStore.blocks S.BlockStore.rest };

    ghost storable = { λ s. storable_part s.start s.limit (S.BlockStore.blocks s.store) (S.BlockStore.storable s.store) };

    fn count(&self) -> usize
        ensures blocks { result ≡ length (shelf_blocks S.BlockStore.blocks self.now) }
        ensures below { result ≡ min self.now.limit (length (S.BlockStore.blocks self.now.store) - self.now.start) }
    {
        let there = self.store.count().saturating_sub(self.start);
        there.min(self.limit)
    }

    fn read(&mut self, block: usize, buffer: &mut [u8]) -> Result<(), StoreFault> {
        admit(self.count(), block, buffer.len())?;
        self.store.read(self.start + block, buffer)
    }

    fn write(&mut self, block: usize, buffer: &[u8]) -> Result<(), StoreFault> {
        admit(self.count(), block, buffer.len())?;
        self.store.write(self.start + block, buffer)
    }
}
