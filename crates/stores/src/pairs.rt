// A pair: two stores end to end, as one.
ghost use Rattle.std.specs.Prelude.{◌≡◌, ◌+◌, min, ◌++◌, length, take, drop};
ghost use Rattle.stores.specs.Stores.{OffPair, off_pair, pair_blocks, pair_rest, united};
ghost use Rattle.stores.specs.United.{storable_united};

use crate::faults::StoreFault;
use crate::store::{BlockStore, MOST_BLOCKS, admit};

#[derive(Drop)]
pub struct Pair<A, B> {
    first: A,
    second: B,
}

impl<A: BlockStore, B: BlockStore> Pair<A, B> {
    pub fn new(first: A, second: B) -> Pair<A, B>
        ensures owned { (result.first ≡ first) × (result.second ≡ second) }
        ensures blocks { pair_blocks A.BlockStore.blocks B.BlockStore.blocks result ≡ united (A.BlockStore.blocks first) (B.BlockStore.blocks second) }
        ensures rest { pair_rest A.BlockStore.blocks A.BlockStore.rest B.BlockStore.blocks B.BlockStore.rest result ≡ off_pair (A.BlockStore.blocks first) (A.BlockStore.rest first) (B.BlockStore.blocks second) (B.BlockStore.rest second) }
    {
        Self { first, second }
    }

    pub fn into_stores(self) -> (A, B)
        ensures owned { (result.0 ≡ self.first) × (result.1 ≡ self.second) }
        ensures first { A.BlockStore.blocks result.0 ≡ take (pair_rest A.BlockStore.blocks A.BlockStore.rest B.BlockStore.blocks B.BlockStore.rest self).seam (pair_blocks A.BlockStore.blocks B.BlockStore.blocks self) }
        ensures second { B.BlockStore.blocks result.1 ≡ drop (pair_rest A.BlockStore.blocks A.BlockStore.rest B.BlockStore.blocks B.BlockStore.rest self).seam (pair_blocks A.BlockStore.blocks B.BlockStore.blocks self) ++ (pair_rest A.BlockStore.blocks A.BlockStore.rest B.BlockStore.blocks B.BlockStore.rest self).behind }
    {
        let Pair { first, second } = self;
        (first, second)
    }
}

impl<A: BlockStore, B: BlockStore> BlockStore for Pair<A, B> {
    ghost blocks = { pair_blocks A.BlockStore.blocks B.BlockStore.blocks };

    ghost Rest = { OffPair A.BlockStore.Rest B.BlockStore.Rest };

    ghost rest = { pair_rest A.BlockStore.blocks A.BlockStore.rest B.BlockStore.blocks B.BlockStore.rest };

    ghost storable = { λ p. storable_united (A.BlockStore.blocks p.first) (B.BlockStore.blocks p.second) (A.BlockStore.storable p.first) (B.BlockStore.storable p.second) };

    fn count(&self) -> usize
        ensures blocks { result ≡ length (pair_blocks A.BlockStore.blocks B.BlockStore.blocks self.now) }
        ensures below { result ≡ min 65535 (length (A.BlockStore.blocks self.now.first) + length (B.BlockStore.blocks self.now.second)) }
    {
        (self.first.count() + self.second.count()).min(MOST_BLOCKS)
    }

    fn read(&mut self, block: usize, buffer: &mut [u8]) -> Result<(), StoreFault> {
        admit(self.count(), block, buffer.len())?;
        let first = self.first.count();
        if block < first {
            return self.first.read(block, buffer);
        }
        self.second.read(block - first, buffer)
    }

    fn write(&mut self, block: usize, buffer: &[u8]) -> Result<(), StoreFault> {
        admit(self.count(), block, buffer.len())?;
        let first = self.first.count();
        if block < first {
            return self.first.write(block, buffer);
        }
        self.second.write(block - first, buffer)
    }
}
