// Memory: a run of bytes as a block store.
ghost use Rattle.std.specs.Prelude.{◌≡◌, ℕ, List, ◌++◌, length};
ghost use Rattle.std.specs.List.{flat_map};
ghost use Rattle.stores.specs.Stores.{memory_blocks, memory_rest, run_blocks, run_count, run_rest};
ghost use Rattle.stores.specs.Cut.{storable_run};

use crate::faults::StoreFault;
use crate::store::{BLOCK_SIZE, BlockStore, MOST_BLOCKS, admit};

#[derive(Drop)]
pub struct Memory {
    bytes: Vec<u8>,
}

impl Memory {
    pub fn new(bytes: Vec<u8>) -> Memory
        ensures owned { result.bytes ≡ bytes }
        ensures blocks { memory_blocks result ≡ run_blocks bytes.items }
        ensures rest { memory_rest result ≡ run_rest bytes.items }
    {
        Self { bytes }
    }

    pub fn into_bytes(self) -> Vec<u8>
        ensures owned { result ≡ self.bytes }
        ensures bytes { result.items ≡ flat_map (λ block. block) (memory_blocks self) ++ memory_rest self }
    {
        let Memory { bytes } = self;
        bytes
    }
}

impl BlockStore for Memory {
    ghost blocks = { memory_blocks };

    ghost Rest = { List ℕ };

    ghost rest = { memory_rest };

    ghost storable = { λ m. storable_run m.bytes.items };

    fn count(&self) -> usize
        ensures blocks { result ≡ length (memory_blocks self.now) }
        ensures bytes { result ≡ run_count self.now.bytes.items }
    {
        (self.bytes.len() / BLOCK_SIZE).min(MOST_BLOCKS)
    }

    fn read(&mut self, block: usize, buffer: &mut [u8]) -> Result<(), StoreFault> {
        admit(self.count(), block, buffer.len())?;
        let start = block * BLOCK_SIZE;
        buffer.copy_from_slice(&self.bytes.as_slice()[start..start + BLOCK_SIZE]);
        Ok(())
    }

    fn write(&mut self, block: usize, buffer: &[u8]) -> Result<(), StoreFault> {
        admit(self.count(), block, buffer.len())?;
        let start = block * BLOCK_SIZE;
        let bytes = self.bytes.as_mut_slice();
        bytes[start..start + BLOCK_SIZE].copy_from_slice(buffer);
        Ok(())
    }
}
