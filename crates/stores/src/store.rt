// What a block store is, and the two tests that every read and write begins with.
ghost use Rattle.std.specs.Prelude.{◌≡◌, ℕ, ◌<◌, List, length, OnOk};
ghost use Rattle.std.specs.Result.{result_map_both};
ghost use Rattle.stores.specs.Blocks.{Storable, access_answer, read_answer, read_buffer, write_answer, write_blocks};
ghost use Rattle.stores.specs.Faults.{coded};

use crate::faults::StoreFault;

pub const BLOCK_SIZE: usize = 256;

pub const MOST_BLOCKS: usize = 65_535;

pub trait BlockStore {
    // The store's meaning: its blocks, from block 0 on.
    ghost blocks: { Self → List (List ℕ) };

    // What the store keeps beside its blocks: no call changes it, so that it is as it was when the store is taken apart.
    ghost Rest: { Type 0 };

    ghost rest: { Self → Rest };

    fn count(&self) -> usize
        ensures { result ≡ length (blocks self.now) };

    // Fills the buffer with a block. Number and buffer come apart, since a type for both would be made for one call. A store may
    // change what it keeps for reading, as a cache, and no block.
    fn read(&mut self, block: usize, buffer: &mut [u8]) -> Result<(), StoreFault>
        ensures answer { result_map_both (λ u. u) coded result ≡ read_answer (blocks self.old) block buffer.old }
        ensures buffer { buffer.new ≡ read_buffer (blocks self.old) block buffer.old }
        ensures blocks { blocks self.new ≡ blocks self.old }
        ensures rest { rest self.new ≡ rest self.old };

    fn write(&mut self, block: usize, buffer: &[u8]) -> Result<(), StoreFault>
        ensures answer { result_map_both (λ u. u) coded result ≡ write_answer (blocks self.old) block buffer.now }
        ensures blocks { blocks self.new ≡ write_blocks (blocks self.old) block buffer.now }
        ensures rest { rest self.new ≡ rest self.old };

    ghost storable: { (s : Self) → Storable (blocks s) };
}

// Whether a read or a write may go on: the buffer is tested first, then the block.
pub fn admit(count: usize, block: usize, size: usize) -> Result<(), StoreFault>
    ensures answer { result_map_both (λ u. u) coded result ≡ access_answer count block size }
    ensures admitted { OnOk result ((size ≡ 256) × (block < count)) }
{
    if size != BLOCK_SIZE {
        return Err(StoreFault::BufferLength(size));
    }
    if block >= count {
        return Err(StoreFault::NoBlock(block));
    }
    Ok(())
}
