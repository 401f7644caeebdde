// The refusals of a block store.
ghost use Rattle.std.specs.Prelude.{◌≡◌};
ghost use Rattle.stores.specs.Faults.{coded};

#[derive(Clone, Copy, PartialEq, Eq, Debug)]
pub enum StoreFault {
    // The block that was asked for is not below the store's number of blocks.
    NoBlock(usize),
    // The buffer has this many bytes, and not 256.
    BufferLength(usize),
}

// The two columns of the table `coded`: a conversion into a pair of numbers would leave them without names.
impl StoreFault {
    pub fn number(&self) -> u8
        ensures { result ≡ (coded self.now).0 }
    {
        match self {
            StoreFault::NoBlock(_) => 11,
            StoreFault::BufferLength(_) => 12,
        }
    }

    pub fn place(&self) -> usize
        ensures { result ≡ (coded self.now).1 }
    {
        match self {
            StoreFault::NoBlock(block) => *block,
            StoreFault::BufferLength(length) => *length,
        }
    }
}
