// Block stores: what a store of 256-byte blocks means, and three of them that build any other.
#![tactic(auto)]

mod faults;
mod memories;
mod pairs;
mod shelves;
mod store;

pub use faults::StoreFault;
pub use memories::Memory;
pub use pairs::Pair;
pub use shelves::Shelf;
pub use store::{BLOCK_SIZE, BlockStore, MOST_BLOCKS, admit};

#[cfg(test)]
mod tests;
