// Why a tree block is not written.

// What is wrong with a row, for blocks of alpha slots and a table of messages. The cases stand in the order in which they are
// tested.
#[derive(Clone, Copy, PartialEq, Eq, Debug)]
pub enum BlockFault {
    AlphaOutOfLimits,
    EntriesAboveAlpha,
    // More active separators than alpha.
    SeparatorsAboveAlpha,
    // The first of the row's ranks whose message the table lacks.
    NoMessage(u16),
}
