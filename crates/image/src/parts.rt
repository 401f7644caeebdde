// The messages and the sections of a tree block, gone through in order: types with names, since a function cannot answer `impl
// Iterator`.
ghost use Rattle.std.specs.Prelude.{◌≡◌};
ghost use Rattle.std.specs.Iterator.{YieldsFirst, YieldsFirstRef, item_count};
ghost use Rattle.image.specs.Parts.{messages_to_come, sections_to_come};

use crate::block::TreeBlock;
use crate::section::SectionFields;
use kinds::EntryKind;
use std::ops::Range;

// The messages of a block, of which those at `places` are still to come.
#[derive(Drop)]
pub struct Slots<'a, K> {
    pub(crate) block: TreeBlock<'a, K>,
    pub(crate) places: Range<usize>,
}

impl<'a, K: EntryKind> Iterator for Slots<'a, K> {
    type Item = &'a [u8];

    ghost next_gives = { YieldsFirstRef (messages_to_come K.kind) };

    ghost remaining = { item_count (messages_to_come K.kind) };

    #[tactic(auto, using(crate::proofs::Stepping::first_of))]
    fn next(&mut self) -> Option<&'a [u8]> {
        let i = self.places.next()?;
        Some(self.block.slot(i))
    }
}

// What the section records of a block say, of which those at `places` are still to come.
#[derive(Drop)]
pub struct Sections<'a, K> {
    pub(crate) block: TreeBlock<'a, K>,
    pub(crate) places: Range<usize>,
}

impl<'a, K: EntryKind> Iterator for Sections<'a, K> {
    type Item = SectionFields;

    ghost next_gives = { YieldsFirst (sections_to_come K.kind) };

    ghost remaining = { item_count (sections_to_come K.kind) };

    fn next(&mut self) -> Option<SectionFields> {
        let i = self.places.next()?;
        Some(self.block.section(i))
    }
}
