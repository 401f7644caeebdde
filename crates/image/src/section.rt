// What a section record says.
ghost use Rattle.std.specs.Prelude.{◌≡◌, ◌==◌, cond, None, Some};
ghost use Rattle.image.specs.Reading.{section_sound};

// Any eight bytes are such a record, so the number is kept as it stands there: 0 leads to no block. A plan's row of a section has
// these numbers too, but knows nothing of bytes.
#[derive(Clone, Copy, PartialEq, Eq, Debug)]
pub struct SectionFields {
    pub number: u16,
    pub weight: u16,
    pub measure: u32,
}

const MOST_MEASURE: u32 = 2_000_000;

impl SectionFields {
    // The block of the section, or none where the record has no number of one.
    pub fn block(&self) -> Option<u16>
        ensures { result ≡ cond (self.now.number == 0) None (Some self.now.number) }
    {
        (self.number != 0).then_some(self.number)
    }

    // In block `from` of a tree of so many blocks: the section has no block, or one further on; and no impossible measure.
    pub fn is_sound(&self, tree_blocks: usize, from: usize) -> bool
        ensures { result ≡ section_sound tree_blocks from self.now }
    {
        // Two comparisons and no range, since the number after `from` could overflow.
        let leads_on = self
            .block()
            .map(usize::from)
            .is_none_or(|number| from < number && number <= tree_blocks);
        leads_on && self.measure <= MOST_MEASURE
    }
}
