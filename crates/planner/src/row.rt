// What a plan says of each block.
ghost use Rattle.std.specs.Prelude.{◌≡◌, ℕ, ◌+◌, ◌<◌, min, [], length, take, count_ones};
ghost use Rattle.tree.specs.Tree.{Node};
ghost use Rattle.planner.specs.Rows.{ranks_of, row_of};
ghost use Rattle.planner.specs.Steps.{with_entry};

// A section of a block: the number of its own block, how many entries lie in it, and the sum of their measures. All are 0 if it is
// empty.
#[derive(Clone, Copy, PartialEq, Eq, Debug)]
pub struct SectionRow {
    pub block: u16,
    pub weight: u16,
    pub measure: u32,
}

impl SectionRow {
    // An empty section, or none.
    pub const EMPTY: SectionRow = SectionRow {
        block: 0,
        weight: 0,
        measure: 0,
    };
}

// A block of the tree: the number of the block above it (0 for the root), how many entries it holds, their ranks in key
// order, the mask of the active separators, how many entries its subtree has, and its sections from the left. It is of fixed
// size, with a count and a mask beside its arrays and 0 for no block: the table lies in fixed memory, and a block is written from
// these numbers.
#[derive(Clone, Copy, PartialEq, Eq, Debug)]
pub struct Row {
    pub parent: u16,
    pub count: u16,
    pub entries: [u16; 16],
    pub mask: u16,
    pub weight: u16,
    pub sections: [SectionRow; 17],
}

impl Row {
    // A row that says nothing.
    pub const BLANK: Row = Row {
        parent: 0,
        count: 0,
        entries: [0; 16],
        mask: 0,
        weight: 0,
        sections: [SectionRow::EMPTY; 17],
    };

    // Adds an entry to the right of those that the row has.
    pub(crate) fn push(&mut self, rank: u16, active: bool)
        requires { self.old.count < 16 }
        ensures { (node : Node ℕ) → length node.active ≡ length node.entries → self.old ≡ row_of [] node → self.new ≡ row_of [] (with_entry node rank active) }
    {
        self.entries[usize::from(self.count)] = rank;
        if active {
            self.mask |= 1 << self.count;
        }
        self.count += 1;
    }

    // The ranks of the entries.
    pub fn ranks(&self) -> &[u16]
        ensures ranks { result.now ≡ ranks_of self.now }
        ensures count { length result.now ≡ min self.now.count 16 }
    {
        &self.entries[..usize::from(self.count).min(16)]
    }

    // How many sections the block has: one more than there are active separators.
    pub fn fan_out(&self) -> usize
        ensures { result ≡ count_ones self.now.mask + 1 }
    {
        self.mask.count_ones() as usize + 1
    }

    // The sections up to the fan-out; the places behind them are not in use.
    pub fn used_sections(&self) -> &[SectionRow]
        ensures { result.now ≡ take (count_ones self.now.mask + 1) self.now.sections }
    {
        &self.sections[..self.fan_out().min(17)]
    }
}
