// The entries of a block.
ghost use Rattle.std.specs.Prelude.{◌≡◌, ◌≤◌, [], length};
ghost use Rattle.planner.specs.Rows.{row_of};
ghost use Rattle.planner.specs.Steps.{held_by, root_alone};

use crate::bounds::Bounds;
use crate::drawing::Drawing;
use crate::ranked::Ranked;
use crate::row::Row;

impl<S: Ranked> Drawing<S> {
    // Writes the row of the block over some ranks, below the block `parent`, with its sections still blank. It is written where it
    // stays: a row that is answered would lie on the stack several times at each level of planning.
    pub(crate) fn begin_row(&self, bounds: Bounds, ranks: &[u16], parent: u16, row: &mut Row)
        requires fits { length (held_by self.now.priorities bounds ranks.now) ≤ 16 }
        requires few { length ranks.now ≤ 2000 }
        ensures { row.new ≡ row_of [] (root_alone self.now.priorities bounds parent ranks.now) }
    {
        *row = Row::BLANK;
        row.parent = parent;
        row.weight = ranks.len() as u16;
        for rank in ranks {
            if self.holds(bounds, *rank) {
                row.push(*rank, self.separates(bounds, *rank));
            }
        }
    }
}
