// The sections of a block, taken one by one from the left.
ghost use Rattle.std.specs.Prelude.{◌≡◌, ◌≤◌, length, take};
ghost use Rattle.planner.specs.Rows.{measure_of};
ghost use Rattle.planner.specs.Steps.{FirstSection, section_from};

use crate::bounds::Bounds;
use crate::drawing::Drawing;
use crate::ranked::Ranked;
use crate::row::SectionRow;

// The first `length` ranks are the section's, their measures sum to `measure`, and what is divided further begins at `end`.
#[derive(Clone, Copy)]
pub(crate) struct Gathered {
    pub(crate) length: usize,
    pub(crate) measure: u32,
    pub(crate) end: usize,
}

impl Gathered {
    // What is noted of the section: its block, if it has one, is the next.
    pub(crate) fn section(self, next: u16) -> SectionRow
        requires { self.length ≤ 2000 }
        ensures { result ≡ section_from next self.length self.measure }
    {
        let block = if self.length == 0 { 0 } else { next };
        SectionRow {
            block,
            weight: self.length as u16,
            measure: self.measure,
        }
    }
}

impl<S: Ranked> Drawing<S> {
    // Moves the ranks of the first section together: those up to the first active separator, or all, that are not in the block.
    pub(crate) fn gather_section(&self, bounds: Bounds, ranks: &mut [u16]) -> Gathered
        requires { length ranks.old ≤ 2000 }
        ensures first { FirstSection self.now.priorities bounds ranks.old ranks.new result.length result.end }
        ensures measure { result.measure ≡ measure_of self.now.measures (take result.length ranks.new) }
    {
        let mut length = 0;
        let mut measure = 0;
        // By index, since the slice is written while it is read; to look for the end first would be a fourth pass.
        for i in 0..ranks.len() {
            let rank = ranks[i];
            if self.separates(bounds, rank) {
                return Gathered {
                    length,
                    measure,
                    end: i + 1,
                };
            }
            if !self.holds(bounds, rank) {
                ranks[length] = rank;
                length += 1;
                measure += u32::from(self.measure(rank));
            }
        }
        Gathered {
            length,
            measure,
            end: ranks.len(),
        }
    }
}
