// Planning: a block, then its sections, each of which is again a block with sections of its own.
ghost use Rattle.std.specs.Prelude.{◌≡◌, ◌+◌, ◌-◌, ◌≤◌, map, length, count_ones};
ghost use Rattle.std.proofs.lemmas.List.Edits.{sets};
ghost use Rattle.tree.specs.Laws.{Distinct};
ghost use Rattle.tree.specs.Tree.{forest, numbered};
ghost use Rattle.planner.specs.Rows.{row_of, section_row};
ghost use Rattle.planner.specs.Steps.{cut_by, left_by};
ghost use Rattle.planner.specs.Subtrees.{subtree, visits, with_sections};

use crate::bounds::Bounds;
use crate::drawing::Drawing;
use crate::extent::Extent;
use crate::ranked::Ranked;
use crate::row::Row;
use crate::settings::Settings;

// The planning of some entries under some settings.
#[derive(Drop)]
pub(crate) struct Planning<S: Ranked> {
    pub(crate) drawing: Drawing<S>,
    pub(crate) settings: Settings,
}

// Where planning stands: the block whose sections are planned, with its bounds, which of them comes next, and the number of the
// next block.
#[derive(Clone, Copy)]
struct Place {
    bounds: Bounds,
    block: u16,
    section: usize,
    next: u16,
}

impl<S: Ranked> Planning<S> {
    // Plans the subtree of some ranks in key order, whose root has the number `number` and stands below the block `parent`. Two
    // passes go over all its ranks for the root, and a third gathers the sections. The ranks are a plain slice, without a type that
    // keeps them distinct: it is cut and lent on, and gathering leaves ranks in it twice; one that keeps their number would be made
    // anew at each cut.
    #[cycle(plan_block_plan_sections)]
    pub(crate) fn plan_block(
        &self,
        ranks: &mut [u16],
        table: &mut [Row],
        parent: u16,
        number: u16,
    ) -> Extent
        requires apart { Distinct ranks.old }
        requires first { 1 ≤ number }
        requires few { number + length ranks.old ≤ 2001 }
        requires room { number + length ranks.old ≤ length table.old + 1 }
        ensures rows { table.new ≡ sets table.old (number - 1) (map (row_of self.now.drawing.measures) (subtree self.now.drawing.priorities self.now.settings.alpha self.now.settings.rho parent number ranks.old)) }
        ensures count { result.blocks ≡ length (subtree self.now.drawing.priorities self.now.settings.alpha self.now.settings.rho parent number ranks.old) }
        ensures visits { result.visits ≡ visits (subtree self.now.drawing.priorities self.now.settings.alpha self.now.settings.rho parent number ranks.old) }
    {
        if ranks.is_empty() {
            return Extent::default();
        }
        let bounds = self.drawing.bounds(self.settings, ranks);
        let mut row = Row::BLANK;
        self.drawing.begin_row(bounds, ranks, parent, &mut row);
        let place = Place {
            bounds,
            block: number,
            section: 0,
            next: number + 1,
        };
        let beneath = self.plan_sections(ranks, table, &mut row, place);
        table[usize::from(number) - 1] = row;
        Extent {
            blocks: 1 + beneath.blocks,
            visits: 2 * ranks.len() as u32 + beneath.visits,
        }
    }

    // Plans the sections of a block from the one on at which planning stands, and notes them in the block's row. The answer is how
    // many blocks they have, and the visits to their ranks that were counted, here and beneath. It goes on by calling itself: a loop
    // would need all that the contract says in its invariant.
    #[cycle(plan_block_plan_sections)]
    fn plan_sections(
        &self,
        ranks: &mut [u16],
        table: &mut [Row],
        row: &mut Row,
        place: Place,
    ) -> Extent
        requires apart { Distinct ranks.old }
        requires short { length ranks.old ≤ 2000 }
        requires first { 1 ≤ place.next }
        requires few { place.next + left_by self.now.drawing.priorities place.bounds ranks.old ≤ 2001 }
        requires room { place.next + left_by self.now.drawing.priorities place.bounds ranks.old ≤ length table.old + 1 }
        requires fan { place.section + length (cut_by self.now.drawing.priorities place.bounds ranks.old) ≡ count_ones row.old.mask + 1 }
        requires places { count_ones row.old.mask ≤ 16 }
        ensures rows { table.new ≡ sets table.old (place.next - 1) (map (row_of self.now.drawing.measures) (forest (subtree self.now.drawing.priorities self.now.settings.alpha self.now.settings.rho place.block) place.next (cut_by self.now.drawing.priorities place.bounds ranks.old))) }
        ensures noted { row.new ≡ with_sections row.old (sets row.old.sections place.section (map (section_row self.now.drawing.measures) (numbered (subtree self.now.drawing.priorities self.now.settings.alpha self.now.settings.rho place.block) place.next (cut_by self.now.drawing.priorities place.bounds ranks.old)))) }
        ensures count { result.blocks ≡ length (forest (subtree self.now.drawing.priorities self.now.settings.alpha self.now.settings.rho place.block) place.next (cut_by self.now.drawing.priorities place.bounds ranks.old)) }
        ensures visits { result.visits ≡ length ranks.old + visits (forest (subtree self.now.drawing.priorities self.now.settings.alpha self.now.settings.rho place.block) place.next (cut_by self.now.drawing.priorities place.bounds ranks.old)) }
    {
        let separators = row.mask.count_ones() as usize;
        let gathered = self.drawing.gather_section(place.bounds, ranks);
        let (section, rest) = ranks.split_at_mut(gathered.end);
        let section = &mut section[..gathered.length];
        let first = self.plan_block(section, table, place.block, place.next);
        row.sections[place.section] = gathered.section(place.next);
        let visits = gathered.end as u32 + first.visits;
        if place.section == separators {
            return Extent {
                blocks: first.blocks,
                visits,
            };
        }
        let further = Place {
            section: place.section + 1,
            next: place.next + first.blocks,
            ..place
        };
        let others = self.plan_sections(rest, table, row, further);
        Extent {
            blocks: first.blocks + others.blocks,
            visits: visits + others.visits,
        }
    }
}
