// Which ranks of a list are drawn earliest.
ghost use Rattle.std.specs.Prelude.{◌≡◌, ◌≤◌, true, false, min, length};
ghost use Rattle.std.specs.List.Sorted.{IsPartitionPoint, IsPartitionedBy};
ghost use Rattle.planner.specs.Drawing.{rank_before};
ghost use Rattle.planner.specs.Steps.{Earliest};
ghost use Rattle.tree.specs.Laws.{Distinct};

use crate::drawing::Drawing;
use crate::ranked::Ranked;

impl<S: Ranked> Drawing<S> {
    // How many of some ranks, which come in the order in which they are drawn, are drawn before a rank. The last of them is asked first:
    // most ranks of a list are drawn after all that were chosen, and there one comparison tells.
    fn chosen_before(&self, chosen: &[u16], rank: u16) -> usize
        ensures bound { result ≤ length chosen.now }
        ensures place { IsPartitionedBy (λ y. rank_before self.now.priorities y rank) chosen.now → IsPartitionPoint (λ y. rank_before self.now.priorities y rank ≡ true) (λ y. rank_before self.now.priorities y rank ≡ false) chosen.now result }
    {
        match chosen.split_last() {
            Some((last, others)) if !self.earlier(*last, rank) => {
                others.partition_point(|other| self.earlier(*other, rank))
            }
            _ => chosen.len(),
        }
    }

    // The ranks drawn earliest, `limit` of them or all if they are fewer, in the order in which they are drawn: an array, since a
    // call of the register takes no memory.
    pub(crate) fn earliest(&self, ranks: &[u16], limit: usize) -> [u16; 16]
        requires limit_bound { limit ≤ 16 }
        requires distinct { Distinct ranks.now }
        ensures { Earliest (rank_before self.now.priorities) ranks.now (min limit (length ranks.now)) result }
    {
        let mut chosen = [0; 16];
        for (seen, rank) in ranks.iter().enumerate() {
            let count = seen.min(limit);
            let place = self.chosen_before(&chosen[..count], *rank);
            if place < limit {
                // A copy, and no rotation, whose buffer would lie on the stack at each level of planning.
                chosen.copy_within(place..count.min(limit - 1), place + 1);
                chosen[place] = *rank;
            }
        }
        chosen
    }
}
