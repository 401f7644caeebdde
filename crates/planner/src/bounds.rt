// Which ranks of a subtree its block holds, and which of them are active separators.
ghost use Rattle.std.specs.Prelude.{◌≡◌, ◌<◌, ◌≤◌, length};
ghost use Rattle.std.specs.List.{AllByRecursion};
ghost use Rattle.tree.specs.Laws.{Distinct};
ghost use Rattle.tree.specs.Tree.{among_earliest, is_active};
ghost use Rattle.planner.specs.Drawing.{rank_before};
ghost use Rattle.planner.specs.Bounding.{in_block, separates};

use crate::drawing::Drawing;
use crate::ranked::Ranked;
use crate::settings::Settings;

// The block holds the ranks that are not drawn after `last`. Active are those that are not drawn after `separator`, and none where
// the block does not divide what is beneath it.
#[derive(Clone, Copy)]
pub(crate) struct Bounds {
    last: u16,
    separator: Option<u16>,
}

impl<S: Ranked> Drawing<S> {
    // The bounds of the block over some ranks.
    pub(crate) fn bounds(&self, settings: Settings, ranks: &[u16]) -> Bounds
        requires some { 0 < length ranks.now }
        requires few { length ranks.now ≤ 2000 }
        requires apart { Distinct ranks.now }
        ensures block { AllByRecursion (λ x. in_block self.now.priorities result x ≡ among_earliest (rank_before self.now.priorities) settings.alpha ranks.now x) ranks.now }
        ensures active { AllByRecursion (λ x. separates self.now.priorities result x ≡ is_active (rank_before self.now.priorities) settings.alpha settings.rho ranks.now x) ranks.now }
    {
        let chosen = self.earliest(ranks, settings.alpha);
        let separators = settings.fan_out(ranks.len()) - 1;
        Bounds {
            last: chosen[settings.alpha.min(ranks.len()) - 1],
            separator: chosen[..separators].last().copied(),
        }
    }

    // Whether the block holds a rank of its subtree.
    pub(crate) fn holds(&self, bounds: Bounds, rank: u16) -> bool
        ensures { result ≡ in_block self.now.priorities bounds rank }
    {
        !self.earlier(bounds.last, rank)
    }

    // Whether a rank of its subtree is an active separator.
    pub(crate) fn separates(&self, bounds: Bounds, rank: u16) -> bool
        ensures { result ≡ separates self.now.priorities bounds rank }
    {
        match bounds.separator {
            Some(separator) => !self.earlier(separator, rank),
            None => false,
        }
    }
}
