// The order in which ranks are drawn.
ghost use Rattle.std.specs.Prelude.{◌≡◌, slice_index};
ghost use Rattle.planner.specs.Drawing.{rank_before};

use crate::ranked::Ranked;
use std::marker::Model;

// What is planned. Clauses see the two lists of numbers that planning reads.
#[derive(Drop)]
pub(crate) struct Drawing<S: Ranked> {
    pub(crate) source: S,
}

impl<S: Ranked> Model for Drawing<S> {
    ghost use Rattle.planner.specs.Drawing.{Drawn};

    ghost Value = { Drawn };

    ghost view = { λ drawing. record { priorities = S.priorities drawing.source; measures = S.measures drawing.source } };
}

impl<S: Ranked> Drawing<S> {
    pub(crate) fn priority(&self, rank: u16) -> u16
        ensures { result ≡ slice_index self.now.priorities rank }
    {
        self.source.priority(rank)
    }

    pub(crate) fn measure(&self, rank: u16) -> u16
        ensures { result ≡ slice_index self.now.measures rank }
    {
        self.source.measure(rank)
    }

    // Whether one rank is drawn before another.
    pub(crate) fn earlier(&self, one: u16, other: u16) -> bool
        ensures { result ≡ rank_before self.now.priorities one other }
    {
        (self.priority(one), one) < (self.priority(other), other)
    }
}
