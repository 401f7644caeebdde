// Tries the planner at entries that measure as much as their priorities.
#![tactic(auto)]

use planner::entry::MeasuredEntry;

fn main(rt: HostRuntime) -> anyhow::Result<()> {
    planner_trials::run::<MeasuredEntry>(&rt)
}
